// The unknowns of one diagonal block, whose lines stand across: they are solved in order, a group of them and then the next. Each function that solves hands back
// the lowest index at which the diagonal is zero, if there is one.
#![tactic(auto)]

ghost use Rattle.std.specs.Prelude.{◌≡◌, false, ℕ, ◌+◌, ◌*◌, ◌≤◌, ◌<◌, length};
ghost use Rattle.arrays.specs.Update.{update, below};
ghost use Rattle.arrays.specs.Search as Search;
ghost use Rattle.arrays.specs.Search.{Found};
ghost use Rattle.floats.specs.Array.{at};
ghost use Rattle.definitions.specs.Element.{divided, by_zero};
ghost use Rattle.packing.specs.Factor.{index_of, turn};
ghost use Rattle.blocks.specs.Terms.{packed};
ghost use Rattle.forms.specs.Forms.{op_form, op_matrix};
ghost use Rattle.lines.specs.Lines.{cell, grid, coefficient, Room};
ghost use Rattle.trsm_diagonal.specs.Solve.{first, ordered, value_factor, matrix_factor, block_from, block_value, packed_value};

use arrays::Area;
use arrays::pieces::Pieces;
use blocks::{block, pass};
use definitions::Diagonal;
use forms::Op;
use lines::{Grid, triangle};
use packing::{factor, runs};

// What TRSM divides a line by: op(A), of which one triangle is stored. If `down`, the unknowns are solved from the last index down, else from the first up.
#[derive(Clone, Copy)]
pub struct Divisor<'a> {
    pub a: Op<'a>,
    pub diag: Diagonal,
    pub down: bool,
}

// The least index of the unknowns from the p-th on, n of them.
pub fn least(down: bool, m: usize, p: usize, n: usize) -> usize
    requires { p + n ≤ m }
    ensures { (result ≡ first down m p n) × (result + n ≤ m) }
{
    if down { m - (p + n) } else { p }
}

// The entries of op(A) as factors of a diagonal block's terms, times -1.0 for side R: row i of v has those of element x0 + i, in the order of solving.
fn matrix_factors(left: bool, by: Divisor, x0: usize, n: usize, v: &mut [f64])
    requires { (n ≤ 64) × (x0 + n < 18446744073709551616) × (4096 ≤ length v.old) × ((i j : ℕ) → i < n → j < n → index_of (op_form by.a.t) by.a.ld (x0 + i) (x0 + j) < length by.a.cells.now) }
    ensures { (q s : ℕ) → s < q → q < n → at v.new (turn by.entry.down n q * 64 + s) ≡ matrix_factor left (coefficient left (op_matrix by.entry.a) (x0 + turn by.entry.down n q) (x0 + turn by.entry.down n s)) }
{
    triangle::coefficients(left, by.down, by.down, by.a, x0, n, v);
    if left {
        return;
    }
    let area = Area {
        ld: 64,
        rows: n,
        cols: n,
    };
    pass::scale(v, area, -1.0);
}

// The lower of two indices, either of which may be missing.
pub fn lower(a: Option<usize>, b: Option<usize>) -> Option<usize>
    ensures { result ≡ Search.lower a b }
{
    match (a, b) {
        (Some(i), Some(j)) => Some(i.min(j)),
        _ => a.or(b),
    }
}

// Unknown i of all lines: the terms of the j before it, and then the division by entry (i, i), unless the diagonal is unit. It hands back whether that is by zero.
fn solve_unknown(
    by: Divisor,
    s: &mut [f64],
    lines: usize,
    j: usize,
    u: &[f64],
    v: &[f64],
    i: usize,
) -> bool
    requires { (lines ≤ length s.old) × (lines ≤ 64) × (j * 64 + lines ≤ length u.now + 64) × (j ≤ length v.now) × (i * by.a.ld + i < length by.a.cells.now) }
    ensures { (s.new ≡ update (below lines (λ l e. divided by.entry.diag (packed j u.now v.now l 0 e) (op_matrix by.entry.a i i))) s.old)
        × (result ≡ by_zero by.entry.diag (op_matrix by.entry.a i i)) }
{
    match by.diag {
        Diagonal::Unit => {
            block::column(s, lines, j, u, v);
            false
        }
        Diagonal::Nonunit => {
            let d = by.a.cells[i * by.a.ld + i];
            block::column(s, lines, j, u, v);
            pass::divide_column(s, lines, d)
        }
    }
}

// The values of an unknown as factors of its terms, times -1.0 for side L.
fn value_factors(left: bool, u: &mut [f64], lines: usize, s: &[f64])
    requires { (lines ≤ length u.old) × (lines ≤ length s.now) }
    ensures { u.new ≡ update (below lines (λ l _. value_factor left (at s.now l))) u.old }
{
    runs::copy(u, lines, s);
    if left {
        pass::scale_column(u, lines, -1.0);
    }
}

// The unknowns of a small triangle, from element x0 on, g.m of them, one after the other. On either side lines stand across in s, element x0 + i of line l at
// i * g.ld + l; v has the factors of the entries, and u takes those of the unknowns.
fn solve_unknowns(
    g: Grid,
    by: Divisor,
    x0: usize,
    s: &mut [f64],
    u: &mut [f64],
    v: &[f64],
) -> Option<usize>
    requires m_bound { (g.m ≤ 64) × (0 < g.lines) × (g.lines ≤ 64) × (g.m * 64 ≤ length u.old) × (g.m * 64 + g.m ≤ length v.now + 64) × ((i : ℕ) → i < g.m → (x0 + i) * by.a.ld + (x0 + i) < length by.a.cells.now) }
    requires room { Room false g.ld g.m g.lines (length s.old) }
    ensures { (s.new ≡ update (ordered false by.entry.down g.ld g.m g.lines (λ q l _. packed_value g.left by.entry.down g.m by.entry.diag (block_from x0 (op_matrix by.entry.a)) v.now (λ i. at s.old (cell false g.ld i l)) q)) s.old)
        × (u.new ≡ update (grid false 64 g.m g.lines (λ q l _. value_factor g.left (packed_value g.left by.entry.down g.m by.entry.diag (block_from x0 (op_matrix by.entry.a)) v.now (λ i. at s.old (cell false g.ld i l)) q))) u.old)
        × Found (λ i. by_zero by.entry.diag (op_matrix by.entry.a (x0 + i) (x0 + i))) g.m result }
{
    let mut zero = None;
    for j in 0..g.m {
        let i = factor::turn_of(by.down, g.m, j);
        let to = i * g.ld;
        let row = i * 64;
        let x = j * 64;
        let found = solve_unknown(by, &mut s[to..], g.lines, j, u, &v[row..], x0 + i);
        value_factors(g.left, &mut u[x..], g.lines, &s[to..]);
        if found {
            zero = lower(zero, Some(i));
        }
    }
    zero
}

// The unknowns of a diagonal block, some of them at a time: the terms of all before these are a product of packed blocks, and with their own they are a small
// triangle.
fn solve_groups(
    g: Grid,
    by: Divisor,
    x0: usize,
    s: &mut [f64],
    u: &mut [f64],
    v: &[f64],
) -> Option<usize>
    requires m_bound { (g.m ≤ 64) × (0 < g.lines) × (g.lines ≤ 64) × (4096 ≤ length u.old) × (4096 ≤ length v.now) × ((i : ℕ) → i < g.m → (x0 + i) * by.a.ld + (x0 + i) < length by.a.cells.now) }
    requires room { Room false g.ld g.m g.lines (length s.old) }
    ensures { (s.new ≡ update (ordered false by.entry.down g.ld g.m g.lines (λ q l _. packed_value g.left by.entry.down g.m by.entry.diag (block_from x0 (op_matrix by.entry.a)) v.now (λ i. at s.old (cell false g.ld i l)) q)) s.old)
        × Found (λ i. by_zero by.entry.diag (op_matrix by.entry.a (x0 + i) (x0 + i))) g.m result }
{
    let mut zero = None;
    for (j, h) in Pieces::of(g.m, block::SMALL) {
        let y = least(by.down, g.m, j, h);
        let to = y * g.ld;
        let row = y * 64;
        let x = j * 64;
        let w = row + j;
        let area = Area {
            ld: g.ld,
            rows: g.lines,
            cols: h,
        };
        block::block(&mut s[to..], area, j, u, &v[row..]);
        let group = Grid { m: h, ..g };
        let z = solve_unknowns(group, by, x0 + y, &mut s[to..], &mut u[x..], &v[w..]);
        zero = lower(zero, z.map(|i| y + i));
    }
    zero
}

// The unknowns of the diagonal block from element x0 on, g.m of them. On either side their lines stand across in s.
pub fn solve_across(g: Grid, by: Divisor, s: &mut [f64], x0: usize) -> Option<usize>
    requires m_nonzero { (0 < g.m) × (g.m ≤ 64) × (0 < g.lines) × (g.lines ≤ 64) × (x0 + g.m < 18446744073709551616) × ((i j : ℕ) → i < g.m → j < g.m → index_of (op_form by.a.t) by.a.ld (x0 + i) (x0 + j) < length by.a.cells.now) }
    requires room { Room false g.ld g.m g.lines (length s.old) }
    ensures { (s.new ≡ update (ordered false by.entry.down g.ld g.m g.lines (λ q l _. block_value g.left by.entry.down g.m by.entry.diag (block_from x0 (op_matrix by.entry.a)) (λ i. at s.old (cell false g.ld i l)) q)) s.old)
        × Found (λ i. by_zero by.entry.diag (op_matrix by.entry.a (x0 + i) (x0 + i))) g.m result }
{
    let mut u = [0.0f64; 4096];
    let mut v = [0.0f64; 4096];
    matrix_factors(g.left, by, x0, g.m, &mut v);
    solve_groups(g, by, x0, s, &mut u, &v)
}
