// TRSM: the update of one strip. The unknowns are solved in order: a block of them, and then its terms in the sums of all that are left; in a tiny call one after the
// other, straight from the arrays. Each function that solves hands back the lowest index at which the diagonal is zero, if there is one.
#![tactic(auto)]

ghost use Rattle.std.specs.Prelude.{◌≡◌, Bool, false, not, ◌&&◌, List, ℕ, ◌+◌, ◌*◌, ◌≤◌, ◌<◌, length, IfSome, Float};
ghost use Rattle.arrays.specs.Update.{update};
ghost use Rattle.arrays.specs.Search.{Found, answer_of};
ghost use Rattle.floats.specs.Array.{at};
ghost use Rattle.definitions.specs.Number.{is_zero};
ghost use Rattle.definitions.specs.Call.{by_side, extent};
ghost use Rattle.definitions.specs.Element.{divided, by_zero, zero_of, StripOf};
ghost use Rattle.definitions.specs.declared.Routine.TheVariants.{Trsm};
ghost use Rattle.definitions.proofs.Fits.{Fits};
ghost use Rattle.forms.specs.Forms.{op_matrix, Square};
ghost use Rattle.lines.specs.Lines.{cell, grid, GridRoom};
ghost use Rattle.elements.specs.Sums.{finished};
ghost use Rattle.trsm_diagonal.specs.Solve.{front, zero_among};
ghost use Rattle.trsm.specs.Steps.{line_value, Step};

use arrays::Area;
use blocks::pass;
use definitions::{Call, Diagonal, Scalar, Side};
use elements::{End, Formula, Start};
use forms::Op;
use lines::Grid;
use packing::factor;
use packing::factor::Run;
use trsm_diagonal::Divisor;

// How many sums take terms at a time: all of them for side L, at most 256 for side R.
fn reach(left: bool, m: usize) -> usize
    ensures { (left ≡ false → result ≤ 256) × ((0 < m) → 0 < result) }
{
    if left { m } else { 256 }
}

// The terms of the unknowns from the p-th on, n of them, in the sums of all after them.
fn update_rest(g: Grid, by: Divisor, b: &mut [f64], p: usize, n: usize, r: usize)
    requires n_nonzero { (0 < n) × (n ≤ 64) × (p + n ≤ g.m) × (0 < g.lines) × (g.lines ≤ 64) × (0 < r) × (r ≤ 64) }
    requires room { GridRoom g (length b.old) }
    requires by_index { Square by.a g.m }
    ensures { Step g.left by.entry.down g.ld g.m g.lines by.entry.diag (op_matrix by.entry.a) (λ k. front (p + n) (p + n) (front g.m p k)) (front g.m (p + n)) b.old b.new }
{
    if p + n == g.m {
        return;
    }
    let w = reach(g.left, g.m);
    let mut x = [0.0f64; 4096];
    let x0 = trsm_diagonal::least(by.down, g.m, p, n);
    lines::take(g, g.left, &mut x, b, x0, n);
    for i in (p + n..g.m).step_by(w) {
        let h = w.min(g.m - i);
        let y = trsm_diagonal::least(by.down, g.m, i, h);
        lines::add_terms(g, by.down, b, -1.0, by.a, x0, n, y, h, &x, r);
    }
}

// The unknowns from the p-th on, n of them, whose sums have the terms of all before the p-th: for side L in a copy of the block's lines.
fn solve_block(g: Grid, by: Divisor, b: &mut [f64], p: usize, n: usize) -> Option<usize>
    requires n_nonzero { (0 < n) × (n ≤ 64) × (p + n ≤ g.m) × (0 < g.lines) × (g.lines ≤ 64) }
    requires room { GridRoom g (length b.old) }
    requires by_index { Square by.a g.m }
    ensures { Step g.left by.entry.down g.ld g.m g.lines by.entry.diag (op_matrix by.entry.a) (front (p + n) p) (front (p + n) (p + n)) b.old b.new
        × Found (zero_among by.entry.down g.m by.entry.diag (op_matrix by.entry.a) p (p + n)) g.m result }
{
    let x0 = trsm_diagonal::least(by.down, g.m, p, n);
    if g.left {
        let mut s = [0.0f64; 4096];
        lines::take(g, false, &mut s, b, x0, n);
        let copy = Grid { ld: 64, m: n, ..g };
        let z = trsm_diagonal::solve_across(copy, by, &mut s, x0);
        lines::put(g, false, b, x0, n, &s);
        return z.map(|i| x0 + i);
    }
    let to = x0 * g.ld;
    let block = Grid { m: n, ..g };
    let z = trsm_diagonal::solve_across(block, by, &mut b[to..], x0);
    z.map(|i| x0 + i)
}

// All unknowns, by blocks of r.
fn solve(g: Grid, by: Divisor, b: &mut [f64], r: usize) -> Option<usize>
    requires m_nonzero { (0 < g.m) × (0 < g.lines) × (g.lines ≤ 64) × (0 < r) × (r ≤ 64) }
    requires room { GridRoom g (length b.old) }
    requires by_index { Square by.a g.m }
    ensures { Step g.left by.entry.down g.ld g.m g.lines by.entry.diag (op_matrix by.entry.a) (front g.m 0) (front g.m g.m) b.old b.new
        × Found (λ i. by_zero by.entry.diag (op_matrix by.entry.a i i)) g.m result }
{
    let mut zero = None;
    for q in (0..g.m).step_by(r) {
        let n = r.min(g.m - q);
        let z = solve_block(g, by, b, q, n);
        update_rest(g, by, b, q, n, r);
        zero = trsm_diagonal::lower(zero, z);
    }
    zero
}

// How the sum of unknown i ends: with the division by entry (i, i), unless the diagonal is unit.
fn end_of(by: Divisor, i: usize) -> End
    requires { i * by.a.ld + i < length by.a.cells.now }
    ensures { (left : Bool) (alpha e y : Float) → finished left alpha result e y ≡ divided by.entry.diag e (op_matrix by.entry.a i i) }
{
    match by.diag {
        Diagonal::Unit => End::Sum,
        Diagonal::Nonunit => End::Quotient(by.a.cells[i * by.a.ld + i]),
    }
}

// Whether that is a division by zero.
fn ends_by_zero(by: Divisor, i: usize) -> bool
    requires { i * by.a.ld + i < length by.a.cells.now }
    ensures { result ≡ by_zero by.entry.diag (op_matrix by.entry.a i i) }
{
    match by.diag {
        Diagonal::Unit => false,
        Diagonal::Nonunit => by.a.cells[i * by.a.ld + i] == 0.0,
    }
}

// The j-th unknown of all lines, straight from the arrays, when those before it are solved.
fn solve_element(g: Grid, by: Divisor, b: &mut [f64], j: usize)
    requires j_lt_m { (j < g.m) × (0 < g.lines) }
    requires room { GridRoom g (length b.old) }
    requires by_index { Square by.a g.m }
    ensures { Step g.left by.entry.down g.ld g.m g.lines by.entry.diag (op_matrix by.entry.a) (λ k. front j j (front g.m 0 k)) (λ k. front (j + 1) (j + 1) (front g.m 0 k)) b.old b.new }
{
    let i = factor::turn_of(by.down, g.m, j);
    let f = Formula {
        start: Start::Value,
        alpha: -1.0,
        end: end_of(by, i),
    };
    let from = factor::turn_of(by.down, g.m, 0);
    let before = Run {
        from,
        down: by.down,
    };
    elements::element(g, f, b, i, by.a, before, j);
}

// All unknowns, one after the other, without buffers: for tiny calls.
fn solve_elements(g: Grid, by: Divisor, b: &mut [f64]) -> Option<usize>
    requires m_nonzero { (0 < g.m) × (0 < g.lines) }
    requires room { GridRoom g (length b.old) }
    requires by_index { Square by.a g.m }
    ensures { Step g.left by.entry.down g.ld g.m g.lines by.entry.diag (op_matrix by.entry.a) (front g.m 0) (front g.m g.m) b.old b.new
        × Found (λ i. by_zero by.entry.diag (op_matrix by.entry.a i i)) g.m result }
{
    let mut zero = None;
    for j in 0..g.m {
        let i = factor::turn_of(by.down, g.m, j);
        solve_element(g, by, b, j);
        if ends_by_zero(by, i) {
            zero = trsm_diagonal::lower(zero, Some(i));
        }
    }
    zero
}

// All lines: cleared if alpha is zero (A is not read), else solved with alpha times B as the start.
fn solve_lines(g: Grid, by: Divisor, alpha: Scalar, b: &mut [f64], r: usize) -> Option<usize>
    requires m_nonzero { (0 < g.m) × (0 < g.lines) × (g.lines ≤ 64) × (0 < r) × (r ≤ 64) }
    requires room { GridRoom g (length b.old) }
    requires j_in_bounds { is_zero alpha ≡ false → Square by.a g.m }
    ensures { (b.new ≡ update (grid g.left g.ld g.m g.lines (λ i l _. line_value g.left by.entry.down g.m by.entry.diag alpha (op_matrix by.entry.a) (λ p. at b.old (cell g.left g.ld p l)) i)) b.old)
        × Found (λ i. not (is_zero alpha) && by_zero by.entry.diag (op_matrix by.entry.a i i)) g.m result }
{
    let rows = arrays::pick(g.left, g.m, g.lines);
    let cols = arrays::pick(g.left, g.lines, g.m);
    let area = Area {
        ld: g.ld,
        rows,
        cols,
    };
    if alpha.is_zero() {
        pass::clear(b, area);
        return None;
    }
    pass::scale(b, area, alpha.factor());
    if direct::tiny(g.m, g.lines, g.m) {
        return solve_elements(g, by, b);
    }
    solve(g, by, b, r)
}

// The index as a number, or -1 if there is none.
fn report(z: Option<usize>) -> i32
    requires { IfSome z (λ i. i < 2147483648) }
    ensures { result ≡ answer_of z }
{
    match z {
        Some(i) => i as i32,
        None => -1,
    }
}

// TRSM's strip of `lines` columns (side L) or rows (side R) from column or row `from` on: b is the part of B that starts there, and blocks are of r unknowns. It
// hands back the lowest diagonal index at which A is zero, or -1.
pub fn trsm_strip(call: Call, a: &[f64], b: &mut [f64], from: usize, lines: usize, r: usize) -> i32
    requires by_index { (lenc : ℕ) × Fits Trsm call (length a.now) (by_side call.side (from * call.ldb) from + length b.old) lenc }
    requires lines_nonzero { (0 < lines) × (lines ≤ 64) × (from + lines ≤ extent call) × (0 < r) × (r ≤ 64) }
    ensures { ((b₀ : List Float) → StripOf call a.now b₀ from (from + lines) (by_side call.side (from * call.ldb) from) b.old b.new)
        × (result ≡ zero_of Trsm call a.now) }
{
    let low = forms::op_lower(call.transa, call.uplo);
    let by = Divisor {
        a: Op {
            t: call.transa,
            cells: a,
            ld: call.lda as usize,
        },
        diag: call.diag,
        down: low,
    };
    let ld = call.ldb as usize;
    match call.side {
        Side::Left => {
            let columns = Grid {
                left: true,
                ld,
                m: call.m as usize,
                lines,
            };
            let by = Divisor { down: !low, ..by };
            report(solve_lines(columns, by, call.alpha, b, r))
        }
        Side::Right => {
            let rows = Grid {
                left: false,
                ld,
                m: call.n as usize,
                lines,
            };
            report(solve_lines(rows, by, call.alpha, b, r))
        }
    }
}
