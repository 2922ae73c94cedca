// The terms of a diagonal block for the sums of its own elements. They are made where these stand across, element q of line l at q * 64 + l, so that one column
// holds an element of all lines. Of op(A) no more is read than its triangle, and of its diagonal nothing where it is unit.
#![tactic(auto)]

ghost use Rattle.std.specs.Prelude.{◌≡◌, true, false, ℕ, ◌+◌, ◌*◌, ◌≤◌, ◌<◌, length, if◌then◌else◌};
ghost use Rattle.arrays.specs.Update.{update};
ghost use Rattle.arrays.specs.Fold.{fold};
ghost use Rattle.floats.specs.Array.{at};
ghost use Rattle.floats.specs.Operations.{1f};
ghost use Rattle.definitions.specs.Storage.{with_diagonal};
ghost use Rattle.packing.specs.Factor.{index_of};
ghost use Rattle.forms.specs.Forms.{op_form, op_matrix, Square};
ghost use Rattle.lines.specs.Lines.{cell, grid, within, coefficient, GridRoom};
ghost use Rattle.trmm_diagonal.specs.Terms.{has, held_terms, term_from, matrix_of, Pivots};

use arrays::Area;
use arrays::pieces::Pieces;
use blocks::{block, pass};
use definitions::Diagonal;
use forms::Op;
use lines::Grid;

// What TRMM multiplies a line by: alpha times op(A), of which one triangle is stored. If `after`, an element has the terms from its own on, else those up to its own.
#[derive(Clone, Copy)]
pub struct Multiplier<'a> {
    pub a: Op<'a>,
    pub diag: Diagonal,
    pub after: bool,
    pub alpha: f64,
}

// Entry (p, p) of op(A).
pub fn pivot(diag: Diagonal, a: Op, p: usize) -> f64
    requires { p * a.ld + p < length a.cells.now }
    ensures { result ≡ with_diagonal 1f diag (op_matrix a.entry) p p }
{
    match diag {
        Diagonal::Unit => 1.0,
        Diagonal::Nonunit => a.cells[p * a.ld + p],
    }
}

// The terms of n elements for these elements themselves, whose sums stand across in s, as one small triangle; u and v hold the factors.
fn walk(after: bool, s: &mut [f64], lines: usize, n: usize, u: &[f64], v: &[f64])
    requires { (n ≤ 64) × (lines ≤ 64) × (n * 64 ≤ length s.old) × (n * 64 ≤ length u.now) × (n * 64 + n ≤ length v.now + 64) }
    ensures { s.new ≡ update (grid false 64 n lines (λ q l e. held_terms after n u.now v.now q l e)) s.old }
{
    for j in 0..n {
        let lo = arrays::pick(after, j, 0);
        let count = arrays::pick(after, n - j, j + 1);
        let to = j * 64;
        let x = lo * 64;
        let y = j * 64 + lo;
        block::column(&mut s[to..], lines, count, &u[x..], &v[y..]);
    }
}

// The terms of n elements for h of them, from the j-th on: those of the h for themselves, and of the elements on one side of them, in order.
fn group(
    after: bool,
    s: &mut [f64],
    lines: usize,
    n: usize,
    j: usize,
    h: usize,
    u: &[f64],
    v: &[f64],
)
    requires { (n ≤ 64) × (0 < h) × (j + h ≤ n) × (lines ≤ 64) × (4096 ≤ length s.old) × (4096 ≤ length u.now) × (4096 ≤ length v.now) }
    ensures { s.new ≡ update (grid false 64 n lines (λ q l e. if within j h q then held_terms after n u.now v.now q l e else e)) s.old }
{
    let x = j * 64;
    let y = x + j;
    let elements = Area {
        ld: 64,
        rows: lines,
        cols: h,
    };
    if after {
        let end = j + h;
        let from = end * 64;
        let w = x + end;
        walk(after, &mut s[x..], lines, h, &u[x..], &v[y..]);
        block::block(&mut s[x..], elements, n - end, &u[from..], &v[w..]);
        return;
    }
    block::block(&mut s[x..], elements, j, u, &v[x..]);
    walk(after, &mut s[x..], lines, h, &u[x..], &v[y..]);
}

// The terms of n elements for these elements themselves, group after group.
fn groups(after: bool, s: &mut [f64], lines: usize, n: usize, u: &[f64], v: &[f64])
    requires { (n ≤ 64) × (lines ≤ 64) × (4096 ≤ length s.old) × (4096 ≤ length u.now) × (4096 ≤ length v.now) }
    ensures { s.new ≡ update (grid false 64 n lines (λ q l e. held_terms after n u.now v.now q l e)) s.old }
{
    for (j, h) in Pieces::of(n, block::SMALL) {
        group(after, s, lines, n, j, h, u, v);
    }
}

// The entries of op(A)'s diagonal from (p0, p0) on, n of them, to their places in v.
fn pivots(diag: Diagonal, a: Op, p0: usize, n: usize, v: &mut [f64])
    requires { (n ≤ 64) × (p0 + n < 18446744073709551616) × (4096 ≤ length v.old) × ((i : ℕ) → i < n → (p0 + i) * a.ld + (p0 + i) < length a.cells.now) }
    ensures { Pivots diag (op_matrix a.entry) p0 n v.old v.new }
{
    for i in 0..n {
        v[i * 64 + i] = pivot(diag, a, p0 + i);
    }
}

// The coefficients of the terms of the n elements from p0 on for these elements themselves, to v: row i is for element p0 + i.
fn triangle(left: bool, by: Multiplier, p0: usize, n: usize, v: &mut [f64])
    requires { (n ≤ 64) × (p0 + n < 18446744073709551616) × (4096 ≤ length v.old) × ((i j : ℕ) → i < n → j < n → index_of (op_form by.a.t) by.a.ld (p0 + i) (p0 + j) < length by.a.cells.now) }
    ensures { (length v.new ≡ length v.old) × ((i p : ℕ) → i < n → p < n → has by.entry.after i p ≡ true → at v.new (i * 64 + p) ≡ coefficient left (matrix_of by.entry) (p0 + i) (p0 + p)) }
{
    lines::triangle::coefficients(left, by.after, false, by.a, p0, n, v);
    pivots(by.diag, by.a, p0, n, v);
}

// All terms of the n elements from p0 on for these elements themselves, whose sums stand across in s.
pub fn across(g: Grid, by: Multiplier, b: &[f64], p0: usize, n: usize, s: &mut [f64])
    requires n_nonzero { (0 < n) × (n ≤ 64) × (p0 + n ≤ g.m) × (0 < g.lines) × (g.lines ≤ 64) × (4096 ≤ length s.old) }
    requires room { GridRoom g (length b.now) }
    requires by_index { Square by.a g.m }
    ensures { s.new ≡ update (grid false 64 n g.lines (λ q l e. fold (term_from g.left by.entry.after by.entry.alpha (matrix_of by.entry) p0 (λ k. at b.now (cell g.left g.ld (p0 + k) l)) (p0 + q)) n e)) s.old }
{
    let mut x = [0.0f64; 4096];
    let mut v = [0.0f64; 4096];
    lines::take(g, false, &mut x, b, p0, n);
    triangle(g.left, by, p0, n, &mut v);
    if g.left {
        let values = Area {
            ld: 64,
            rows: g.lines,
            cols: n,
        };
        pass::scale(&mut x, values, by.alpha);
        groups(by.after, s, g.lines, n, &x, &v);
        return;
    }
    let coefficients = Area {
        ld: 64,
        rows: n,
        cols: n,
    };
    pass::scale(&mut v, coefficients, by.alpha);
    groups(by.after, s, g.lines, n, &x, &v);
}

// Side L: the same where z holds the sums by columns, turned across and back. Its buffer stands in a frame of its own, which side R does not have.
fn turned(g: Grid, by: Multiplier, b: &[f64], p0: usize, n: usize, z: &mut [f64])
    requires left { g.left ≡ true }
    requires n_nonzero { (0 < n) × (n ≤ 64) × (p0 + n ≤ g.m) × (0 < g.lines) × (g.lines ≤ 64) × (4096 ≤ length z.old) }
    requires room { GridRoom g (length b.now) }
    requires by_index { Square by.a g.m }
    ensures { z.new ≡ update (grid g.left 64 n g.lines (λ q l e. fold (term_from g.left by.entry.after by.entry.alpha (matrix_of by.entry) p0 (λ k. at b.now (cell g.left g.ld (p0 + k) l)) (p0 + q)) n e)) z.old }
{
    let sums = Grid { ld: 64, m: n, ..g };
    let mut s = [0.0f64; 4096];
    lines::take(sums, false, &mut s, z, 0, n);
    across(g, by, b, p0, n, &mut s);
    lines::put(sums, false, z, 0, n, &s);
}

// The same on either side, where z holds the sums as the side does.
pub fn diagonal(g: Grid, by: Multiplier, b: &[f64], p0: usize, n: usize, z: &mut [f64])
    requires n_nonzero { (0 < n) × (n ≤ 64) × (p0 + n ≤ g.m) × (0 < g.lines) × (g.lines ≤ 64) × (4096 ≤ length z.old) }
    requires room { GridRoom g (length b.now) }
    requires by_index { Square by.a g.m }
    ensures { z.new ≡ update (grid g.left 64 n g.lines (λ q l e. fold (term_from g.left by.entry.after by.entry.alpha (matrix_of by.entry) p0 (λ k. at b.now (cell g.left g.ld (p0 + k) l)) (p0 + q)) n e)) z.old }
{
    if g.left {
        turned(g, by, b, p0, n, z);
        return;
    }
    across(g, by, b, p0, n, z);
}
