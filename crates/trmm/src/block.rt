// A block of elements of each line becomes its part of the product. What it reads of the line is still as the block finds it.
ghost use Rattle.std.specs.Prelude.{◌≡◌, true, false, ◌+◌, ◌≤◌, ◌<◌, length, if◌then◌else◌};
ghost use Rattle.arrays.specs.Update.{update};
ghost use Rattle.arrays.specs.Fold.{fold};
ghost use Rattle.floats.specs.Array.{at};
ghost use Rattle.forms.specs.Forms.{op_matrix, Square};
ghost use Rattle.lines.specs.Lines.{cell, grid, within, line_term, GridRoom};
ghost use Rattle.trmm_diagonal.specs.Terms.{term_from, matrix_of};
ghost use Rattle.trmm.specs.Sum.{sum_of};

use arrays::Area;
use direct::Product;
use forms::Op;
use lines::Grid;
use packing::factor::Factor;
use packing::{Form, factor};
use trmm_diagonal::Multiplier;

// All terms of the `count` elements from lo on, which may be none, for the n elements from p0 on, whose sums are in z.
fn beside(
    g: Grid,
    alpha: f64,
    a: Op,
    b: &[f64],
    p0: usize,
    n: usize,
    lo: usize,
    count: usize,
    z: &mut [f64],
    r: usize,
)
    requires n_nonzero { (0 < n) × (n ≤ 64) × (p0 + n ≤ g.m) × (lo + count ≤ g.m) × (0 < g.lines) × (g.lines ≤ 64) × (0 < r) × (r ≤ 64) × (4096 ≤ length z.old) }
    requires room { GridRoom g (length b.now) }
    requires by_index { Square a g.m }
    ensures { z.new ≡ update (grid g.left 64 n g.lines (λ q l e. fold (λ e i. line_term g.left alpha (op_matrix a.entry) (p0 + q) e (lo + i) (at b.now (cell g.left g.ld (lo + i) l))) count e)) z.old }
{
    if count == 0 {
        return;
    }
    let f = forms::op_form(a.t);
    if g.left {
        let from = factor::place(f, a.ld, p0, lo);
        let entries = Factor {
            form: f,
            cells: &a.cells[from..],
            ld: a.ld,
        };
        let values = Factor {
            form: Form::Plain,
            cells: &b[lo..],
            ld: g.ld,
        };
        let p = Product {
            left: entries,
            right: values,
            terms: count,
            alpha,
        };
        let sums = Area {
            ld: 64,
            rows: n,
            cols: g.lines,
        };
        kernel::multiply(z, sums, p, 0, 0, false, r);
        return;
    }
    let from = factor::place(f, a.ld, lo, p0);
    let x = lo * g.ld;
    let entries = Factor {
        form: f,
        cells: &a.cells[from..],
        ld: a.ld,
    };
    let values = Factor {
        form: Form::Plain,
        cells: &b[x..],
        ld: g.ld,
    };
    let p = Product {
        left: values,
        right: entries,
        terms: count,
        alpha,
    };
    let sums = Area {
        ld: 64,
        rows: g.lines,
        cols: n,
    };
    kernel::multiply(z, sums, p, 0, 0, false, r);
}

// All terms of the n elements from p0 on, whose sums are in z: those of the block itself and those on one side of it, in order.
fn sums(g: Grid, by: Multiplier, b: &[f64], p0: usize, n: usize, z: &mut [f64], r: usize)
    requires n_nonzero { (0 < n) × (n ≤ 64) × (p0 + n ≤ g.m) × (0 < g.lines) × (g.lines ≤ 64) × (0 < r) × (r ≤ 64) × (4096 ≤ length z.old) }
    requires room { GridRoom g (length b.now) }
    requires by_index { Square by.a g.m }
    ensures { z.new ≡ update (grid g.left 64 n g.lines (λ q l e. fold (term_from g.left by.entry.after by.entry.alpha (matrix_of by.entry) 0 (λ p. at b.now (cell g.left g.ld p l)) (p0 + q)) g.m e)) z.old }
{
    if by.after {
        let lo = p0 + n;
        trmm_diagonal::diagonal(g, by, b, p0, n, z);
        beside(g, by.alpha, by.a, b, p0, n, lo, g.m - lo, z, r);
        return;
    }
    beside(g, by.alpha, by.a, b, p0, n, 0, p0, z, r);
    trmm_diagonal::diagonal(g, by, b, p0, n, z);
}

// Whether no element outside the n elements from p0 on has a term in their sums.
fn is_alone(after: bool, m: usize, p0: usize, n: usize) -> bool
    requires { p0 + n ≤ m }
    ensures { result ≡ true → (after ≡ true → p0 + n ≡ m) × (after ≡ false → p0 ≡ 0) }
{
    if after { p0 + n == m } else { p0 == 0 }
}

// The n elements from p0 on of each line become their sums over all m elements. If the block is alone, these are made across at once.
pub fn block(g: Grid, by: Multiplier, b: &mut [f64], p0: usize, n: usize, r: usize)
    requires n_nonzero { (0 < n) × (n ≤ 64) × (p0 + n ≤ g.m) × (0 < g.lines) × (g.lines ≤ 64) × (0 < r) × (r ≤ 64) }
    requires room { GridRoom g (length b.old) }
    requires by_index { Square by.a g.m }
    ensures { b.new ≡ update (grid g.left g.ld g.m g.lines (λ q l e. if within p0 n q then sum_of g.left by.entry.after by.entry.alpha (matrix_of by.entry) g.m (λ p. at b.old (cell g.left g.ld p l)) q else e)) b.old }
{
    let mut z = [0.0f64; 4096];
    if is_alone(by.after, g.m, p0, n) {
        trmm_diagonal::across(g, by, b, p0, n, &mut z);
        lines::put(g, false, b, p0, n, &z);
        return;
    }
    sums(g, by, b, p0, n, &mut z, r);
    lines::put(g, g.left, b, p0, n, &z);
}
