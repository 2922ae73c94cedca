// TRMM: the update of one strip, in place. B goes by lines, columns for side L and rows for side R; the blocks of a line, or in a tiny call its elements, are taken
// in such an order that what one reads of the line is still as at entry.
#![tactic(auto)]

ghost use Rattle.std.specs.Prelude.{◌≡◌, true, false, List, ℕ, ◌+◌, ◌*◌, ◌≤◌, ◌<◌, length, Float, if◌then◌else◌};
ghost use Rattle.arrays.specs.Update.{update};
ghost use Rattle.floats.specs.Array.{at};
ghost use Rattle.floats.specs.Operations.{0f, 1f};
ghost use Rattle.definitions.specs.Number.{is_zero};
ghost use Rattle.definitions.specs.Storage.{with_diagonal};
ghost use Rattle.definitions.specs.Call.{by_side, extent};
ghost use Rattle.definitions.specs.Element.{StripOf};
ghost use Rattle.definitions.specs.declared.Routine.TheVariants.{Trmm};
ghost use Rattle.definitions.proofs.Fits.{Fits};
ghost use Rattle.forms.specs.Forms.{op_matrix, Square};
ghost use Rattle.lines.specs.Lines.{cell, grid, within, GridRoom};
ghost use Rattle.elements.specs.declared.Start.TheVariants.{Zero, OwnFirst};
ghost use Rattle.elements.specs.declared.End.TheVariants.{Sum, OwnLast};
ghost use Rattle.trmm_diagonal.specs.Terms.{matrix_of};
ghost use Rattle.trmm.specs.Sum.{sum_of, line_value};

pub mod block;

use arrays::Area;
use arrays::pieces::Pieces;
use blocks::pass;
use definitions::{Call, Diagonal, Scalar, Side};
use elements::{End, Formula, Start};
use forms::Op;
use lines::Grid;
use packing::factor::Run;
use trmm_diagonal::Multiplier;

// The first element of the next block of n, when k of m elements are done: from the first on if an element's terms lie after it, else from the last back.
fn next_block(after: bool, m: usize, k: usize, n: usize) -> usize
    requires { k + n ≤ m }
    ensures { ((after ≡ true → result ≡ k) × (after ≡ false → result + n + k ≡ m)) × (result + n ≤ m) }
{
    if after { k } else { m - (k + n) }
}

// Each element of each line becomes the sum of its terms: block after block.
fn sum_lines(g: Grid, by: Multiplier, b: &mut [f64], r: usize)
    requires m_nonzero { (0 < g.m) × (0 < g.lines) × (g.lines ≤ 64) × (0 < r) × (r ≤ 64) }
    requires room { GridRoom g (length b.old) }
    requires by_index { Square by.a g.m }
    ensures { b.new ≡ update (grid g.left g.ld g.m g.lines (λ q l _. sum_of g.left by.entry.after by.entry.alpha (matrix_of by.entry) g.m (λ p. at b.old (cell g.left g.ld p l)) q)) b.old }
{
    for (k, n) in Pieces::of(g.m, r) {
        let p0 = next_block(by.after, g.m, k, n);
        block::block(g, by, b, p0, n, r);
    }
}

// What the sum of an element starts with, if w is the coefficient of its own term: this term comes first if the others lie after it.
fn start_of(after: bool, w: f64) -> Start
    ensures { result ≡ (if after then OwnFirst w else Zero) }
{
    if after {
        Start::OwnFirst(w)
    } else {
        Start::Zero
    }
}

// How it ends: with this term if the others lie before it.
fn end_of(after: bool, w: f64) -> End
    ensures { result ≡ (if after then Sum else OwnLast w) }
{
    if after { End::Sum } else { End::OwnLast(w) }
}

// Element i of each line becomes the sum of its terms, straight from the arrays.
fn sum_element(g: Grid, by: Multiplier, b: &mut [f64], i: usize)
    requires i_lt_m { i < g.m }
    requires room { GridRoom g (length b.old) }
    requires by_index { Square by.a g.m }
    ensures { b.new ≡ update (grid g.left g.ld g.m g.lines (λ q l e. if within i 1 q then sum_of g.left by.entry.after by.entry.alpha (matrix_of by.entry) g.m (λ p. at b.old (cell g.left g.ld p l)) q else e)) b.old }
{
    let w = trmm_diagonal::pivot(by.diag, by.a, i);
    let lo = arrays::pick(by.after, i + 1, 0);
    let count = arrays::pick(by.after, g.m - 1 - i, i);
    let f = Formula {
        start: start_of(by.after, w),
        alpha: by.alpha,
        end: end_of(by.after, w),
    };
    let others = Run {
        from: lo,
        down: false,
    };
    elements::element(g, f, b, i, by.a, others, count);
}

// Each element of each line becomes the sum of its terms, one after the other, without buffers: for tiny calls.
fn sum_elements(g: Grid, by: Multiplier, b: &mut [f64])
    requires m_nonzero { (0 < g.m) × (0 < g.lines) }
    requires room { GridRoom g (length b.old) }
    requires by_index { Square by.a g.m }
    ensures { b.new ≡ update (grid g.left g.ld g.m g.lines (λ q l _. sum_of g.left by.entry.after by.entry.alpha (matrix_of by.entry) g.m (λ p. at b.old (cell g.left g.ld p l)) q)) b.old }
{
    for k in 0..g.m {
        let i = next_block(by.after, g.m, k, 1);
        sum_element(g, by, b, i);
    }
}

// +0.0 in each element of each line.
fn clear_lines(g: Grid, b: &mut [f64])
    requires m_nonzero { (0 < g.m) × (0 < g.lines) }
    requires room { GridRoom g (length b.old) }
    ensures { b.new ≡ update (grid g.left g.ld g.m g.lines (λ q l _. 0f)) b.old }
{
    if g.left {
        pass::clear(
            b,
            Area {
                ld: g.ld,
                rows: g.m,
                cols: g.lines,
            },
        );
        return;
    }
    pass::clear(
        b,
        Area {
            ld: g.ld,
            rows: g.lines,
            cols: g.m,
        },
    );
}

// Each element of each line gets its value: +0.0 if alpha is zero, and A is not read then.
fn multiply_lines(
    g: Grid,
    after: bool,
    diag: Diagonal,
    alpha: Scalar,
    a: Op,
    b: &mut [f64],
    r: usize,
)
    requires m_nonzero { (0 < g.m) × (0 < g.lines) × (g.lines ≤ 64) × (0 < r) × (r ≤ 64) }
    requires room { GridRoom g (length b.old) }
    requires j_in_bounds { is_zero alpha ≡ false → Square a g.m }
    ensures { b.new ≡ update (grid g.left g.ld g.m g.lines (λ q l _. line_value g.left after alpha (with_diagonal 1f diag (op_matrix a.entry)) g.m (λ p. at b.old (cell g.left g.ld p l)) q)) b.old }
{
    if alpha.is_zero() {
        clear_lines(g, b);
        return;
    }
    let by = Multiplier {
        a,
        diag,
        after,
        alpha: alpha.factor(),
    };
    if direct::tiny(g.m, g.lines, g.m) {
        sum_elements(g, by, b);
        return;
    }
    sum_lines(g, by, b, r);
}

// TRMM's strip of `lines` columns (side L) or rows (side R) from the one with number `from` on: b is the part of B that starts there, and blocks are of r elements.
pub fn trmm_strip(call: Call, a: &[f64], b: &mut [f64], from: usize, lines: usize, r: usize)
    requires by_index { (lenc : ℕ) × Fits Trmm call (length a.now) (by_side call.side (from * call.ldb) from + length b.old) lenc }
    requires lines_nonzero { (0 < lines) × (lines ≤ 64) × (from + lines ≤ extent call) × (0 < r) × (r ≤ 64) }
    ensures { (b₀ : List Float) → StripOf call a.now b₀ from (from + lines) (by_side call.side (from * call.ldb) from) b.old b.new }
{
    let op = Op {
        t: call.transa,
        cells: a,
        ld: call.lda as usize,
    };
    let low = forms::op_lower(call.transa, call.uplo);
    let ld = call.ldb as usize;
    match call.side {
        Side::Left => {
            let columns = Grid {
                left: true,
                ld,
                m: call.m as usize,
                lines,
            };
            multiply_lines(columns, !low, call.diag, call.alpha, op, b, r);
        }
        Side::Right => {
            let rows = Grid {
                left: false,
                ld,
                m: call.n as usize,
                lines,
            };
            multiply_lines(rows, low, call.diag, call.alpha, op, b, r);
        }
    }
}
