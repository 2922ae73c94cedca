// B by lines, what TRMM and TRSM share: a line is a column of B for side L and a row for side R.
#![tactic(auto)]

ghost use Rattle.std.specs.Prelude.{◌≡◌, false, ℕ, ◌+◌, ◌-◌, ◌*◌, ◌≤◌, ◌<◌, length, if◌then◌else◌};
ghost use Rattle.arrays.specs.Update.{update};
ghost use Rattle.arrays.specs.Fold.{fold};
ghost use Rattle.floats.specs.Array.{at};
ghost use Rattle.packing.specs.Factor.{index_of, turn};
ghost use Rattle.forms.specs.Forms.{op_form, op_matrix};
ghost use Rattle.lines.specs.Lines.{cell, grid, within, line_form, line_term, GridRoom};

pub mod triangle;

use arrays::Area;
use direct::Product;
use forms::Op;
use packing::factor::{Factor, Run};
use packing::{Form, factor, pack};

// B by lines: for side L a line is a column, for side R a row. There are `lines` lines of m elements each, and ld is the leading dimension.
#[derive(Clone, Copy)]
pub struct Grid {
    pub left: bool,
    pub ld: usize,
    pub m: usize,
    pub lines: usize,
}

// The indices from the first one up.
const FIRST: Run = Run {
    from: 0,
    down: false,
};

// How an array that holds its lines as one side does is read as the lines of the other side, or of the same.
fn line_form(left: bool, side: bool) -> Form
    ensures { result ≡ line_form left side }
{
    if left == side {
        Form::Plain
    } else {
        Form::Transposed
    }
}

// The elements from x0 on, n of them, of each line, copied to x, which holds its lines as `side` says.
pub fn take(g: Grid, side: bool, x: &mut [f64], b: &[f64], x0: usize, n: usize)
    requires n_nonzero { (0 < n) × (n ≤ 64) × (0 < g.lines) × (g.lines ≤ 64) × (x0 + n ≤ g.m) × (4096 ≤ length x.old) }
    requires room { GridRoom g (length b.now) }
    ensures { x.new ≡ update (grid side 64 n g.lines (λ q l _. at b.now (cell g.left g.ld (x0 + q) l))) x.old }
{
    let f = line_form(g.left, side);
    let lines = Factor {
        form: f,
        cells: b,
        ld: g.ld,
    };
    let elements = Run {
        from: x0,
        down: false,
    };
    if side {
        pack::pack(x, n, g.lines, lines, elements, FIRST);
        return;
    }
    pack::pack(x, g.lines, n, lines, FIRST, elements);
}

// The elements from x0 on, n of them, of each line become those of x, which holds its lines as `side` says.
pub fn put(g: Grid, side: bool, b: &mut [f64], x0: usize, n: usize, x: &[f64])
    requires n_nonzero { (0 < n) × (n ≤ 64) × (0 < g.lines) × (g.lines ≤ 64) × (x0 + n ≤ g.m) × (4096 ≤ length x.now) }
    requires room { GridRoom g (length b.old) }
    ensures { b.new ≡ update (grid g.left g.ld g.m g.lines (λ q l e. if within x0 n q then at x.now (cell side 64 (q - x0) l) else e)) b.old }
{
    let f = line_form(side, g.left);
    let lines = Factor {
        form: f,
        cells: x,
        ld: 64,
    };
    if g.left {
        pack::lines(&mut b[x0..], g.ld, n, g.lines, lines, FIRST, FIRST);
        return;
    }
    let to = x0 * g.ld;
    pack::lines(&mut b[to..], g.ld, g.lines, n, lines, FIRST, FIRST);
}

// The terms of the elements from x0 on, n of them, whose values are in x, in the sums of the elements from y on, h of them.
pub fn add_terms(
    g: Grid,
    down: bool,
    b: &mut [f64],
    alpha: f64,
    a: Op,
    x0: usize,
    n: usize,
    y: usize,
    h: usize,
    x: &[f64],
    r: usize,
)
    requires n_nonzero { (0 < n) × (n ≤ 64) × (0 < h) × (g.left ≡ false → h ≤ 256) × (0 < g.lines) × (g.lines ≤ 64) × (y + h ≤ g.m) × (0 < r) × (r ≤ 64) × (4096 ≤ length x.now) }
    requires room { GridRoom g (length b.old) }
    requires by_index { (q p : ℕ) → q < h → p < n → (if g.left then index_of (op_form a.t) a.ld (y + q) (x0 + p) else index_of (op_form a.t) a.ld (x0 + p) (y + q)) < length a.cells.now }
    ensures { b.new ≡ update (grid g.left g.ld g.m g.lines (λ q l e. if within y h q then fold (λ e i. line_term g.left alpha (op_matrix a.entry) q e (x0 + turn down n i) (at x.now (cell g.left 64 (turn down n i) l))) n e else e)) b.old }
{
    let f = forms::op_form(a.t);
    let values = Factor {
        form: Form::Plain,
        cells: x,
        ld: 64,
    };
    if g.left {
        let from = factor::place(f, a.ld, y, x0);
        let entries = Factor {
            form: f,
            cells: &a.cells[from..],
            ld: a.ld,
        };
        let p = Product {
            left: entries,
            right: values,
            terms: n,
            alpha,
        };
        let sums = Area {
            ld: g.ld,
            rows: h,
            cols: g.lines,
        };
        kernel::multiply(&mut b[y..], sums, p, 0, 0, down, r);
        return;
    }
    let from = factor::place(f, a.ld, x0, y);
    let to = y * g.ld;
    let entries = Factor {
        form: f,
        cells: &a.cells[from..],
        ld: a.ld,
    };
    let p = Product {
        left: values,
        right: entries,
        terms: n,
        alpha,
    };
    let sums = Area {
        ld: g.ld,
        rows: g.lines,
        cols: h,
    };
    kernel::multiply(&mut b[to..], sums, p, 0, 0, down, r);
}
