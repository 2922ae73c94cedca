// The general multiply in some columns of a triangle. Blocks beside the diagonal are products of packed blocks, as in the kernel; a block on it is cut again
// and walked.
#![tactic(auto)]

ghost use Rattle.std.specs.Prelude.{◌≡◌, false, ℕ, ◌+◌, ◌*◌, ◌≤◌, ◌<◌, length};
ghost use Rattle.arrays.specs.Update.{update, entries, only, corner, trapezoid};
ghost use Rattle.blocks.specs.Terms.{packed};
ghost use Rattle.packing.specs.Factor.{Indices, is_mirrored, index_of, matrix_of, along};
ghost use Rattle.kernel.specs.Panels.{half_packed};
ghost use Rattle.triangles.specs.Slab.{slab};
ghost use Rattle.triangles.specs.Part.{part_of, product_of, PartRoom, Reads};

use arrays::Area;
use arrays::pieces::Pieces;
use blocks::{block, pass};
use direct::Product;
use kernel::panels;
use packing::factor::{Factor, Run};
use packing::pack;

// Some columns of one triangle of order n: `cols` of them, from the one with number `from` on, in an array that starts with the first of them.
#[derive(Clone, Copy)]
pub struct Part {
    pub lower: bool,
    pub ld: usize,
    pub n: usize,
    pub from: usize,
    pub cols: usize,
}

// The product of packed blocks in h rows of a square of which one triangle is written, from row x on: the block on the diagonal, and the columns before or after it.
fn row(
    lower: bool,
    c: &mut [f64],
    ld: usize,
    order: usize,
    x: usize,
    h: usize,
    terms: usize,
    u: &[f64],
    t: &[f64],
)
    requires { (0 < ld) × (h ≤ ld) × (order * ld + h ≤ length c.old + ld) × (h ≤ 64) × (0 < h) × (x + h ≤ order) × (terms ≤ 64) × (4096 ≤ length u.now) × (order * 64 ≤ length t.now) }
    ensures { c.new ≡ update (entries ld (only (slab lower x h order) (packed terms u.now t.now))) c.old }
{
    let end = x + h;
    let first = arrays::pick(lower, 0, end);
    let cols = arrays::pick(lower, x, order - end);
    let d = x * ld;
    let y = x * 64;
    walks::cut(lower, &mut c[d..], ld, h, terms, u, &t[y..]);
    if cols == 0 {
        return;
    }
    let e = first * ld;
    let z = first * 64;
    let beside = Area { ld, rows: h, cols };
    block::block(&mut c[e..], beside, terms, u, &t[z..]);
}

// The n terms of one panel from the one with number `term` on, whose right block is packed in t, in one triangle of a square: the left factor by blocks of r rows from i0 on that are packed into u.
fn square(
    lower: bool,
    c: &mut [f64],
    ld: usize,
    order: usize,
    n: usize,
    a: Factor,
    i0: usize,
    term: usize,
    r: usize,
    u: &mut [f64],
    t: &[f64],
)
    requires order_nonzero { (0 < order) × (order ≤ ld) × (order * ld + order ≤ length c.old + ld) × (0 < r) × (r ≤ 64) × (4096 ≤ length u.old) × (order * 64 ≤ length t.now) }
    requires terms_nonzero { (0 < n) × (n ≤ 64) × (i0 + order < 18446744073709551616) × Indices false term n }
    requires by_index { (i q : ℕ) → i < order → q < n → index_of a.form a.ld (i0 + i) (along false term q) < length a.cells.now }
    ensures { (c.new ≡ update (entries ld (only (corner lower order order) (half_packed n t.now (λ i q. matrix_of a.entry (i0 + i) (along false term q))))) c.old) × (length u.new ≡ length u.old) }
{
    for (x, h) in Pieces::of(order, r) {
        let rows = Run {
            from: i0 + x,
            down: false,
        };
        let terms = Run {
            from: term,
            down: false,
        };
        pack::pack(u, h, n, a, rows, terms);
        row(lower, &mut c[x..], ld, order, x, h, n, u, t);
    }
}

// The same in some columns of a triangle: in the square on the diagonal, and in the rectangle below or above it.
fn panel(
    c: &mut [f64],
    part: Part,
    n: usize,
    a: Factor,
    term: usize,
    r: usize,
    u: &mut [f64],
    t: &[f64],
)
    requires room { PartRoom part (length c.old) }
    requires r_nonzero { (0 < r) × (r ≤ 64) × (4096 ≤ length u.old) × (part.cols * 64 ≤ length t.now) }
    requires terms_nonzero { (0 < n) × (n ≤ 64) × Indices false term n }
    requires by_index { (i q : ℕ) → i < part.n → q < n → index_of a.form a.ld i (along false term q) < length a.cells.now }
    ensures { (c.new ≡ update (part_of part (half_packed n t.now (λ i q. matrix_of a.entry i (along false term q)))) c.old) × (length u.new ≡ length u.old) }
{
    let end = part.from + part.cols;
    let top = arrays::pick(part.lower, end, 0);
    let rows = arrays::pick(part.lower, part.n - end, part.from);
    square(
        part.lower,
        &mut c[part.from..],
        part.ld,
        part.cols,
        n,
        a,
        part.from,
        term,
        r,
        u,
        t,
    );
    let beside = Area {
        ld: part.ld,
        rows,
        cols: part.cols,
    };
    let terms = Run {
        from: term,
        down: false,
    };
    panels::sweep(&mut c[top..], beside, n, a, top, terms, r, u, t);
}

// The product by panels of r terms, with the buffers u and t.
fn by_panels(c: &mut [f64], part: Part, p: Product, r: usize, u: &mut [f64], t: &mut [f64])
    requires room { PartRoom part (length c.old) }
    requires r_nonzero { (0 < r) × (r ≤ 64) × (4096 ≤ length u.old) × (part.cols * 64 ≤ length t.old) }
    requires by_index { Reads p part.n }
    ensures { c.new ≡ update (part_of part (product_of part.from p.entry)) c.old }
{
    for (l, n) in Pieces::of(p.terms, r) {
        let terms = Run {
            from: l,
            down: false,
        };
        let cols = Run {
            from: part.from,
            down: false,
        };
        pack::pack(t, n, part.cols, p.right, terms, cols);
        let packed = Area {
            ld: 64,
            rows: n,
            cols: part.cols,
        };
        pass::scale(t, packed, p.alpha);
        panel(c, part, n, p.left, l, r, u, t);
    }
}

// The same with buffers of its own, of which that of the right factor has N elements: 64 for each column.
fn buffered<const N: usize>(c: &mut [f64], part: Part, p: Product, r: usize)
    requires room { PartRoom part (length c.old) }
    requires r_nonzero { (0 < r) × (r ≤ 64) × (part.cols * 64 ≤ N) × (N ≤ 16384) }
    requires by_index { Reads p part.n }
    ensures { c.new ≡ update (part_of part (product_of part.from p.entry)) c.old }
{
    let mut u = [0.0f64; 4096];
    let mut t = [0.0f64; N];
    by_panels(c, part, p, r, &mut u, &mut t);
}

// The same where the square on the diagonal is tiny: it goes straight from the arrays, and what lies beside it is a product of the kernel.
fn tiny(c: &mut [f64], part: Part, p: Product, r: usize)
    requires room { PartRoom part (length c.old) }
    requires r_nonzero { (0 < r) × (r ≤ 64) × (part.cols ≤ 256) × (is_mirrored p.left.form ≡ false) × (is_mirrored p.right.form ≡ false) }
    requires by_index { Reads p part.n }
    ensures { c.new ≡ update (part_of part (product_of part.from p.entry)) c.old }
{
    let end = part.from + part.cols;
    let top = arrays::pick(part.lower, end, 0);
    let rows = arrays::pick(part.lower, part.n - end, part.from);
    direct::triangle(
        part.lower,
        &mut c[part.from..],
        part.ld,
        part.cols,
        p,
        part.from,
        part.from,
    );
    if rows == 0 {
        return;
    }
    let beside = Area {
        ld: part.ld,
        rows,
        cols: part.cols,
    };
    kernel::multiply(&mut c[top..], beside, p, top, part.from, false, r);
}

// The general multiply in some columns of one triangle, diagonal included: alpha times the left factor times the right one is added, in all terms. The other entries are kept.
pub fn trapezoid(c: &mut [f64], part: Part, p: Product, r: usize)
    requires room { PartRoom part (length c.old) }
    requires r_nonzero { (0 < r) × (r ≤ 64) × (part.cols ≤ 256) }
    requires by_index { Reads p part.n }
    ensures { c.new ≡ update (part_of part (product_of part.from p.entry)) c.old }
{
    if direct::is_tiny_triangle(p.left.form, p.right.form, part.cols, p.terms) {
        tiny(c, part, p, r);
        return;
    }
    // For more than 64 columns a longer buffer, so that each block of rows is packed once for all of them.
    if part.cols <= 64 {
        buffered::<4096>(c, part, p, r);
        return;
    }
    buffered::<16384>(c, part, p, r);
}
