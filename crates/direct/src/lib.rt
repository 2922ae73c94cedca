// Tiny products, straight from the arrays that hold the factors: no buffers, four rows at a time in scalars.
// A factor is read by two strides: entry (i, j) is element i * r + j * c.
#![tactic(auto)]

ghost use Rattle.std.specs.Prelude.{◌≡◌, true, false, ℕ, ◌+◌, ◌*◌, ◌≤◌, ◌<◌, length};
ghost use Rattle.arrays.specs.Area.{SomeRoom};
ghost use Rattle.arrays.specs.Update.{update, below, entries, only, region, corner};
ghost use Rattle.floats.specs.Array.{at};
ghost use Rattle.packing.specs.Factor.{is_mirrored};
ghost use Rattle.direct.specs.Product.{strided, row_stride, column_stride, product, product_of, Reads};

use arrays::Area;
use packing::factor::Factor;
use packing::{Form, factor, mirror};

// A product of two factors, `terms` terms for each element, times alpha.
#[derive(Clone, Copy)]
pub struct Product<'a> {
    pub left: Factor<'a>,
    pub right: Factor<'a>,
    pub terms: usize,
    pub alpha: f64,
}

// A factor that is read by two strides: entry (i, j) is element i * row + j * column.
#[derive(Clone, Copy)]
struct Strided<'a> {
    cells: &'a [f64],
    row: usize,
    column: usize,
}

// Four elements of a column.
fn quad(c: &mut [f64], k: usize, a: Strided, b: &[f64], rb: usize, alpha: f64, down: bool)
    requires { (4 ≤ length c.old) × ((i l : ℕ) → i < 4 → l < k → i * a.row + l * a.column < length a.cells.now) × ((l : ℕ) → l < k → l * rb < length b.now) }
    ensures { c.new ≡ update (below 4 (λ i e. product alpha (strided a.entry.cells.now a.entry.row a.entry.column) (λ l _. at b.now (l * rb)) down k i 0 e)) c.old }
{
    let mut e = c[0];
    let mut f = c[1];
    let mut g = c[2];
    let mut h = c[3];
    for q in 0..k {
        let l = factor::turn_of(down, k, q);
        let t = alpha * b[l * rb];
        let p = l * a.column;
        e = e + t * a.cells[p];
        f = f + t * a.cells[p + a.row];
        g = g + t * a.cells[p + 2 * a.row];
        h = h + t * a.cells[p + 3 * a.row];
    }
    c[0] = e;
    c[1] = f;
    c[2] = g;
    c[3] = h;
}

// One element.
fn single(
    c: &mut [f64],
    k: usize,
    a: &[f64],
    ca: usize,
    b: &[f64],
    rb: usize,
    alpha: f64,
    down: bool,
)
    requires { (1 ≤ length c.old) × ((l : ℕ) → l < k → l * ca < length a.now) × ((l : ℕ) → l < k → l * rb < length b.now) }
    ensures { c.new ≡ update (below 1 (λ i e. product alpha (λ _ l. at a.now (l * ca)) (λ l _. at b.now (l * rb)) down k i 0 e)) c.old }
{
    let mut e = c[0];
    for q in 0..k {
        let l = factor::turn_of(down, k, q);
        let t = alpha * b[l * rb];
        e = e + t * a[l * ca];
    }
    c[0] = e;
}

// The elements of a column one by one.
fn singles(
    c: &mut [f64],
    rows: usize,
    k: usize,
    a: Strided,
    b: &[f64],
    rb: usize,
    alpha: f64,
    down: bool,
)
    requires { (rows ≤ length c.old) × (0 < k) × ((i l : ℕ) → i < rows → l < k → i * a.row + l * a.column < length a.cells.now) × ((l : ℕ) → l < k → l * rb < length b.now) }
    ensures { c.new ≡ update (below rows (λ i e. product alpha (strided a.entry.cells.now a.entry.row a.entry.column) (λ l _. at b.now (l * rb)) down k i 0 e)) c.old }
{
    for i in 0..rows {
        let x = i * a.row;
        single(&mut c[i..], k, &a.cells[x..], a.column, b, rb, alpha, down);
    }
}

// One column. A `while`, as in blocks::block: a `for` over a quarter of the rows is slower in small products.
fn column(
    c: &mut [f64],
    rows: usize,
    k: usize,
    a: Strided,
    b: &[f64],
    rb: usize,
    alpha: f64,
    down: bool,
)
    requires { (rows ≤ length c.old) × (0 < k) × ((i l : ℕ) → i < rows → l < k → i * a.row + l * a.column < length a.cells.now) × ((l : ℕ) → l < k → l * rb < length b.now) }
    ensures { c.new ≡ update (below rows (λ i e. product alpha (strided a.entry.cells.now a.entry.row a.entry.column) (λ l _. at b.now (l * rb)) down k i 0 e)) c.old }
{
    let mut i = 0;
    while i + 4 <= rows {
        let x = i * a.row;
        quad(
            &mut c[i..],
            k,
            Strided {
                cells: &a.cells[x..],
                ..a
            },
            b,
            rb,
            alpha,
            down,
        );
        i += 4;
    }
    if i == rows {
        return;
    }
    let y = i * a.row;
    singles(
        &mut c[i..],
        rows - i,
        k,
        Strided {
            cells: &a.cells[y..],
            ..a
        },
        b,
        rb,
        alpha,
        down,
    );
}

// The columns one after the other.
fn columns(c: &mut [f64], area: Area, k: usize, a: Strided, b: Strided, alpha: f64, down: bool)
    requires rows_nonzero { (0 < area.rows) × (area.rows ≤ area.ld) × (area.cols * area.ld + area.rows ≤ length c.old + area.ld) × (0 < k) }
    requires by_index { ((i l : ℕ) → i < area.rows → l < k → i * a.row + l * a.column < length a.cells.now) × ((l j : ℕ) → l < k → j < area.cols → l * b.row + j * b.column < length b.cells.now) }
    ensures { c.new ≡ update (region area.ld area.rows area.cols (product alpha (strided a.entry.cells.now a.entry.row a.entry.column) (strided b.entry.cells.now b.entry.row b.entry.column) down k)) c.old }
{
    for j in 0..area.cols {
        let from = j * area.ld;
        let x = j * b.column;
        column(
            &mut c[from..],
            area.rows,
            k,
            a,
            &b.cells[x..],
            b.row,
            alpha,
            down,
        );
    }
}

// The columns of one triangle, each from the diagonal to the block's end or from the top to the diagonal.
fn corner_columns(
    lower: bool,
    c: &mut [f64],
    ld: usize,
    order: usize,
    k: usize,
    a: Strided,
    b: Strided,
    alpha: f64,
)
    requires order_nonzero { (0 < order) × (order ≤ ld) × (order * ld + order ≤ length c.old + ld) × (0 < k) }
    requires by_index { ((i l : ℕ) → i < order → l < k → i * a.row + l * a.column < length a.cells.now) × ((l j : ℕ) → l < k → j < order → l * b.row + j * b.column < length b.cells.now) }
    ensures { c.new ≡ update (entries ld (only (corner lower order order) (product alpha (strided a.entry.cells.now a.entry.row a.entry.column) (strided b.entry.cells.now b.entry.row b.entry.column) false k))) c.old }
{
    for j in 0..order {
        let first = arrays::pick(lower, j, 0);
        let rows = arrays::pick(lower, order - j, j + 1);
        let from = j * ld + first;
        let x = first * a.row;
        let y = j * b.column;
        columns(
            &mut c[from..],
            Area { ld, rows, cols: 1 },
            k,
            Strided {
                cells: &a.cells[x..],
                ..a
            },
            Strided {
                cells: &b.cells[y..],
                ..b
            },
            alpha,
            false,
        );
    }
}

// ---- by the forms of the factors

fn row_stride(form: Form, ld: usize) -> usize
    ensures { result ≡ row_stride form ld }
{
    match form {
        Form::Plain => 1,
        Form::Transposed => ld,
        Form::Lower => 0,
        Form::Upper => 0,
    }
}

fn column_stride(form: Form, ld: usize) -> usize
    ensures { result ≡ column_stride form ld }
{
    match form {
        Form::Plain => ld,
        Form::Transposed => 1,
        Form::Lower => 0,
        Form::Upper => 0,
    }
}

// Neither factor is mirrored.
fn strides(c: &mut [f64], area: Area, p: Product, i0: usize, j0: usize, down: bool)
    requires room { SomeRoom area (length c.old) }
    requires terms_nonzero { (0 < p.terms) }
    requires rows_bound { (i0 + area.rows < 18446744073709551616) × (j0 + area.cols < 18446744073709551616) × (is_mirrored p.left.form ≡ false) × (is_mirrored p.right.form ≡ false) }
    requires by_index { Reads p i0 area.rows j0 area.cols }
    ensures { c.new ≡ update (region area.ld area.rows area.cols (product_of p.entry i0 j0 down)) c.old }
{
    let ra = row_stride(p.left.form, p.left.ld);
    let ca = column_stride(p.left.form, p.left.ld);
    let rb = row_stride(p.right.form, p.right.ld);
    let cb = column_stride(p.right.form, p.right.ld);
    let x = i0 * ra;
    let y = j0 * cb;
    columns(
        c,
        area,
        p.terms,
        Strided {
            cells: &p.left.cells[x..],
            row: ra,
            column: ca,
        },
        Strided {
            cells: &p.right.cells[y..],
            row: rb,
            column: cb,
        },
        p.alpha,
        down,
    );
}

// The left factor is mirrored: it is written out first, to a buffer of N elements with columns s apart.
fn left_mirrored<const N: usize>(
    c: &mut [f64],
    area: Area,
    p: Product,
    i0: usize,
    j0: usize,
    down: bool,
    s: usize,
)
    requires room { SomeRoom area (length c.old) }
    requires terms_nonzero { (area.rows ≤ s) × (0 < p.terms) × (p.terms * s ≤ N) × (N ≤ 256) }
    requires rows_bound { (i0 + area.rows < 18446744073709551616) × (j0 + area.cols < 18446744073709551616) × (is_mirrored p.left.form ≡ true) × (is_mirrored p.right.form ≡ false) }
    requires by_index { Reads p i0 area.rows j0 area.cols }
    ensures { c.new ≡ update (region area.ld area.rows area.cols (product_of p.entry i0 j0 down)) c.old }
{
    let mut u = [0.0f64; N];
    let lower = mirror::is_lower(p.left.form);
    mirror::block(
        &mut u,
        s,
        area.rows,
        p.terms,
        lower,
        p.left.cells,
        p.left.ld,
        i0,
        0,
    );
    let left = Factor {
        form: Form::Plain,
        cells: &u,
        ld: s,
    };
    strides(c, area, Product { left, ..p }, 0, j0, down);
}

// The right factor is. (A function of its own, since the factors change places in the product.)
fn right_mirrored<const N: usize>(
    c: &mut [f64],
    area: Area,
    p: Product,
    i0: usize,
    j0: usize,
    down: bool,
    s: usize,
)
    requires room { SomeRoom area (length c.old) }
    requires terms_nonzero { (p.terms ≤ s) × (0 < p.terms) × (area.cols * s ≤ N) × (N ≤ 256) }
    requires rows_bound { (i0 + area.rows < 18446744073709551616) × (j0 + area.cols < 18446744073709551616) × (is_mirrored p.left.form ≡ false) × (is_mirrored p.right.form ≡ true) }
    requires by_index { Reads p i0 area.rows j0 area.cols }
    ensures { c.new ≡ update (region area.ld area.rows area.cols (product_of p.entry i0 j0 down)) c.old }
{
    let mut t = [0.0f64; N];
    let lower = mirror::is_lower(p.right.form);
    mirror::block(
        &mut t,
        s,
        p.terms,
        area.cols,
        lower,
        p.right.cells,
        p.right.ld,
        0,
        j0,
    );
    let right = Factor {
        form: Form::Plain,
        cells: &t,
        ld: s,
    };
    strides(c, area, Product { right, ..p }, i0, 0, down);
}

// At most `limit` each way.
fn within(rows: usize, cols: usize, k: usize, limit: usize) -> bool
    ensures { result ≡ true → (rows ≤ limit) × (cols ≤ limit) × (k ≤ limit) }
{
    if limit < rows {
        return false;
    }
    if limit < cols {
        return false;
    }
    if limit < k {
        return false;
    }
    true
}

// Tiny enough to be made without buffers: at most 16 each way.
pub fn tiny(rows: usize, cols: usize, k: usize) -> bool
    ensures { result ≡ true → (rows ≤ 16) × (cols ≤ 16) × (k ≤ 16) }
{
    within(rows, cols, k, 16)
}

// The product is tiny, and at most one factor is mirrored.
pub fn is_tiny(fa: Form, fb: Form, rows: usize, cols: usize, k: usize) -> bool
    ensures { result ≡ true → (is_mirrored fa ≡ true → (rows ≤ 16) × (k ≤ 16) × (is_mirrored fb ≡ false)) × (is_mirrored fb ≡ true → (cols ≤ 16) × (k ≤ 16)) }
{
    if mirror::is_mirrored(fa) & mirror::is_mirrored(fb) {
        return false;
    }
    tiny(rows, cols, k)
}

// The same of a product in one triangle, and no factor is mirrored.
pub fn is_tiny_triangle(fa: Form, fb: Form, order: usize, k: usize) -> bool
    ensures { result ≡ true → (is_mirrored fa ≡ false) × (is_mirrored fb ≡ false) }
{
    if mirror::is_mirrored(fa) {
        return false;
    }
    if mirror::is_mirrored(fb) {
        return false;
    }
    tiny(order, order, k)
}

// A tiny product.
pub fn direct(c: &mut [f64], area: Area, p: Product, i0: usize, j0: usize, down: bool)
    requires room { SomeRoom area (length c.old) }
    requires rows_bound { (i0 + area.rows < 18446744073709551616) × (j0 + area.cols < 18446744073709551616) × (is_mirrored p.left.form ≡ true → (area.rows ≤ 16) × (p.terms ≤ 16) × (is_mirrored p.right.form ≡ false)) × (is_mirrored p.right.form ≡ true → (area.cols ≤ 16) × (p.terms ≤ 16)) }
    requires by_index { Reads p i0 area.rows j0 area.cols }
    ensures { c.new ≡ update (region area.ld area.rows area.cols (product_of p.entry i0 j0 down)) c.old }
{
    if p.terms == 0 {
        return;
    }
    // A buffer is as small as can be.
    if mirror::is_mirrored(p.left.form) {
        if within(area.rows, area.rows, p.terms, 8) {
            left_mirrored::<64>(c, area, p, i0, j0, down, 8);
            return;
        }
        left_mirrored::<256>(c, area, p, i0, j0, down, 16);
        return;
    }
    if mirror::is_mirrored(p.right.form) {
        if within(area.cols, area.cols, p.terms, 8) {
            right_mirrored::<64>(c, area, p, i0, j0, down, 8);
            return;
        }
        right_mirrored::<256>(c, area, p, i0, j0, down, 16);
        return;
    }
    strides(c, area, p, i0, j0, down);
}

// A tiny product in one triangle, of factors that are not mirrored.
pub fn triangle(
    lower: bool,
    c: &mut [f64],
    ld: usize,
    order: usize,
    p: Product,
    i0: usize,
    j0: usize,
)
    requires order_nonzero { (0 < order) × (order ≤ ld) × (order * ld + order ≤ length c.old + ld) }
    requires order_bound { (i0 + order < 18446744073709551616) × (j0 + order < 18446744073709551616) × (is_mirrored p.left.form ≡ false) × (is_mirrored p.right.form ≡ false) }
    requires by_index { Reads p i0 order j0 order }
    ensures { c.new ≡ update (entries ld (only (corner lower order order) (product_of p.entry i0 j0 false))) c.old }
{
    if p.terms == 0 {
        return;
    }
    let ra = row_stride(p.left.form, p.left.ld);
    let ca = column_stride(p.left.form, p.left.ld);
    let rb = row_stride(p.right.form, p.right.ld);
    let cb = column_stride(p.right.form, p.right.ld);
    let x = i0 * ra;
    let y = j0 * cb;
    corner_columns(
        lower,
        c,
        ld,
        order,
        p.terms,
        Strided {
            cells: &p.left.cells[x..],
            row: ra,
            column: ca,
        },
        Strided {
            cells: &p.right.cells[y..],
            row: rb,
            column: cb,
        },
        p.alpha,
    );
}
