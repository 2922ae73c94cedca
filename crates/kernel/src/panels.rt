// The general multiply by blocks: panels of r terms, in each of them blocks of r rows.
ghost use Rattle.std.specs.Prelude.{◌≡◌, ℕ, ◌+◌, ◌*◌, ◌≤◌, ◌<◌, length};
ghost use Rattle.arrays.specs.Area.{AreaRoom, SomeRoom};
ghost use Rattle.arrays.specs.Update.{update, region};
ghost use Rattle.packing.specs.Factor.{Indices, index_of, matrix_of, along};
ghost use Rattle.kernel.specs.Panels.{half_packed};
ghost use Rattle.direct.specs.Product.{product_of, Reads};

use arrays::Area;
use arrays::pieces::Pieces;
use blocks::{block, pass};
use direct::Product;
use packing::factor::{Factor, Run};
use packing::{factor, pack};

// The n terms of one panel, whose right block is packed in t: the left factor by blocks of r rows that are packed into u.
pub fn sweep(
    c: &mut [f64],
    area: Area,
    n: usize,
    a: Factor,
    i0: usize,
    terms: Run,
    r: usize,
    u: &mut [f64],
    t: &[f64],
)
    requires room { AreaRoom area (length c.old) }
    requires cols_nonzero { (0 < area.cols) × (area.cols * 64 ≤ length t.now) }
    requires terms_nonzero { (0 < n) × (n ≤ 64) × (n * 64 ≤ length u.old) × (0 < r) × (r ≤ 64) × (i0 + area.rows < 18446744073709551616) × Indices terms.down terms.from n }
    requires by_index { (i q : ℕ) → i < area.rows → q < n → index_of a.form a.ld (i0 + i) (along terms.down terms.from q) < length a.cells.now }
    ensures { (c.new ≡ update (region area.ld area.rows area.cols (half_packed n t.now (λ i q. matrix_of a.entry (i0 + i) (along terms.down terms.from q)))) c.old) × (length u.new ≡ length u.old) }
{
    for (i, h) in Pieces::of(area.rows, r) {
        let rows = Run {
            from: i0 + i,
            down: false,
        };
        pack::pack(u, h, n, a, rows, terms);
        block::block(&mut c[i..], Area { rows: h, ..area }, n, u, t);
    }
}

// The product by panels of r terms, with the buffers u and t.
fn panels(
    c: &mut [f64],
    area: Area,
    p: Product,
    i0: usize,
    j0: usize,
    down: bool,
    r: usize,
    u: &mut [f64],
    t: &mut [f64],
)
    requires room { SomeRoom area (length c.old) }
    requires r_nonzero { (0 < r) × (r ≤ 64) × (4096 ≤ length u.old) × (area.cols * 64 ≤ length t.old) }
    requires rows_bound { (i0 + area.rows < 18446744073709551616) × (j0 + area.cols < 18446744073709551616) }
    requires by_index { Reads p i0 area.rows j0 area.cols }
    ensures { c.new ≡ update (region area.ld area.rows area.cols (product_of p.entry i0 j0 down)) c.old }
{
    for (l, n) in Pieces::of(p.terms, r) {
        let terms = Run {
            from: factor::turn_of(down, p.terms, l),
            down,
        };
        let cols = Run {
            from: j0,
            down: false,
        };
        pack::pack(t, n, area.cols, p.right, terms, cols);
        let packed = Area {
            ld: 64,
            rows: n,
            cols: area.cols,
        };
        pass::scale(t, packed, p.alpha);
        sweep(c, area, n, p.left, i0, terms, r, u, t);
    }
}

// The same with buffers of its own, of which that of the right factor has N elements: 64 for each column.
pub fn buffered<const N: usize>(
    c: &mut [f64],
    area: Area,
    p: Product,
    i0: usize,
    j0: usize,
    down: bool,
    r: usize,
)
    requires room { SomeRoom area (length c.old) }
    requires cols_bound { (area.cols * 64 ≤ N) × (N ≤ 16384) × (0 < r) × (r ≤ 64) }
    requires rows_bound { (i0 + area.rows < 18446744073709551616) × (j0 + area.cols < 18446744073709551616) }
    requires by_index { Reads p i0 area.rows j0 area.cols }
    ensures { c.new ≡ update (region area.ld area.rows area.cols (product_of p.entry i0 j0 down)) c.old }
{
    let mut u = [0.0f64; 4096];
    let mut t = [0.0f64; N];
    panels(c, area, p, i0, j0, down, r, &mut u, &mut t);
}
