// The general multiply, column-major, with every element's terms in order: a tiny product straight from the arrays, any other by packed blocks.
#![tactic(auto)]

ghost use Rattle.std.specs.Prelude.{◌≡◌, ◌+◌, ◌*◌, ◌≤◌, ◌<◌, length};
ghost use Rattle.arrays.specs.Area.{SomeRoom};
ghost use Rattle.arrays.specs.Update.{update, region};
ghost use Rattle.direct.specs.Product.{product_of, Reads};

pub mod panels;

use arrays::Area;
use direct::Product;

// The general multiply: alpha times the left factor, its rows from i0 on, times the right factor, its columns from j0 on, added to an area of c. The terms are taken in order,
// from the first up or from the last down. r is the size of the blocks, and the result does not depend on it.
pub fn multiply(c: &mut [f64], area: Area, p: Product, i0: usize, j0: usize, down: bool, r: usize)
    requires room { SomeRoom area (length c.old) }
    requires cols_bound { (area.cols ≤ 256) × (0 < r) × (r ≤ 64) }
    requires rows_bound { (i0 + area.rows < 18446744073709551616) × (j0 + area.cols < 18446744073709551616) }
    requires by_index { Reads p i0 area.rows j0 area.cols }
    ensures { c.new ≡ update (region area.ld area.rows area.cols (product_of p.entry i0 j0 down)) c.old }
{
    if direct::is_tiny(p.left.form, p.right.form, area.rows, area.cols, p.terms) {
        direct::direct(c, area, p, i0, j0, down);
        return;
    }
    // For more than 64 columns a longer buffer, so that each block of rows is packed once for all of them.
    if area.cols <= 64 {
        panels::buffered::<4096>(c, area, p, i0, j0, down, r);
        return;
    }
    panels::buffered::<16384>(c, area, p, i0, j0, down, r);
}
