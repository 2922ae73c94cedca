// The product of two packed blocks in a triangle on the diagonal. It is cut into small triangles, which are walked, and rectangles beside them, which are
// products of packed blocks.
#![tactic(auto)]

ghost use Rattle.std.specs.Prelude.{◌≡◌, ◌+◌, ◌*◌, ◌≤◌, ◌<◌, length};
ghost use Rattle.arrays.specs.Update.{update, entries, only, trapezoid, corner};
ghost use Rattle.blocks.specs.Terms.{packed, AtOnce};
ghost use Rattle.walks.specs.Walk.{passes};

use arrays::Area;
use arrays::pieces::Pieces;
use blocks::{block, leaves};

// One walk over a diagonal block: as many terms as one pass takes are added to each element of the triangle. A column's loop stays inside it, from the diagonal to the block's end
// or from the top to the diagonal, and the walk hands back how many passes it made.
fn walk(
    lower: bool,
    c: &mut [f64],
    ld: usize,
    order: usize,
    terms: usize,
    u: &[f64],
    t: &[f64],
) -> usize
    requires ld_nonzero { (0 < ld) × (order ≤ ld) × (order * ld + order ≤ length c.old + ld) × (order ≤ 64) }
    requires at_once { (AtOnce terms) × (terms * 64 + order ≤ length u.now + 64) × (order * 64 + terms ≤ length t.now + 64) }
    ensures { (result ≡ passes order) × (c.new ≡ update (entries ld (only (corner lower order order) (packed terms u.now t.now))) c.old) }
{
    let mut count = 0;
    for j in 0..order {
        let first = arrays::pick(lower, j, 0);
        let rows = arrays::pick(lower, order - j, j + 1);
        let from = j * ld + first;
        let x = j * 64;
        count += leaves::axpys(&mut c[from..], rows, terms, &u[first..], &t[x..]);
    }
    count
}

// The product of two packed blocks in one small triangle, by as many walks as its terms ask for. A `while`: how many terms a walk takes goes by those that are left.
fn walks(lower: bool, c: &mut [f64], ld: usize, order: usize, terms: usize, u: &[f64], t: &[f64])
    requires { (0 < order) × (order ≤ ld) × (order * ld + order ≤ length c.old + ld) × (order ≤ 64) × (terms ≤ 64) × (terms * 64 + order ≤ length u.now + 64) × (order * 64 + terms ≤ length t.now + 64) }
    ensures { c.new ≡ update (entries ld (only (corner lower order order) (packed terms u.now t.now))) c.old }
{
    let mut q = 0;
    while q < terms {
        let n = leaves::at_once(terms - q);
        let x = q * 64;
        walk(lower, c, ld, order, n, &u[x..], &t[q..]);
        q += n;
    }
}

// The product of two packed blocks in h columns from the j-th on of one triangle: the small triangle on the diagonal, and the rectangle below or above it.
fn columns(
    lower: bool,
    c: &mut [f64],
    ld: usize,
    order: usize,
    j: usize,
    h: usize,
    terms: usize,
    u: &[f64],
    t: &[f64],
)
    requires ld_nonzero { (0 < ld) × (order ≤ ld) × (h * ld + order ≤ length c.old + ld) × (order ≤ 64) × (0 < h) × (j + h ≤ order) × (terms ≤ 64) }
    requires order_in_bounds { (order ≤ length u.now) × (terms * 64 + order ≤ length u.now + 64) × (h * 64 + terms ≤ length t.now + 64) }
    ensures { c.new ≡ update (entries ld (only (trapezoid lower j order h) (packed terms u.now t.now))) c.old }
{
    let end = j + h;
    let top = arrays::pick(lower, end, 0);
    let rows = arrays::pick(lower, order - end, j);
    walks(lower, &mut c[j..], ld, h, terms, &u[j..], t);
    let beside = Area { ld, rows, cols: h };
    block::block(&mut c[top..], beside, terms, &u[top..], t);
}

// The product of two packed blocks in one triangle.
pub fn cut(lower: bool, c: &mut [f64], ld: usize, order: usize, terms: usize, u: &[f64], t: &[f64])
    requires { (0 < ld) × (order ≤ ld) × (order * ld + order ≤ length c.old + ld) × (order ≤ 64) × (terms ≤ 64) × (4096 ≤ length u.now) × (order * 64 ≤ length t.now) }
    ensures { c.new ≡ update (entries ld (only (corner lower order order) (packed terms u.now t.now))) c.old }
{
    for (j, h) in Pieces::of(order, block::SMALL) {
        let from = j * ld;
        let x = j * 64;
        columns(lower, &mut c[from..], ld, order, j, h, terms, u, &t[x..]);
    }
}
