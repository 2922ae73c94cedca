// The product of two packed blocks, of at most 64 rows and 64 terms. In u term q, row i stands at q * 64 + i, in t column j, term q at j * 64 + q.
ghost use Rattle.std.specs.Prelude.{◌≡◌, ◌+◌, ◌*◌, ◌≤◌, ◌<◌, length};
ghost use Rattle.arrays.specs.Area.{AreaRoom};
ghost use Rattle.arrays.specs.Update.{update, below, region};
ghost use Rattle.blocks.specs.Terms.{packed};

use super::leaves;

// A diagonal block is cut into small triangles of this order.
pub const SMALL: usize = 16;

// The loops that take several terms or columns in a turn are `while` loops: as `for p in 0..terms / 4` or the like they make small products up to a tenth slower.
use arrays::Area;

// One column, term by term.
fn column_rest(c: &mut [f64], rows: usize, terms: usize, u: &[f64], t: &[f64])
    requires { (rows ≤ length c.old) × (rows ≤ 64) × (terms * 64 + rows ≤ length u.now + 64) × (terms ≤ length t.now) }
    ensures { c.new ≡ update (below rows (λ i e. packed terms u.now t.now i 0 e)) c.old }
{
    for q in 0..terms {
        let x = q * 64;
        leaves::axpy(c, rows, &u[x..], &t[q..]);
    }
}

// One column, four terms at a time.
fn column_fours(c: &mut [f64], rows: usize, terms: usize, u: &[f64], t: &[f64])
    requires { (rows ≤ length c.old) × (rows ≤ 64) × (terms * 64 + rows ≤ length u.now + 64) × (terms ≤ length t.now) }
    ensures { c.new ≡ update (below rows (λ i e. packed terms u.now t.now i 0 e)) c.old }
{
    let mut q = 0;
    while q + 4 <= terms {
        leaves::axpy4(c, rows, &u[q * 64..], &t[q..]);
        q += 4;
    }
    if q == terms {
        return;
    }
    column_rest(c, rows, terms - q, &u[q * 64..], &t[q..]);
}

// One column of a product of packed blocks.
pub fn column(c: &mut [f64], rows: usize, terms: usize, u: &[f64], t: &[f64])
    requires { (rows ≤ length c.old) × (rows ≤ 64) × (terms * 64 + rows ≤ length u.now + 64) × (terms ≤ length t.now) }
    ensures { c.new ≡ update (below rows (λ i e. packed terms u.now t.now i 0 e)) c.old }
{
    let mut q = 0;
    while q + 8 <= terms {
        leaves::axpy8(c, rows, &u[q * 64..], &t[q..]);
        q += 8;
    }
    if q == terms {
        return;
    }
    column_fours(c, rows, terms - q, &u[q * 64..], &t[q..]);
}

// Two columns, term by term.
fn two_rest(c: &mut [f64], ld: usize, rows: usize, terms: usize, u: &[f64], t: &[f64])
    requires ld_nonzero { (0 < ld) × (rows ≤ ld) × (ld + rows ≤ length c.old) × (rows ≤ 64) }
    requires rows_in_bounds { (terms * 64 + rows ≤ length u.now + 64) × (64 + terms ≤ length t.now) }
    ensures { c.new ≡ update (region ld rows 2 (packed terms u.now t.now)) c.old }
{
    for q in 0..terms {
        let x = q * 64;
        leaves::pair(c, ld, rows, &u[x..], &t[q..]);
    }
}

// Two columns of a product of packed blocks.
fn two(c: &mut [f64], ld: usize, rows: usize, terms: usize, u: &[f64], t: &[f64])
    requires ld_nonzero { (0 < ld) × (rows ≤ ld) × (ld + rows ≤ length c.old) × (rows ≤ 64) }
    requires rows_in_bounds { (terms * 64 + rows ≤ length u.now + 64) × (64 + terms ≤ length t.now) }
    ensures { c.new ≡ update (region ld rows 2 (packed terms u.now t.now)) c.old }
{
    let mut q = 0;
    while q + 4 <= terms {
        leaves::pair4(c, ld, rows, &u[q * 64..], &t[q..]);
        q += 4;
    }
    if q == terms {
        return;
    }
    two_rest(c, ld, rows, terms - q, &u[q * 64..], &t[q..]);
}

// The product of two packed blocks, added to an area of c.
pub fn block(c: &mut [f64], area: Area, terms: usize, u: &[f64], t: &[f64])
    requires room { AreaRoom area (length c.old) }
    requires rows_bound { (area.rows ≤ 64) × (terms ≤ 64) × (terms * 64 + area.rows ≤ length u.now + 64) × (area.cols * 64 + terms ≤ length t.now + 64) }
    ensures { c.new ≡ update (region area.ld area.rows area.cols (packed terms u.now t.now)) c.old }
{
    let mut j = 0;
    while j + 2 <= area.cols {
        two(
            &mut c[j * area.ld..],
            area.ld,
            area.rows,
            terms,
            u,
            &t[j * 64..],
        );
        j += 2;
    }
    if j == area.cols {
        return;
    }
    column(&mut c[j * area.ld..], area.rows, terms, u, &t[j * 64..]);
}
