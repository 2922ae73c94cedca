// The innermost loops: one term, four or eight for one column, one or four for two neighbouring ones. In u term q, row i stands at q * 64 + i, in t column j, term q at j * 64 + q.
// (One function for any constant number of terms would say it once, but it took up to twice as long in products of order 8.)
// A pass is one turn of such a loop, for one row; the loops over one column count theirs and hand back the count.
ghost use Rattle.std.specs.Prelude.{◌≡◌, ◌+◌, ◌*◌, ◌≤◌, ◌<◌, length};
ghost use Rattle.arrays.specs.Update.{update, below, region};
ghost use Rattle.blocks.specs.Terms.{packed, AtOnce};

// One term of one column.
pub fn axpy(c: &mut [f64], n: usize, u: &[f64], t: &[f64]) -> usize
    requires { (n ≤ length c.old) × (n ≤ length u.now) × (1 ≤ length t.now) }
    ensures { (result ≡ n) × (c.new ≡ update (below n (λ i e. packed 1 u.now t.now i 0 e)) c.old) }
{
    let t0 = t[0];
    let mut count = 0;
    for i in 0..n {
        c[i] = c[i] + t0 * u[i];
        count += 1;
    }
    count
}

// Four terms of one column, in order.
pub fn axpy4(c: &mut [f64], n: usize, u: &[f64], t: &[f64]) -> usize
    requires { (n ≤ length c.old) × (192 + n ≤ length u.now) × (4 ≤ length t.now) }
    ensures { (result ≡ n) × (c.new ≡ update (below n (λ i e. packed 4 u.now t.now i 0 e)) c.old) }
{
    let t0 = t[0];
    let t1 = t[1];
    let t2 = t[2];
    let t3 = t[3];
    let mut count = 0;
    for i in 0..n {
        c[i] = (((c[i] + t0 * u[i]) + t1 * u[64 + i]) + t2 * u[128 + i]) + t3 * u[192 + i];
        count += 1;
    }
    count
}

// Eight terms of one column, in order.
pub fn axpy8(c: &mut [f64], n: usize, u: &[f64], t: &[f64]) -> usize
    requires { (n ≤ length c.old) × (448 + n ≤ length u.now) × (8 ≤ length t.now) }
    ensures { (result ≡ n) × (c.new ≡ update (below n (λ i e. packed 8 u.now t.now i 0 e)) c.old) }
{
    let t0 = t[0];
    let t1 = t[1];
    let t2 = t[2];
    let t3 = t[3];
    let t4 = t[4];
    let t5 = t[5];
    let t6 = t[6];
    let t7 = t[7];
    let mut count = 0;
    for i in 0..n {
        let x = (((c[i] + t0 * u[i]) + t1 * u[64 + i]) + t2 * u[128 + i]) + t3 * u[192 + i];
        c[i] = (((x + t4 * u[256 + i]) + t5 * u[320 + i]) + t6 * u[384 + i]) + t7 * u[448 + i];
        count += 1;
    }
    count
}

// How many of the terms that are left one pass takes.
pub fn at_once(terms: usize) -> usize
    requires { 0 < terms }
    ensures { (AtOnce result) × (result ≤ terms) }
{
    if 8 <= terms {
        return 8;
    }
    if 4 <= terms {
        return 4;
    }
    1
}

// Eight terms of one column, or four, or one.
pub fn axpys(c: &mut [f64], n: usize, terms: usize, u: &[f64], t: &[f64]) -> usize
    requires { (AtOnce terms) × (n ≤ length c.old) × (terms * 64 + n ≤ length u.now + 64) × (terms ≤ length t.now) }
    ensures { (result ≡ n) × (c.new ≡ update (below n (λ i e. packed terms u.now t.now i 0 e)) c.old) }
{
    if terms == 8 {
        return axpy8(c, n, u, t);
    }
    if terms == 4 {
        return axpy4(c, n, u, t);
    }
    axpy(c, n, u, t)
}

// One term of two columns.
pub fn pair(c: &mut [f64], ld: usize, n: usize, u: &[f64], t: &[f64])
    requires { (n ≤ ld) × (ld + n ≤ length c.old) × (n ≤ length u.now) × (65 ≤ length t.now) }
    ensures { c.new ≡ update (region ld n 2 (packed 1 u.now t.now)) c.old }
{
    let t0 = t[0];
    let s0 = t[64];
    for i in 0..n {
        let x = c[i] + t0 * u[i];
        let y = c[ld + i] + s0 * u[i];
        c[i] = x;
        c[ld + i] = y;
    }
}

// Four terms of two columns, in order.
pub fn pair4(c: &mut [f64], ld: usize, n: usize, u: &[f64], t: &[f64])
    requires { (n ≤ ld) × (ld + n ≤ length c.old) × (192 + n ≤ length u.now) × (68 ≤ length t.now) }
    ensures { c.new ≡ update (region ld n 2 (packed 4 u.now t.now)) c.old }
{
    let t0 = t[0];
    let t1 = t[1];
    let t2 = t[2];
    let t3 = t[3];
    let s0 = t[64];
    let s1 = t[65];
    let s2 = t[66];
    let s3 = t[67];
    for i in 0..n {
        let x = (((c[i] + t0 * u[i]) + t1 * u[64 + i]) + t2 * u[128 + i]) + t3 * u[192 + i];
        let y = (((c[ld + i] + s0 * u[i]) + s1 * u[64 + i]) + s2 * u[128 + i]) + s3 * u[192 + i];
        c[i] = x;
        c[ld + i] = y;
    }
}
