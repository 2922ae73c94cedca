// Runs of elements: copied or spread to lines of their own, the first or the last one first, or gathered from several columns.
// (Each loop has an index of its own. One loop over a function of the index would need a wrapper for each, which is no plainer.)
ghost use Rattle.std.specs.Prelude.{◌≡◌, ℕ, ◌+◌, ◌-◌, ◌*◌, ◌≤◌, ◌<◌, length};
ghost use Rattle.arrays.specs.Update.{update, below, region};
ghost use Rattle.floats.specs.Array.{at};
ghost use Rattle.packing.specs.Factor.{Within, along};

use super::factor::Run;

// The elements below n, one after the other.
pub fn copy(dest: &mut [f64], n: usize, a: &[f64])
    requires { (n ≤ length dest.old) × (n ≤ length a.now) }
    ensures { dest.new ≡ update (below n (λ y x. at a.now y)) dest.old }
{
    for y in 0..n {
        dest[y] = a[y];
    }
}

// The elements below n, the last one first.
pub fn reversed(dest: &mut [f64], n: usize, a: &[f64])
    requires { (n ≤ length dest.old) × (n ≤ length a.now) }
    ensures { dest.new ≡ update (below n (λ y x. at a.now (n - 1 - y))) dest.old }
{
    for y in 0..n {
        dest[y] = a[n - 1 - y];
    }
}

// The n elements of a run.
pub fn copy_from(dest: &mut [f64], n: usize, a: &[f64], run: Run)
    requires { (n ≤ length dest.old) × Within run.down run.from n (length a.now) }
    ensures { dest.new ≡ update (below n (λ y x. at a.now (along run.down run.from y))) dest.old }
{
    if run.down {
        let lowest = run.from + 1 - n;
        reversed(dest, n, &a[lowest..]);
        return;
    }
    copy(dest, n, &a[run.from..]);
}

// The elements below n, each to a line of its own.
pub fn spread(dest: &mut [f64], n: usize, a: &[f64])
    requires { (n * 64 < length dest.old + 64) × (n ≤ length a.now) }
    ensures { dest.new ≡ update (region 64 1 n (λ y x _. at a.now x)) dest.old }
{
    for x in 0..n {
        dest[x * 64] = a[x];
    }
}

// The elements below n, the last one first, each to a line of its own.
fn spread_reversed(dest: &mut [f64], n: usize, a: &[f64])
    requires { (n * 64 < length dest.old + 64) × (n ≤ length a.now) }
    ensures { dest.new ≡ update (region 64 1 n (λ y x _. at a.now (n - 1 - x))) dest.old }
{
    for x in 0..n {
        dest[x * 64] = a[n - 1 - x];
    }
}

// The n elements of a run, each to a line of its own.
pub fn spread_from(dest: &mut [f64], n: usize, a: &[f64], run: Run)
    requires { (n * 64 < length dest.old + 64) × Within run.down run.from n (length a.now) }
    ensures { dest.new ≡ update (region 64 1 n (λ y x _. at a.now (along run.down run.from x))) dest.old }
{
    if run.down {
        let lowest = run.from + 1 - n;
        spread_reversed(dest, n, &a[lowest..]);
        return;
    }
    spread(dest, n, &a[run.from..]);
}

// The first elements of n columns.
pub fn gather(dest: &mut [f64], n: usize, a: &[f64], ld: usize)
    requires { (n ≤ length dest.old) × ((y : ℕ) → y < n → y * ld < length a.now) }
    ensures { dest.new ≡ update (below n (λ y x. at a.now (y * ld))) dest.old }
{
    for y in 0..n {
        dest[y] = a[y * ld];
    }
}
