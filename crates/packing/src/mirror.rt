// A block of a symmetric factor of which one triangle is stored.
ghost use Rattle.std.specs.Prelude.{◌≡◌, ℕ, ◌+◌, ◌*◌, ◌≤◌, ◌<◌, length};
ghost use Rattle.arrays.specs.Update.{update, below, region};
ghost use Rattle.floats.specs.Array.{at};
ghost use Rattle.packing.specs.Factor.{is_mirrored, is_lower, mirrored_form, index_of, entry_of};

use super::{Form, runs};

// The form mirrors one triangle.
pub fn is_mirrored(form: Form) -> bool
    ensures { result ≡ is_mirrored form }
{
    match form {
        Form::Plain => false,
        Form::Transposed => false,
        Form::Lower => true,
        Form::Upper => true,
    }
}

// That triangle is the lower one.
pub fn is_lower(form: Form) -> bool
    ensures { result ≡ is_lower form }
{
    match form {
        Form::Plain => false,
        Form::Transposed => false,
        Form::Lower => true,
        Form::Upper => false,
    }
}

// How many of the n rows from i on come before row j.
fn rows_before(i: usize, n: usize, j: usize) -> usize
    requires { i + n < 18446744073709551616 }
    ensures { (result ≤ n) × ((y : ℕ) → y < result → i + y < j) × ((y : ℕ) → result ≤ y → y < n → j ≤ i + y) }
{
    if j <= i {
        return 0;
    }
    if i + n <= j {
        return n;
    }
    j - i
}

// n entries of column j, from row i on, where they are stored.
fn stored(dest: &mut [f64], n: usize, a: &[f64], ld: usize, i: usize, j: usize)
    requires { (n ≤ length dest.old) × ((y : ℕ) → y < n → j * ld + (i + y) < length a.now) }
    ensures { dest.new ≡ update (below n (λ y x. at a.now (j * ld + (i + y)))) dest.old }
{
    if n == 0 {
        return;
    }
    let from = j * ld + i;
    runs::copy(dest, n, &a[from..]);
}

// The same where they are mirrored: row j, from column i on.
fn mirrored(dest: &mut [f64], n: usize, a: &[f64], ld: usize, i: usize, j: usize)
    requires { (n ≤ length dest.old) × ((y : ℕ) → y < n → (i + y) * ld + j < length a.now) }
    ensures { dest.new ≡ update (below n (λ y x. at a.now ((i + y) * ld + j))) dest.old }
{
    if n == 0 {
        return;
    }
    let from = i * ld + j;
    runs::gather(dest, n, &a[from..], ld);
}

// n entries of column j, from row i on: those before the diagonal, then the others.
fn line(dest: &mut [f64], n: usize, lower: bool, a: &[f64], ld: usize, i: usize, j: usize)
    requires { (n ≤ length dest.old) × (i + n < 18446744073709551616) × (j < 18446744073709551615) × ((y : ℕ) → y < n → index_of (mirrored_form lower) ld (i + y) j < length a.now) }
    ensures { dest.new ≡ update (below n (λ y x. entry_of (mirrored_form lower) a.now ld (i + y) j)) dest.old }
{
    if lower {
        let k = rows_before(i, n, j);
        mirrored(dest, k, a, ld, i, j);
        stored(&mut dest[k..], n - k, a, ld, i + k, j);
        return;
    }
    let h = rows_before(i, n, j + 1);
    stored(dest, h, a, ld, i, j);
    mirrored(&mut dest[h..], n - h, a, ld, i + h, j);
}

// ny by nx entries from (i, j) on, line x and element y of the line at x * stride + y.
pub fn block(
    dest: &mut [f64],
    stride: usize,
    ny: usize,
    nx: usize,
    lower: bool,
    a: &[f64],
    ld: usize,
    i: usize,
    j: usize,
)
    requires stride_nonzero { (0 < stride) × (ny ≤ stride) × (nx * stride ≤ length dest.old) × (i + ny < 18446744073709551616) × (j + nx < 18446744073709551616) }
    requires by_index { (y x : ℕ) → y < ny → x < nx → index_of (mirrored_form lower) ld (i + y) (j + x) < length a.now }
    ensures { dest.new ≡ update (region stride ny nx (λ y x _. entry_of (mirrored_form lower) a.now ld (i + y) (j + x))) dest.old }
{
    for x in 0..nx {
        let to = x * stride;
        line(&mut dest[to..], ny, lower, a, ld, i, j + x);
    }
}
