// The coefficients of the terms within a diagonal block: one triangle of op(A), without its diagonal.
ghost use Rattle.std.specs.Prelude.{◌≡◌, ℕ, ◌+◌, ◌-◌, ◌*◌, ◌≤◌, ◌<◌, length, if◌then◌else◌};
ghost use Rattle.floats.specs.Array.{at};
ghost use Rattle.packing.specs.Factor.{index_of, turn};
ghost use Rattle.forms.specs.Forms.{op_form, op_matrix};
ghost use Rattle.lines.specs.Lines.{coefficient, by_columns, Beside, RowOf, ColumnOf};

use definitions::Transpose;
use forms::Op;
use packing::{factor, runs};

// The elements below count of a become the coefficients of the elements from lo on in one row of v, which has n of them.
fn in_row(down: bool, n: usize, lo: usize, count: usize, a: &[f64], v: &mut [f64])
    requires { (lo + count ≤ n) × (n ≤ length v.old) × (count ≤ length a.now) }
    ensures { RowOf down n lo count a.now v.old v.new }
{
    if down {
        let to = n - (lo + count);
        runs::reversed(&mut v[to..], count, a);
        return;
    }
    runs::copy(&mut v[lo..], count, a);
}

// The elements below count of a become the q-th coefficients of the rows of v from lo on.
fn in_column(q: usize, lo: usize, count: usize, a: &[f64], v: &mut [f64])
    requires { (q < 64) × (lo + count ≤ 64) × (4096 ≤ length v.old) × (count ≤ length a.now) }
    ensures { ColumnOf q lo count a.now v.old v.new }
{
    if count == 0 {
        return;
    }
    let to = lo * 64 + q;
    runs::spread(&mut v[to..], count, a);
}

// Where the coefficients of an element stand in its column of A: the entries after the diagonal, or before it, of each column.
fn by_columns(after: bool, down: bool, a: &[f64], lda: usize, x0: usize, n: usize, v: &mut [f64])
    requires { (n ≤ 64) × (x0 + n < 18446744073709551616) × (4096 ≤ length v.old) × ((i p : ℕ) → i < n → p < n → (x0 + i) * lda + (x0 + p) < length a.now) }
    ensures { (length v.new ≡ length v.old) × ((i p : ℕ) → i < n → p < n → Beside after i p → at v.new (i * 64 + turn down n p) ≡ at a.now ((x0 + i) * lda + (x0 + p))) }
{
    for k in 0..n {
        let lo = arrays::pick(after, k + 1, 0);
        let count = arrays::pick(after, n - 1 - k, k);
        let from = (x0 + k) * lda + (x0 + lo);
        let to = k * 64;
        in_row(down, n, lo, count, &a[from..], &mut v[to..]);
    }
}

// Where they stand in its row of A: the entries after the diagonal, or before it, of each column go to one place of the rows of v.
fn by_rows(after: bool, down: bool, a: &[f64], lda: usize, x0: usize, n: usize, v: &mut [f64])
    requires { (n ≤ 64) × (x0 + n < 18446744073709551616) × (4096 ≤ length v.old) × ((p i : ℕ) → p < n → i < n → (x0 + p) * lda + (x0 + i) < length a.now) }
    ensures { (length v.new ≡ length v.old) × ((i p : ℕ) → i < n → p < n → Beside after p i → at v.new (i * 64 + turn down n p) ≡ at a.now ((x0 + p) * lda + (x0 + i))) }
{
    for k in 0..n {
        let lo = arrays::pick(after, k + 1, 0);
        let count = arrays::pick(after, n - 1 - k, k);
        let from = (x0 + k) * lda + (x0 + lo);
        let q = factor::turn_of(down, n, k);
        in_column(q, lo, count, &a[from..], v);
    }
}

// Whether the coefficients of an element stand in a column of A, and not in a row.
pub fn are_columns(left: bool, t: Transpose) -> bool
    ensures { result ≡ by_columns left t }
{
    match t {
        Transpose::No => !left,
        Transpose::Yes => left,
    }
}

// The coefficients of the terms of the elements after (or before) each of the n elements from x0 on. Row i of v is for element x0 + i, and its q-th place for the term that
// comes q-th. Nothing of A on the diagonal or on its other side is read.
pub fn coefficients(left: bool, after: bool, down: bool, a: Op, x0: usize, n: usize, v: &mut [f64])
    requires { (n ≤ 64) × (x0 + n < 18446744073709551616) × (4096 ≤ length v.old) × ((i j : ℕ) → i < n → j < n → index_of (op_form a.t) a.ld (x0 + i) (x0 + j) < length a.cells.now) }
    ensures { (length v.new ≡ length v.old) × ((i p : ℕ) → i < n → p < n → Beside after i p → at v.new (i * 64 + turn down n p) ≡ coefficient left (op_matrix a.entry) (x0 + i) (x0 + p)) }
{
    if are_columns(left, a.t) {
        by_columns(after, down, a.cells, a.ld, x0, n, v);
        return;
    }
    by_rows(!after, down, a.cells, a.ld, x0, n, v);
}
