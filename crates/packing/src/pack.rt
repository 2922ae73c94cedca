// Packing: a block of a factor into a buffer, line x and element y of the line at x * 64 + y.
ghost use Rattle.std.specs.Prelude.{◌≡◌, ℕ, ◌+◌, ◌*◌, ◌≤◌, ◌<◌, length};
ghost use Rattle.arrays.specs.Update.{update, below, region};
ghost use Rattle.floats.specs.Array.{at};
ghost use Rattle.packing.specs.Factor.{Indices, Reads, index_of, matrix_of, along};

use super::factor::{Factor, Run};
use super::{Form, Way, factor, mirror, runs};

// A line of n entries of one column, from row i on up or down.
fn line(dest: &mut [f64], n: usize, a: Factor, i: Run, j: usize)
    requires { (n ≤ length dest.old) × Indices i.down i.from n × ((y : ℕ) → y < n → index_of a.form a.ld (along i.down i.from y) j < length a.cells.now) }
    ensures { dest.new ≡ update (below n (λ y x. matrix_of a.entry (along i.down i.from y) j)) dest.old }
{
    for y in 0..n {
        let row = i.index(y);
        let p = factor::place(a.form, a.ld, row, j);
        dest[y] = a.cells[p];
    }
}

// A block whose lines are parts of columns of the array.
fn plain(dest: &mut [f64], ny: usize, nx: usize, a: Factor, i: Run, j: Run)
    requires { (0 < ny) × (ny ≤ 64) × (nx * 64 ≤ length dest.old) × Indices i.down i.from ny × Indices j.down j.from nx × ((y x : ℕ) → y < ny → x < nx → along j.down j.from x * a.ld + along i.down i.from y < length a.cells.now) }
    ensures { dest.new ≡ update (region 64 ny nx (λ y x _. at a.entry.cells.now (along j.down j.from x * a.entry.ld + along i.down i.from y))) dest.old }
{
    for x in 0..nx {
        let to = x * 64;
        let column = j.index(x);
        let from = column * a.ld + i.from;
        runs::copy_from(&mut dest[to..], ny, a.cells, Run { from, down: i.down });
    }
}

// A block whose lines are parts of rows of the array, read column by column.
fn transposed(dest: &mut [f64], ny: usize, nx: usize, a: Factor, i: Run, j: Run)
    requires { (ny ≤ 64) × (0 < nx) × (nx * 64 ≤ length dest.old) × Indices i.down i.from ny × Indices j.down j.from nx × ((y x : ℕ) → y < ny → x < nx → along i.down i.from y * a.ld + along j.down j.from x < length a.cells.now) }
    ensures { dest.new ≡ update (region 64 ny nx (λ y x _. at a.entry.cells.now (along i.down i.from y * a.entry.ld + along j.down j.from x))) dest.old }
{
    for y in 0..ny {
        let column = i.index(y);
        let from = column * a.ld + j.from;
        runs::spread_from(&mut dest[y..], nx, a.cells, Run { from, down: j.down });
    }
}

// The same, eight lines at a time: all of them at once, 64 elements apart, would drive each other out of the cache.
fn tiles(dest: &mut [f64], ny: usize, nx: usize, a: Factor, i: Run, j: Run)
    requires { (ny ≤ 64) × (nx * 64 ≤ length dest.old) × Indices i.down i.from ny × Indices j.down j.from nx × ((y x : ℕ) → y < ny → x < nx → along i.down i.from y * a.ld + along j.down j.from x < length a.cells.now) }
    ensures { dest.new ≡ update (region 64 ny nx (λ y x _. at a.entry.cells.now (along i.down i.from y * a.entry.ld + along j.down j.from x))) dest.old }
{
    for q in 0..nx / 8 {
        let x = q * 8;
        let first = j.index(x);
        transposed(
            &mut dest[x * 64..],
            ny,
            8,
            a,
            i,
            Run {
                from: first,
                down: j.down,
            },
        );
    }
    let x = nx / 8 * 8;
    if x == nx {
        return;
    }
    let rest = j.index(x);
    transposed(
        &mut dest[x * 64..],
        ny,
        nx - x,
        a,
        i,
        Run {
            from: rest,
            down: j.down,
        },
    );
}

// A block entry by entry, in any form: line x and element y of the line at x * stride + y.
pub fn lines(dest: &mut [f64], stride: usize, ny: usize, nx: usize, a: Factor, i: Run, j: Run)
    requires { (0 < stride) × (ny ≤ stride) × (nx * stride + ny ≤ length dest.old + stride) × Indices i.down i.from ny × Indices j.down j.from nx × ((y x : ℕ) → y < ny → x < nx → index_of a.form a.ld (along i.down i.from y) (along j.down j.from x) < length a.cells.now) }
    ensures { dest.new ≡ update (region stride ny nx (λ y x _. matrix_of a.entry (along i.down i.from y) (along j.down j.from x))) dest.old }
{
    for x in 0..nx {
        let to = x * stride;
        let column = j.index(x);
        line(&mut dest[to..], ny, a, i, column);
    }
}

// How a block can be read. A symmetric factor's block on one side of the diagonal is plain or transposed, if it runs up.
fn way_of(form: Form, i: Run, ny: usize, j: Run, nx: usize) -> Way
    requires { Indices i.down i.from ny × Indices j.down j.from nx × (0 < ny) × (0 < nx) }
    ensures { Reads form i.down j.down i.from ny j.from nx result }
{
    match form {
        Form::Plain => {
            return Way::Columns;
        }
        Form::Transposed => {
            return Way::Rows;
        }
        Form::Lower => {
            if i.down {
                return Way::Entries;
            }
            if j.down {
                return Way::Entries;
            }
            if j.from + nx <= i.from + 1 {
                return Way::Columns;
            }
            if i.from + ny <= j.from + 1 {
                return Way::Rows;
            }
            return Way::Mirrored;
        }
        Form::Upper => {
            if i.down {
                return Way::Entries;
            }
            if j.down {
                return Way::Entries;
            }
            if i.from + ny <= j.from + 1 {
                return Way::Columns;
            }
            if j.from + nx <= i.from + 1 {
                return Way::Rows;
            }
            return Way::Mirrored;
        }
    }
}

// A block of ny by nx entries of a factor: line x is column number x of j, and its element y in row number y of i.
pub fn pack(dest: &mut [f64], ny: usize, nx: usize, a: Factor, i: Run, j: Run)
    requires { (0 < ny) × (ny ≤ 64) × (0 < nx) × (nx * 64 ≤ length dest.old) × Indices i.down i.from ny × Indices j.down j.from nx × ((y x : ℕ) → y < ny → x < nx → index_of a.form a.ld (along i.down i.from y) (along j.down j.from x) < length a.cells.now) }
    ensures { dest.new ≡ update (region 64 ny nx (λ y x _. matrix_of a.entry (along i.down i.from y) (along j.down j.from x))) dest.old }
{
    let way = way_of(a.form, i, ny, j, nx);
    match way {
        Way::Columns => plain(dest, ny, nx, a, i, j),
        Way::Rows => tiles(dest, ny, nx, a, i, j),
        Way::Mirrored => {
            let lower = mirror::is_lower(a.form);
            mirror::block(dest, 64, ny, nx, lower, a.cells, a.ld, i.from, j.from);
        }
        Way::Entries => lines(dest, 64, ny, nx, a, i, j),
    }
}
