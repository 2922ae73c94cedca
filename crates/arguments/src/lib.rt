// The argument check of the six routines, and the number of strips of a call. Tests whose value goes on are joined by | and &, which have no branches.
#![tactic(auto)]

ghost use Rattle.std.specs.Prelude.{◌≡◌, ◌<◌, if◌then◌else◌};
ghost use Rattle.definitions.specs.Storage as Storage;
ghost use Rattle.definitions.specs.Call as Calls;
ghost use Rattle.definitions.specs.Call.{◌by◌};
ghost use Rattle.definitions.specs.Check as Check;
ghost use Rattle.arguments.specs.Tests as Tests;
ghost use Rattle.arguments.specs.Strip.{strip_start};
ghost use Rattle.arguments.specs.Refusal.{Gives};

use definitions::{Args, Call, Checked, Diagonal, Routine, Shape, Side, Transpose, Triangle};

// Why arguments are refused: the number that is given.
#[derive(Clone, Copy)]
pub struct Refusal {
    pub number: u8,
}

// The argument places of the routine, 0 where it lacks the argument.
// Columns: side, uplo, trans or transa, transb, diag; m, n, k; ld of A, B, C; arrays A, B, C.
fn places(routine: Routine) -> [u8; 14]
    ensures { result ≡ Tests.row_of routine }
{
    match routine {
        Routine::Gemm => [0, 0, 1, 2, 0, 3, 4, 5, 8, 10, 13, 7, 9, 12],
        Routine::Symm => [1, 2, 0, 0, 0, 3, 4, 0, 7, 9, 12, 6, 8, 11],
        Routine::Syrk => [0, 1, 2, 0, 0, 0, 3, 4, 7, 0, 10, 6, 0, 9],
        Routine::Syr2k => [0, 1, 2, 0, 0, 0, 3, 4, 7, 9, 12, 6, 8, 11],
        Routine::Trmm | Routine::Trsm => [1, 2, 3, 0, 4, 5, 6, 0, 9, 11, 0, 8, 10, 0],
    }
}

// ---- numbers and codes

pub fn negative(x: i32) -> bool
    ensures { result ≡ Check.negative x }
{
    x < 0
}

// A negative number counts as 0.
pub fn size(x: i32) -> u32
    ensures { result ≡ Check.nat x }
{
    if x < 0 { 0 } else { x as u32 }
}

// The code is the letter, or its lower-case form.
fn is(letter: u8, code: i32) -> bool
    ensures { result ≡ Check.is letter code }
{
    let n = size(code);
    (n == letter as u32) | (n == letter as u32 + 32)
}

// A code that is no letter of its kind counts as the last case, as the definitions have it, so these four are no TryFrom.
fn side_of(code: i32) -> Side
    ensures { result ≡ Check.side_of code }
{
    if is(b'L', code) {
        Side::Left
    } else {
        Side::Right
    }
}

pub fn uplo_of(code: i32) -> Triangle
    ensures { result ≡ Check.uplo_of code }
{
    if is(b'L', code) {
        Triangle::Lower
    } else {
        Triangle::Upper
    }
}

fn trans_of(code: i32) -> Transpose
    ensures { result ≡ Check.trans_of code }
{
    if is(b'N', code) {
        Transpose::No
    } else {
        Transpose::Yes
    }
}

fn diag_of(code: i32) -> Diagonal
    ensures { result ≡ Check.diag_of code }
{
    if is(b'U', code) {
        Diagonal::Unit
    } else {
        Diagonal::Nonunit
    }
}

fn bad_side(code: i32) -> bool
    ensures { result ≡ Tests.bad_side code }
{
    !(is(b'L', code) | is(b'R', code))
}

pub fn bad_uplo(code: i32) -> bool
    ensures { result ≡ Tests.bad_uplo code }
{
    !(is(b'L', code) | is(b'U', code))
}

fn bad_trans(code: i32) -> bool
    ensures { result ≡ Tests.bad_trans code }
{
    !(is(b'N', code) | is(b'T', code) | is(b'C', code))
}

fn bad_diag(code: i32) -> bool
    ensures { result ≡ Tests.bad_diag code }
{
    !(is(b'U', code) | is(b'N', code))
}

// ---- a leading dimension, a width

// Below the larger of 1 and the stored rows of its matrix.
fn bad_ld(ld: i32, s: Shape) -> bool
    ensures { result ≡ Check.bad_ld ld s }
{
    let n = size(ld);
    (n < 1) | (n < s.rows)
}

// A strip width or block size that is not 0 to 64.
pub fn bad_width(w: i32) -> bool
    ensures { result ≡ Check.bad_width w }
{
    let n = size(w);
    negative(w) | (64 < n)
}

// What an allowed strip width or block size means: 0 is 64.
pub fn width(w: i32) -> usize
    ensures { result ≡ Check.width w }
{
    if w == 0 {
        return 64;
    }
    size(w) as usize
}

// ---- the call

fn has_m(routine: Routine) -> bool
    ensures { result ≡ Calls.has_m routine }
{
    !matches!(routine, Routine::Syrk | Routine::Syr2k)
}

fn has_k(routine: Routine) -> bool
    ensures { result ≡ Calls.has_k routine }
{
    matches!(routine, Routine::Gemm | Routine::Syrk | Routine::Syr2k)
}

fn in_place(routine: Routine) -> bool
    ensures { result ≡ Calls.in_place routine }
{
    matches!(routine, Routine::Trmm | Routine::Trsm)
}

// The call that the arguments make, accepted or not.
pub fn call_of(g: Args) -> Call
    ensures { result ≡ Check.call_of g }
{
    let n = size(g.n);
    Call {
        routine: g.routine,
        side: side_of(g.side),
        uplo: uplo_of(g.uplo),
        transa: trans_of(g.transa),
        transb: trans_of(g.transb),
        diag: diag_of(g.diag),
        m: if has_m(g.routine) { size(g.m) } else { n },
        n,
        k: size(g.k),
        alpha: g.alpha,
        beta: g.beta,
        lda: size(g.lda),
        ldb: size(g.ldb),
        ldc: size(g.ldc),
    }
}

// m or n is 0.
fn is_empty(c: Call) -> bool
    ensures { result ≡ Calls.empty c }
{
    (c.m == 0) | (c.n == 0)
}

// Alpha or k is 0: the start is the result, and the inputs are not read.
fn start_only(c: Call) -> bool
    ensures { result ≡ Calls.start_only c }
{
    c.alpha.is_zero() | (has_k(c.routine) & (c.k == 0))
}

// There is nothing to do.
pub fn is_idle(c: Call) -> bool
    ensures { result ≡ Check.idle c }
{
    is_empty(c) | (!in_place(c.routine) & (start_only(c) & c.beta.is_one()))
}

// ---- shapes

// How a matrix is stored whose op is p by q.
fn stored_as(t: Transpose, p: u32, q: u32) -> Shape
    ensures { result ≡ Calls.stored_as t p q }
{
    match t {
        Transpose::No => Shape { rows: p, cols: q },
        Transpose::Yes => Shape { rows: q, cols: p },
    }
}

// A's shape in a routine that has a side: its order is m for side L, n for side R.
fn square(c: Call) -> Shape
    ensures { result ≡ (Calls.order c by Calls.order c) }
{
    let order = match c.side {
        Side::Left => c.m,
        Side::Right => c.n,
    };
    Shape {
        rows: order,
        cols: order,
    }
}

fn shape_a(c: Call) -> Shape
    ensures { result ≡ Calls.shape_a c.routine c }
{
    match c.routine {
        Routine::Gemm => stored_as(c.transa, c.m, c.k),
        Routine::Syrk | Routine::Syr2k => stored_as(c.transa, c.n, c.k),
        Routine::Symm | Routine::Trmm | Routine::Trsm => square(c),
    }
}

fn shape_b(c: Call) -> Shape
    ensures { result ≡ Calls.shape_b c.routine c }
{
    match c.routine {
        Routine::Gemm => stored_as(c.transb, c.k, c.n),
        Routine::Syrk => Shape { rows: 0, cols: 0 },
        Routine::Syr2k => stored_as(c.transa, c.n, c.k),
        Routine::Symm | Routine::Trmm | Routine::Trsm => Shape {
            rows: c.m,
            cols: c.n,
        },
    }
}

pub fn shape_c(c: Call) -> Shape
    ensures { result ≡ Calls.shape_c c.routine c }
{
    match c.routine {
        Routine::Gemm | Routine::Symm => Shape {
            rows: c.m,
            cols: c.n,
        },
        Routine::Syrk | Routine::Syr2k => Shape {
            rows: c.n,
            cols: c.n,
        },
        Routine::Trmm | Routine::Trsm => Shape { rows: 0, cols: 0 },
    }
}

// ---- lengths

// The elements that an array of p rows and q columns needs: below 2^64 for any three u32.
fn needed(ld: u32, p: u32, q: u32) -> usize
    ensures { result ≡ Storage.needed ld p q }
{
    if p == 0 || q == 0 {
        return 0;
    }
    (ld as usize) * (q as usize - 1) + p as usize
}

pub fn short(len: usize, ld: u32, s: Shape) -> bool
    ensures { result ≡ Check.short len ld s }
{
    len < needed(ld, s.rows, s.cols)
}

// The lengths of the inputs are not tested.
pub fn untested(c: Call) -> bool
    ensures { result ≡ Check.untested c }
{
    is_empty(c) | start_only(c)
}

// The length of B is not tested: B is an input, or the output of TRMM and TRSM.
fn untested_b(c: Call) -> bool
    ensures { result ≡ (if Calls.in_place c.routine then Calls.empty c else Check.untested c) }
{
    if in_place(c.routine) {
        is_empty(c)
    } else {
        untested(c)
    }
}

// ---- the tests in turn

// Refuses with the place if the test failed and the routine has the argument. (With && in place of & a TRSM of order 4 takes 5 to 8 % more instructions.)
fn test(bad: bool, place: u8) -> Result<(), Refusal>
    ensures { Gives (if bad then place else 0) result }
{
    if bad & (place != 0) {
        return Err(Refusal { number: place });
    }
    Ok(())
}

fn codes(g: Args, row: [u8; 14]) -> Result<(), Refusal>
    ensures { Gives (Tests.tests g row Tests.codes) result }
{
    test(bad_side(g.side), row[0])?;
    test(bad_uplo(g.uplo), row[1])?;
    test(bad_trans(g.transa), row[2])?;
    test(bad_trans(g.transb), row[3])?;
    test(bad_diag(g.diag), row[4])
}

fn sizes(g: Args, row: [u8; 14]) -> Result<(), Refusal>
    ensures { Gives (Tests.tests g row Tests.sizes) result }
{
    test(negative(g.m), row[5])?;
    test(negative(g.n), row[6])?;
    test(negative(g.k), row[7])
}

fn leading(g: Args, k: Call, row: [u8; 14]) -> Result<(), Refusal>
    requires { k ≡ Check.call_of g }
    ensures { Gives (Tests.tests g row Tests.leading) result }
{
    test(bad_ld(g.lda, shape_a(k)), row[8])?;
    test(bad_ld(g.ldb, shape_b(k)), row[9])?;
    test(bad_ld(g.ldc, shape_c(k)), row[10])
}

fn lengths(g: Args, k: Call, row: [u8; 14]) -> Result<(), Refusal>
    requires { k ≡ Check.call_of g }
    ensures { Gives (Tests.tests g row Tests.lengths) result }
{
    test(!untested(k) & short(g.lena, k.lda, shape_a(k)), row[11])?;
    test(!untested_b(k) & short(g.lenb, k.ldb, shape_b(k)), row[12])?;
    test(!is_empty(k) & short(g.lenc, k.ldc, shape_c(k)), row[13])
}

// Refuses with the place of the first code, size or leading dimension that is bad.
pub fn test_words(g: Args, k: Call) -> Result<(), Refusal>
    requires { k ≡ Check.call_of g }
    ensures { Gives (Check.first_bad g (Check.places g.routine)) result }
{
    let row = places(g.routine);
    codes(g, row)?;
    sizes(g, row)?;
    leading(g, k, row)
}

// Refuses with the place of the first array that is too short.
pub fn test_arrays(g: Args, k: Call) -> Result<(), Refusal>
    requires { k ≡ Check.call_of g }
    ensures { Gives (Check.first_bad g (Check.arrays g.routine)) result }
{
    lengths(g, k, places(g.routine))
}

// Refuses with 30 for a bad width, else as the other tests do.
fn test_all(w: i32, r: i32, g: Args, k: Call) -> Result<(), Refusal>
    requires { k ≡ Check.call_of g }
    ensures { Gives (Check.refusal w r g) result }
{
    if bad_width(w) || bad_width(r) {
        return Err(Refusal { number: 30 });
    }
    test_words(g, k)?;
    test_arrays(g, k)
}

// The argument check: refused with a number, nothing to do, or ready.
pub fn check(w: i32, r: i32, g: Args) -> Checked
    ensures { result ≡ Check.checked w r g }
{
    let c = call_of(g);
    if let Err(refusal) = test_all(w, r, g, c) {
        return Checked::Refused(refusal.number as u32);
    }
    if is_idle(c) {
        return Checked::Idle;
    }
    Checked::Ready(c)
}

// ---- strips

// Strips cut the rows of the output, not its columns.
fn cuts_rows(routine: Routine, s: Side) -> bool
    ensures { result ≡ Calls.cuts_rows routine s }
{
    in_place(routine) & (s == Side::Right)
}

// The columns of the output, or its rows where strips cut rows.
pub fn extent(c: Call) -> usize
    ensures { (result ≡ Calls.extent c) × (result < 4294967296) }
{
    if cuts_rows(c.routine, c.side) {
        c.m as usize
    } else {
        c.n as usize
    }
}

// The output's leading dimension.
fn ld_output(c: Call) -> u32
    ensures { result ≡ Calls.ld_output c }
{
    if in_place(c.routine) { c.ldb } else { c.ldc }
}

// The element of the output's array at which the strip from `from` on starts.
pub fn strip_start(c: Call, from: usize) -> usize
    requires { strip_start c from < 18446744073709551616 }
    ensures { result ≡ strip_start c from }
{
    if cuts_rows(c.routine, c.side) {
        return from;
    }
    from * (ld_output(c) as usize)
}

// The number of strips of width w.
pub fn strips(w: usize, c: Call) -> usize
    requires { (0 < w) × (w < 4294967296) }
    ensures { result ≡ Calls.strips w c }
{
    if is_empty(c) {
        return 1;
    }
    (extent(c) + w - 1) / w
}
