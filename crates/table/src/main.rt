// The table of document 01, through the public calls: for each row its letter, a space, `ok` or `no`, and a line end.
#![tactic(auto)]

ghost use Rattle.std.specs.Prelude.{◌≡◌, ◌↔◌, IsTrue};

use definitions::RunEnd;
use std::io;

const L: i32 = 76;

const N: i32 = 78;

const U: i32 = 85;

const P: f64 = 9007199254740992.0;

// ---- comparison

// The same bits, or two NaNs.
fn same(x: f64, y: f64) -> bool
    ensures { IsTrue result ↔ x ≡ y }
{
    if x.is_nan() {
        return y.is_nan();
    }
    if y.is_nan() {
        return false;
    }
    x.to_bits() == y.to_bits()
}

// The same values, one by one.
fn agree(list: &[f64], res: &[f64]) -> bool
    ensures { IsTrue result ↔ list.now ≡ res.now }
{
    list.len() == res.len() && list.iter().zip(res).all(|(x, y)| same(*x, *y))
}

// ---- the rows; α = 1, β = 0 unless given

// A GEMM without transposes that agrees with its result.
fn gemm(
    m: i32,
    n: i32,
    k: i32,
    alpha: f64,
    a: &[f64],
    b: &[f64],
    beta: f64,
    c: &mut [f64],
    res: &[f64],
) -> bool {
    let number = blas::gemm(N, N, m, n, k, alpha, a, m, b, k, beta, c, m, 64, 64);
    (number == 0) & agree(c, res)
}

fn row_a() -> bool {
    gemm(
        2,
        2,
        2,
        1.0,
        &[1.0, 3.0, 2.0, 4.0],
        &[5.0, 7.0, 6.0, 8.0],
        0.0,
        &mut [0.0; 4],
        &[19.0, 43.0, 22.0, 50.0],
    )
}

fn row_b() -> bool {
    gemm(
        1,
        1,
        3,
        1.0,
        &[P, 1.0, 1.0],
        &[1.0, 1.0, 1.0],
        0.0,
        &mut [0.0],
        &[P],
    )
}

fn row_c() -> bool {
    gemm(
        1,
        1,
        3,
        1.0,
        &[1.0, 1.0, P],
        &[1.0, 1.0, 1.0],
        0.0,
        &mut [0.0],
        &[P + 2.0],
    )
}

fn row_d() -> bool {
    gemm(1, 1, 1, 1.0, &[2.0], &[3.0], 0.0, &mut [0.0 / 0.0], &[6.0])
}

fn row_e() -> bool {
    gemm(
        1,
        1,
        1,
        1.0,
        &[1.0 / 0.0],
        &[0.0],
        0.0,
        &mut [0.0],
        &[0.0 / 0.0],
    )
}

fn row_f() -> bool {
    gemm(1, 1, 1, 0.0, &[1.0 / 0.0], &[1.0], 2.0, &mut [3.0], &[6.0])
}

fn row_g() -> bool {
    let mut c = [0.0, 0.0];
    let number = blas::symm(
        L,
        U,
        2,
        1,
        1.0,
        &[1.0, 9.0, 2.0, 3.0],
        2,
        &[1.0, 1.0],
        2,
        0.0,
        &mut c,
        2,
        64,
        64,
    );
    (number == 0) & agree(&c, &[3.0, 5.0])
}

fn row_h() -> bool {
    let mut c = [10.0, 20.0, 30.0, 40.0];
    let number = blas::syrk(L, N, 2, 1, 1.0, &[1.0, 2.0], 2, 1.0, &mut c, 2, 64, 64);
    (number == 0) & agree(&c, &[11.0, 22.0, 30.0, 44.0])
}

fn row_i() -> bool {
    let mut c = [9.0, 9.0, 9.0, 9.0];
    let number = blas::syr2k(
        L,
        N,
        2,
        1,
        1.0,
        &[1.0, 2.0],
        2,
        &[3.0, 4.0],
        2,
        0.0,
        &mut c,
        2,
        64,
        64,
    );
    (number == 0) & agree(&c, &[6.0, 10.0, 9.0, 16.0])
}

fn row_j() -> bool {
    let mut b = [3.0, 4.0];
    let number = blas::trmm(
        L,
        U,
        N,
        U,
        2,
        1,
        1.0,
        &[9.0, 9.0, 2.0, 9.0],
        2,
        &mut b,
        2,
        64,
        64,
    );
    (number == 0) & agree(&b, &[11.0, 4.0])
}

fn row_k() -> bool {
    let mut b = [3.0, 7.0];
    let end = blas::trsm(
        L,
        L,
        N,
        N,
        2,
        1,
        2.0,
        &[2.0, 1.0, 9.0, 4.0],
        2,
        &mut b,
        2,
        64,
        64,
    );
    (end.number == 0) & agree(&b, &[3.0, 2.75])
}

fn row_l() -> bool {
    let a = [1.0, 0.0, 0.0, 1.0, 1.0, 0.0, 1.0, 0.0, 1.0];
    let mut b = [1.0, P, -P];
    let end = blas::trsm(L, U, N, U, 3, 1, 1.0, &a, 3, &mut b, 3, 64, 64);
    (end.number == 0) & agree(&b, &[0.0, P, -P])
}

// An accepted run that ended at the cursor (p, s).
fn ended(end: RunEnd, p: i32, s: i32) -> bool {
    (end.number == 0) & (end.p == p) & (end.s == s)
}

// A sheet of one GEMM, in strips of one column: A is X, B is Y and C is Z.
fn row_m() -> bool {
    let sheet = [
        1, 0, 0, N, N, 0, 1, 3, 1, 0, 0, 1, 1, 0, 1, 2, 0, 1, 1, 64, 0, 1,
    ];
    let scalars = [1.0, 0.0];
    let mut x = [2.0];
    let mut y = [3.0, 4.0, 5.0];
    let mut z = [0.0, 0.0, 0.0];
    let mut answers = [7];
    let first = sheet::run(
        &sheet,
        &scalars,
        &mut x,
        &mut y,
        &mut z,
        &mut answers,
        0,
        0,
        2,
    );
    let second = sheet::run(
        &sheet,
        &scalars,
        &mut x,
        &mut y,
        &mut z,
        &mut answers,
        first.p,
        first.s,
        1,
    );
    ended(first, 0, 2) & ended(second, 1, 0)
}

// ---- printing

fn main(rt: HostRuntime) -> io::Result<()> {
    let rows = [
        ('a', row_a()),
        ('b', row_b()),
        ('c', row_c()),
        ('d', row_d()),
        ('e', row_e()),
        ('f', row_f()),
        ('g', row_g()),
        ('h', row_h()),
        ('i', row_i()),
        ('j', row_j()),
        ('k', row_k()),
        ('l', row_l()),
        ('m', row_m()),
    ];
    for (letter, ok) in rows {
        let word = if ok { "ok" } else { "no" };
        println!(&rt; "{letter} {word}")?;
    }
    Ok(())
}
