// The direct calls, the call for many right sides, the integer solve and the runner of call sheets for programs in other languages: a slice is a pointer and then a length.
#![tactic(auto)]

ghost use Rattle.std.specs.Prelude.{◌≡◌};
ghost use Rattle.definitions.specs.Direct as Direct;
ghost use Rattle.definitions.specs.Many as Many;
ghost use Rattle.definitions.specs.Run as Run;
ghost use Rattle.integer_solve.specs.Equations.{Numbered};
ghost use Rattle.records.specs.Judgement.{sheet_of, arrays_of};
ghost use Rattle.sheet.specs.Lent.{ran_of};

use definitions::{ManyEnd, RunEnd, SolveEnd};

#[unsafe(no_mangle)]
pub extern "C" fn tl_dgemm(
    transa: i32,
    transb: i32,
    m: i32,
    n: i32,
    k: i32,
    alpha: f64,
    a: &[f64],
    lda: i32,
    b: &[f64],
    ldb: i32,
    beta: f64,
    c: &mut [f64],
    ldc: i32,
    w: i32,
    r: i32,
) -> i32
    ensures { (result ≡ (Direct.gemm transa transb m n k alpha a.now lda b.now ldb beta c.old ldc w r).number)
        × (c.new ≡ (Direct.gemm transa transb m n k alpha a.now lda b.now ldb beta c.old ldc w r).array) }
{
    blas::gemm(
        transa, transb, m, n, k, alpha, a, lda, b, ldb, beta, c, ldc, w, r,
    )
}

#[unsafe(no_mangle)]
pub extern "C" fn tl_dsymm(
    side: i32,
    uplo: i32,
    m: i32,
    n: i32,
    alpha: f64,
    a: &[f64],
    lda: i32,
    b: &[f64],
    ldb: i32,
    beta: f64,
    c: &mut [f64],
    ldc: i32,
    w: i32,
    r: i32,
) -> i32
    ensures { (result ≡ (Direct.symm side uplo m n alpha a.now lda b.now ldb beta c.old ldc w r).number)
        × (c.new ≡ (Direct.symm side uplo m n alpha a.now lda b.now ldb beta c.old ldc w r).array) }
{
    blas::symm(side, uplo, m, n, alpha, a, lda, b, ldb, beta, c, ldc, w, r)
}

#[unsafe(no_mangle)]
pub extern "C" fn tl_dsyrk(
    uplo: i32,
    trans: i32,
    n: i32,
    k: i32,
    alpha: f64,
    a: &[f64],
    lda: i32,
    beta: f64,
    c: &mut [f64],
    ldc: i32,
    w: i32,
    r: i32,
) -> i32
    ensures { (result ≡ (Direct.syrk uplo trans n k alpha a.now lda beta c.old ldc w r).number)
        × (c.new ≡ (Direct.syrk uplo trans n k alpha a.now lda beta c.old ldc w r).array) }
{
    blas::syrk(uplo, trans, n, k, alpha, a, lda, beta, c, ldc, w, r)
}

#[unsafe(no_mangle)]
pub extern "C" fn tl_dsyr2k(
    uplo: i32,
    trans: i32,
    n: i32,
    k: i32,
    alpha: f64,
    a: &[f64],
    lda: i32,
    b: &[f64],
    ldb: i32,
    beta: f64,
    c: &mut [f64],
    ldc: i32,
    w: i32,
    r: i32,
) -> i32
    ensures { (result ≡ (Direct.syr2k uplo trans n k alpha a.now lda b.now ldb beta c.old ldc w r).number)
        × (c.new ≡ (Direct.syr2k uplo trans n k alpha a.now lda b.now ldb beta c.old ldc w r).array) }
{
    blas::syr2k(uplo, trans, n, k, alpha, a, lda, b, ldb, beta, c, ldc, w, r)
}

#[unsafe(no_mangle)]
pub extern "C" fn tl_dtrmm(
    side: i32,
    uplo: i32,
    transa: i32,
    diag: i32,
    m: i32,
    n: i32,
    alpha: f64,
    a: &[f64],
    lda: i32,
    b: &mut [f64],
    ldb: i32,
    w: i32,
    r: i32,
) -> i32
    ensures { (result ≡ (Direct.trmm side uplo transa diag m n alpha a.now lda b.old ldb w r).number) × (b.new ≡ (Direct.trmm side uplo transa diag m n alpha a.now lda b.old ldb w r).array) }
{
    blas::trmm(side, uplo, transa, diag, m, n, alpha, a, lda, b, ldb, w, r)
}

#[unsafe(no_mangle)]
pub extern "C" fn tl_dtrsm(
    side: i32,
    uplo: i32,
    transa: i32,
    diag: i32,
    m: i32,
    n: i32,
    alpha: f64,
    a: &[f64],
    lda: i32,
    b: &mut [f64],
    ldb: i32,
    w: i32,
    r: i32,
) -> SolveEnd
    ensures { (result ≡ (Direct.trsm side uplo transa diag m n alpha a.now lda b.old ldb w r).end) × (b.new ≡ (Direct.trsm side uplo transa diag m n alpha a.now lda b.old ldb w r).array) }
{
    blas::trsm(side, uplo, transa, diag, m, n, alpha, a, lda, b, ldb, w, r)
}

#[unsafe(no_mangle)]
pub extern "C" fn tl_dgemm_many(
    transb: i32,
    m: i32,
    n: i32,
    k: i32,
    alpha: f64,
    a: &[f64],
    lda: i32,
    b: &[f64],
    ldb: i32,
    strideb: i32,
    beta: f64,
    c: &mut [f64],
    ldc: i32,
    stridec: i32,
    items: i32,
    pack: &mut [f64],
    w: i32,
    r: i32,
) -> ManyEnd
    ensures { (result ≡ (Many.many transb m n k alpha a.now lda b.now ldb strideb beta c.old ldc stridec items pack.old w r).end)
        × (c.new ≡ (Many.many transb m n k alpha a.now lda b.now ldb strideb beta c.old ldc stridec items pack.old w r).array)
        × (pack.new ≡ (Many.many transb m n k alpha a.now lda b.now ldb strideb beta c.old ldc stridec items pack.old w r).pack) }
{
    many::gemm_many(
        transb, m, n, k, alpha, a, lda, b, ldb, strideb, beta, c, ldc, stridec, items, pack, w, r,
    )
}

#[unsafe(no_mangle)]
pub extern "C" fn tl_isolve(uplo: i32, n: i32, a: &[i16], b: &[i16], x: &mut [i16]) -> i32
    ensures { Numbered uplo n a.now b.now x.old result x.new }
{
    integer_solve::number(integer_solve::solve(uplo, n, a, b, x))
}

#[unsafe(no_mangle)]
pub extern "C" fn tl_run(
    sheet: &[i32],
    scalars: &[f64],
    x: &mut [f64],
    y: &mut [f64],
    z: &mut [f64],
    answers: &mut [i32],
    p: i32,
    s: i32,
    budget: u32,
) -> RunEnd
    ensures { ran_of result (arrays_of x.new y.new z.new) answers.new
        ≡ Run.run (sheet_of sheet.now scalars.now) budget (arrays_of x.old y.old z.old) answers.old p s }
{
    sheet::run(sheet, scalars, x, y, z, answers, p, s, budget)
}
