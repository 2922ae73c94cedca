// The direct calls. Each checks its arguments, and what is ready goes strip by strip through the update of its routine.
#![tactic(auto)]

ghost use Rattle.std.specs.Prelude.{◌≡◌, ℕ, ◌≤◌, ◌<◌, length, if◌then◌else◌};
ghost use Rattle.definitions.specs.Call as Calls;
ghost use Rattle.definitions.specs.Check as Check;
ghost use Rattle.definitions.specs.Direct as Direct;
ghost use Rattle.definitions.specs.declared.Call.{Call as CallOf};
ghost use Rattle.definitions.specs.declared.Checked.TheVariants.{Refused, Ready};
ghost use Rattle.strips.specs.Lengths.{FitsArrays};

use definitions::{Args, Checked, Routine, Scalar, SolveEnd};

// What the answer of the check means for the output, and what is to be handed back.
fn answered(answer: Checked, a: &[f64], b: &[f64], out: &mut [f64], w: usize, r: usize) -> SolveEnd
    requires by_index { (e : ℕ) → answer ≡ Refused e → e ≤ 30 }
    requires fits_arrays { (k : CallOf) → answer ≡ Ready k → FitsArrays k (length a.now) (length b.now) (length out.old) × (0 < w) × (w ≤ 64) × (0 < r) × (r ≤ 64) }
    ensures { (result.number ≡ Check.number answer) × (out.new ≡ Check.leaves answer a.now b.now out.old)
        × (result.zero ≡ Check.reports answer a.now) }
{
    match answer {
        Checked::Refused(number) => SolveEnd {
            number: number as i32,
            zero: -1,
        },
        Checked::Idle => SolveEnd {
            number: 0,
            zero: -1,
        },
        Checked::Ready(call) => SolveEnd {
            number: 0,
            zero: strips::complete(call, a, b, out, w, r),
        },
    }
}

// The direct call of the arguments: b is the B that is only read, and out is the output.
fn direct(w: i32, r: i32, g: Args, a: &[f64], b: &[f64], out: &mut [f64]) -> SolveEnd
    requires { (g.lena ≡ length a.now) × (g.lenb ≡ (if Calls.in_place g.routine then length out.old else length b.now)) × (g.lenc ≤ length out.old) }
    ensures { (result ≡ (Direct.solved w r g a.now b.now out.old).end) × (out.new ≡ (Direct.solved w r g a.now b.now out.old).array) }
{
    let answer = arguments::check(w, r, g);
    answered(answer, a, b, out, arguments::width(w), arguments::width(r))
}

// GEMM: C becomes alpha op(A) op(B) + beta C. 0, or the number of a refusal.
pub fn gemm(
    transa: i32,
    transb: i32,
    m: i32,
    n: i32,
    k: i32,
    alpha: f64,
    a: &[f64],
    lda: i32,
    b: &[f64],
    ldb: i32,
    beta: f64,
    c: &mut [f64],
    ldc: i32,
    w: i32,
    r: i32,
) -> i32
    ensures { (result ≡ (Direct.gemm transa transb m n k alpha a.now lda b.now ldb beta c.old ldc w r).number)
        × (c.new ≡ (Direct.gemm transa transb m n k alpha a.now lda b.now ldb beta c.old ldc w r).array) }
{
    let g = Args {
        routine: Routine::Gemm,
        transa,
        transb,
        m,
        n,
        k,
        alpha: Scalar::from(alpha),
        beta: Scalar::from(beta),
        lda,
        ldb,
        ldc,
        lena: a.len(),
        lenb: b.len(),
        lenc: c.len(),
        ..Args::NONE
    };
    direct(w, r, g, a, b, c).number
}

// SYMM: C becomes alpha A B + beta C (side L) or alpha B A + beta C (side R), A symmetric.
pub fn symm(
    side: i32,
    uplo: i32,
    m: i32,
    n: i32,
    alpha: f64,
    a: &[f64],
    lda: i32,
    b: &[f64],
    ldb: i32,
    beta: f64,
    c: &mut [f64],
    ldc: i32,
    w: i32,
    r: i32,
) -> i32
    ensures { (result ≡ (Direct.symm side uplo m n alpha a.now lda b.now ldb beta c.old ldc w r).number)
        × (c.new ≡ (Direct.symm side uplo m n alpha a.now lda b.now ldb beta c.old ldc w r).array) }
{
    let g = Args {
        routine: Routine::Symm,
        side,
        uplo,
        m,
        n,
        alpha: Scalar::from(alpha),
        beta: Scalar::from(beta),
        lda,
        ldb,
        ldc,
        lena: a.len(),
        lenb: b.len(),
        lenc: c.len(),
        ..Args::NONE
    };
    direct(w, r, g, a, b, c).number
}

// SYRK: triangle uplo of C, diagonal included, becomes that of alpha op(A) op(A)T + beta C. It has no B.
pub fn syrk(
    uplo: i32,
    trans: i32,
    n: i32,
    k: i32,
    alpha: f64,
    a: &[f64],
    lda: i32,
    beta: f64,
    c: &mut [f64],
    ldc: i32,
    w: i32,
    r: i32,
) -> i32
    ensures { (result ≡ (Direct.syrk uplo trans n k alpha a.now lda beta c.old ldc w r).number)
        × (c.new ≡ (Direct.syrk uplo trans n k alpha a.now lda beta c.old ldc w r).array) }
{
    let g = Args {
        routine: Routine::Syrk,
        uplo,
        transa: trans,
        n,
        k,
        alpha: Scalar::from(alpha),
        beta: Scalar::from(beta),
        lda,
        ldc,
        lena: a.len(),
        lenc: c.len(),
        ..Args::NONE
    };
    direct(w, r, g, a, &[], c).number
}

// SYR2K: triangle uplo of C, diagonal included, becomes that of alpha op(A) op(B)T + alpha op(B) op(A)T + beta C.
pub fn syr2k(
    uplo: i32,
    trans: i32,
    n: i32,
    k: i32,
    alpha: f64,
    a: &[f64],
    lda: i32,
    b: &[f64],
    ldb: i32,
    beta: f64,
    c: &mut [f64],
    ldc: i32,
    w: i32,
    r: i32,
) -> i32
    ensures { (result ≡ (Direct.syr2k uplo trans n k alpha a.now lda b.now ldb beta c.old ldc w r).number)
        × (c.new ≡ (Direct.syr2k uplo trans n k alpha a.now lda b.now ldb beta c.old ldc w r).array) }
{
    let g = Args {
        routine: Routine::Syr2k,
        uplo,
        transa: trans,
        n,
        k,
        alpha: Scalar::from(alpha),
        beta: Scalar::from(beta),
        lda,
        ldb,
        ldc,
        lena: a.len(),
        lenb: b.len(),
        lenc: c.len(),
        ..Args::NONE
    };
    direct(w, r, g, a, b, c).number
}

// TRMM: B becomes alpha op(A) B (side L) or alpha B op(A) (side R), A triangular. It has no C.
pub fn trmm(
    side: i32,
    uplo: i32,
    transa: i32,
    diag: i32,
    m: i32,
    n: i32,
    alpha: f64,
    a: &[f64],
    lda: i32,
    b: &mut [f64],
    ldb: i32,
    w: i32,
    r: i32,
) -> i32
    ensures { (result ≡ (Direct.trmm side uplo transa diag m n alpha a.now lda b.old ldb w r).number) × (b.new ≡ (Direct.trmm side uplo transa diag m n alpha a.now lda b.old ldb w r).array) }
{
    let g = Args {
        routine: Routine::Trmm,
        side,
        uplo,
        transa,
        diag,
        m,
        n,
        alpha: Scalar::from(alpha),
        lda,
        ldb,
        lena: a.len(),
        lenb: b.len(),
        ..Args::NONE
    };
    direct(w, r, g, a, &[], b).number
}

// TRSM: B becomes X with op(A) X = alpha B (side L) or X op(A) = alpha B (side R), A triangular. It has no C. It also hands back the lowest
// diagonal index at which A is zero, or -1.
pub fn trsm(
    side: i32,
    uplo: i32,
    transa: i32,
    diag: i32,
    m: i32,
    n: i32,
    alpha: f64,
    a: &[f64],
    lda: i32,
    b: &mut [f64],
    ldb: i32,
    w: i32,
    r: i32,
) -> SolveEnd
    ensures { (result ≡ (Direct.trsm side uplo transa diag m n alpha a.now lda b.old ldb w r).end) × (b.new ≡ (Direct.trsm side uplo transa diag m n alpha a.now lda b.old ldb w r).array) }
{
    let g = Args {
        routine: Routine::Trsm,
        side,
        uplo,
        transa,
        diag,
        m,
        n,
        alpha: Scalar::from(alpha),
        lda,
        ldb,
        lena: a.len(),
        lenb: b.len(),
        ..Args::NONE
    };
    direct(w, r, g, a, &[], b)
}
