// The options, the scalars and the call of document 01, and the answers of the argument check and of a run. What they mean is in specs/.
#![tactic(auto)]

ghost use Rattle.std.specs.Prelude.{◌≡◌};
ghost use Rattle.definitions.specs.Number as Number;

#[derive(Clone, Copy, PartialEq, Eq)]
pub enum Routine {
    Gemm,
    Symm,
    Syrk,
    Syr2k,
    Trmm,
    Trsm,
}

#[derive(Clone, Copy, PartialEq, Eq)]
pub enum Side {
    Left,
    Right,
}

#[derive(Clone, Copy, PartialEq, Eq)]
pub enum Triangle {
    Lower,
    Upper,
}

#[derive(Clone, Copy, PartialEq, Eq)]
pub enum Transpose {
    No,
    Yes,
}

#[derive(Clone, Copy, PartialEq, Eq)]
pub enum Diagonal {
    Unit,
    Nonunit,
}

// The three cases of alpha or beta.
#[derive(Clone, Copy)]
pub enum Scalar {
    Zero,
    One,
    Other(f64),
}

// The arguments of a call but for w and r, as they are given, with the lengths of the arrays. Those that the routine lacks are not read.
#[derive(Clone, Copy)]
pub struct Args {
    pub routine: Routine,
    pub side: i32,
    pub uplo: i32,
    pub transa: i32,
    pub transb: i32,
    pub diag: i32,
    pub m: i32,
    pub n: i32,
    pub k: i32,
    pub alpha: Scalar,
    pub beta: Scalar,
    pub lda: i32,
    pub ldb: i32,
    pub ldc: i32,
    pub lena: usize,
    pub lenb: usize,
    pub lenc: usize,
}

// A call: its options beside its sizes. Those that the routine lacks are not read, but for m of SYRK and SYR2K, which is n.
#[derive(Clone, Copy)]
pub struct Call {
    pub routine: Routine,
    pub side: Side,
    pub uplo: Triangle,
    pub transa: Transpose,
    pub transb: Transpose,
    pub diag: Diagonal,
    pub m: u32,
    pub n: u32,
    pub k: u32,
    pub alpha: Scalar,
    pub beta: Scalar,
    pub lda: u32,
    pub ldb: u32,
    pub ldc: u32,
}

// The rows and columns that a matrix is stored with.
#[derive(Clone, Copy)]
pub struct Shape {
    pub rows: u32,
    pub cols: u32,
}

impl Args {
    // The arguments that a routine lacks: each counts as 0. The routine itself is always given.
    pub const NONE: Args = Args {
        routine: Routine::Gemm,
        side: 0,
        uplo: 0,
        transa: 0,
        transb: 0,
        diag: 0,
        m: 0,
        n: 0,
        k: 0,
        alpha: Scalar::Zero,
        beta: Scalar::Zero,
        lda: 0,
        ldb: 0,
        ldc: 0,
        lena: 0,
        lenb: 0,
        lenc: 0,
    };
}

// The answer of the argument check. (Three cases, so no Option or Result; the definition `checked` gives one of them.)
#[derive(Clone, Copy)]
pub enum Checked {
    Refused(u32),
    Idle,
    Ready(Call),
}

// What a solve hands back: 0 or its number, and the lowest diagonal index at which A is zero, or -1.
#[repr(C)]
#[derive(Clone, Copy)]
pub struct SolveEnd {
    pub number: i32,
    pub zero: i32,
}

// What a call of many right sides has beside the arguments of its GEMM, as they are given: how many there are, and the strides of their B and C.
#[derive(Clone, Copy)]
pub struct Items {
    pub count: i32,
    pub strideb: i32,
    pub stridec: i32,
}

// What such a call hands back: 0 or its number, and how many elements were copied.
#[repr(C)]
#[derive(Clone, Copy)]
pub struct ManyEnd {
    pub number: i32,
    pub copied: u64,
}

// What a run hands back: 0 or its number, the cursor, the steps made, and the first record whose solve had a zero on the diagonal, or -1.
#[repr(C)]
#[derive(Clone, Copy)]
pub struct RunEnd {
    pub number: i32,
    pub p: i32,
    pub s: i32,
    pub steps: u32,
    pub zero: i32,
}

// The case of alpha or beta.
impl From<f64> for Scalar {
    ghost from_gives = { λ x s. s ≡ Number.scalar x };

    fn from(x: f64) -> Scalar {
        if x == 0.0 {
            return Scalar::Zero;
        }
        if x == 1.0 {
            return Scalar::One;
        }
        Scalar::Other(x)
    }
}

impl Scalar {
    pub fn is_zero(self) -> bool
        ensures { result ≡ Number.is_zero self }
    {
        matches!(self, Scalar::Zero)
    }

    pub fn is_one(self) -> bool
        ensures { result ≡ Number.is_one self }
    {
        matches!(self, Scalar::One)
    }

    // The factor that the scalar stands for.
    pub fn factor(self) -> f64
        ensures { result ≡ Number.factor self }
    {
        match self {
            Scalar::Zero => 0.0,
            Scalar::One => 1.0,
            Scalar::Other(x) => x,
        }
    }
}
