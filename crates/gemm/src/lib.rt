// GEMM and SYMM: the update of one strip. The two differ in how the kernel reads their factors.
#![tactic(auto)]

ghost use Rattle.std.specs.Prelude.{◌≡◌, false, ℕ, ◌+◌, ◌*◌, ◌≤◌, ◌<◌, length};
ghost use Rattle.arrays.specs.Area.{SomeRoom};
ghost use Rattle.arrays.specs.Update.{update, region};
ghost use Rattle.definitions.specs.Number.{is_zero};
ghost use Rattle.definitions.specs.Element.{StripOf};
ghost use Rattle.definitions.specs.declared.Routine.TheVariants.{Gemm, Symm};
ghost use Rattle.definitions.proofs.Fits.{Fits};
ghost use Rattle.packing.specs.Factor.{index_of, matrix_of};
ghost use Rattle.direct.specs.Product.{from_column};
ghost use Rattle.gemm.specs.Sum.{summed};

use arrays::Area;
use definitions::{Call, Scalar, Side};
use direct::Product;
use packing::Form;
use packing::factor::Factor;

// The start in an area of c, and unless alpha is zero all k terms of alpha times the left factor times the right one, whose columns are those from `from` on.
fn accumulate(
    alpha: Scalar,
    beta: Scalar,
    c: &mut [f64],
    area: Area,
    left: Factor,
    right: Factor,
    k: usize,
    from: usize,
    r: usize,
)
    requires room { SomeRoom area (length c.old) }
    requires cols_bound { (area.cols ≤ 256) × (0 < r) × (r ≤ 64) × (from + area.cols < 18446744073709551616) }
    requires l_in_bounds { (is_zero alpha ≡ false → (i l : ℕ) → i < area.rows → l < k → index_of left.form left.ld i l < length left.cells.now) × (is_zero alpha ≡ false → (l j : ℕ) → l < k → j < area.cols → index_of right.form right.ld l (from + j) < length right.cells.now) }
    ensures { c.new ≡ update (region area.ld area.rows area.cols (summed alpha beta (matrix_of left.entry) (from_column from (matrix_of right.entry)) k)) c.old }
{
    start::region(c, area, beta);
    if alpha.is_zero() {
        return;
    }
    let p = Product {
        left,
        right,
        terms: k,
        alpha: alpha.factor(),
    };
    kernel::multiply(c, area, p, 0, from, false, r);
}

// GEMM's strip of `cols` columns from column `from` on: c is the part of C that starts there, and blocks are of r rows and r terms.
pub fn gemm_strip(
    call: Call,
    a: &[f64],
    b: &[f64],
    c: &mut [f64],
    from: usize,
    cols: usize,
    r: usize,
)
    requires fits { Fits Gemm call (length a.now) (length b.now) (from * call.ldc + length c.old) }
    requires cols_nonzero { (0 < cols) × (cols ≤ 256) × (from + cols ≤ call.n) × (0 < r) × (r ≤ 64) }
    ensures { StripOf call a.now b.now from (from + cols) (from * call.ldc) c.old c.new }
{
    let fa = forms::op_form(call.transa);
    let fb = forms::op_form(call.transb);
    let area = Area {
        ld: call.ldc as usize,
        rows: call.m as usize,
        cols,
    };
    let left = Factor {
        form: fa,
        cells: a,
        ld: call.lda as usize,
    };
    let right = Factor {
        form: fb,
        cells: b,
        ld: call.ldb as usize,
    };
    let k = call.k as usize;
    accumulate(call.alpha, call.beta, c, area, left, right, k, from, r);
}

// SYMM's: the symmetric A is the left factor for side L and the right one for side R.
pub fn symm_strip(
    call: Call,
    a: &[f64],
    b: &[f64],
    c: &mut [f64],
    from: usize,
    cols: usize,
    r: usize,
)
    requires fits { Fits Symm call (length a.now) (length b.now) (from * call.ldc + length c.old) }
    requires cols_nonzero { (0 < cols) × (cols ≤ 256) × (from + cols ≤ call.n) × (0 < r) × (r ≤ 64) }
    ensures { StripOf call a.now b.now from (from + cols) (from * call.ldc) c.old c.new }
{
    let f = forms::mirrored_form(call.uplo);
    let m = call.m as usize;
    let n = call.n as usize;
    let area = Area {
        ld: call.ldc as usize,
        rows: m,
        cols,
    };
    let symmetric = Factor {
        form: f,
        cells: a,
        ld: call.lda as usize,
    };
    let plain = Factor {
        form: Form::Plain,
        cells: b,
        ld: call.ldb as usize,
    };
    let alpha = call.alpha;
    let beta = call.beta;
    match call.side {
        Side::Left => accumulate(alpha, beta, c, area, symmetric, plain, m, from, r),
        Side::Right => accumulate(alpha, beta, c, area, plain, symmetric, n, from, r),
    }
}
