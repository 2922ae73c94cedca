// SYRK and SYR2K: the update of one strip. Only the strip's part of one triangle of C, diagonal included, is read or written.
#![tactic(auto)]

ghost use Rattle.std.specs.Prelude.{◌≡◌, ◌+◌, ◌*◌, ◌≤◌, ◌<◌, length};
ghost use Rattle.arrays.specs.Update.{update, entries, only, trapezoid};
ghost use Rattle.definitions.specs.Number.{start};
ghost use Rattle.definitions.specs.Element.{StripOf};
ghost use Rattle.definitions.specs.declared.Routine.TheVariants.{Syrk, Syr2k};
ghost use Rattle.definitions.proofs.Fits.{Fits};
ghost use Rattle.triangles.specs.Part.{part_of};
ghost use Rattle.rank_update.specs.Options.{is_lower, transposed_form};

use definitions::{Call, Scalar, Transpose, Triangle};
use direct::Product;
use packing::Form;
use packing::factor::Factor;
use triangles::Part;

fn is_lower(t: Triangle) -> bool
    ensures { result ≡ is_lower t }
{
    match t {
        Triangle::Lower => true,
        Triangle::Upper => false,
    }
}

// The transpose of op(A): A is read the other way round.
fn transposed_form(t: Transpose) -> Form
    ensures { result ≡ transposed_form t }
{
    match t {
        Transpose::No => Form::Transposed,
        Transpose::Yes => Form::Plain,
    }
}

// The start in some columns of a triangle: column g of C from the diagonal down, or from the top to the diagonal.
fn start_part(c: &mut [f64], part: Part, beta: Scalar)
    requires { (0 < part.n) × (part.n ≤ part.ld) × (part.cols * part.ld + part.n ≤ length c.old + part.ld) × (part.from + part.cols ≤ part.n) }
    ensures { c.new ≡ update (part_of part (λ i j x. start beta x)) c.old }
{
    for j in 0..part.cols {
        let g = part.from + j;
        let top = arrays::pick(part.lower, g, 0);
        let rows = arrays::pick(part.lower, part.n - g, g + 1);
        let x = j * part.ld + top;
        start::column(&mut c[x..], rows, beta);
    }
}

// The same for a strip of a call.
fn start_strip(call: Call, lower: bool, c: &mut [f64], from: usize, cols: usize)
    requires { (0 < call.n) × (call.n ≤ call.ldc) × (cols * call.ldc + call.n ≤ length c.old + call.ldc) × (from + cols ≤ call.n) }
    ensures { c.new ≡ update (entries call.ldc (only (trapezoid lower from call.n cols) (λ i j x. start call.beta x))) c.old }
{
    let part = Part {
        lower,
        ld: call.ldc as usize,
        n: call.n as usize,
        from,
        cols,
    };
    start_part(c, part, call.beta);
}

// SYRK's strip of `cols` columns from column `from` on: c is the part of C that starts there, and blocks are of r rows, columns and terms.
pub fn syrk_strip(
    call: Call,
    a: &[f64],
    b: &[f64],
    c: &mut [f64],
    from: usize,
    cols: usize,
    r: usize,
)
    requires fits { Fits Syrk call (length a.now) (length b.now) (from * call.ldc + length c.old) }
    requires cols_nonzero { (0 < cols) × (cols ≤ 256) × (from + cols ≤ call.n) × (0 < r) × (r ≤ 64) }
    ensures { StripOf call a.now b.now from (from + cols) (from * call.ldc) c.old c.new }
{
    let lower = is_lower(call.uplo);
    let p = forms::op_form(call.transa);
    let q = transposed_form(call.transa);
    start_strip(call, lower, c, from, cols);
    if call.alpha.is_zero() {
        return;
    }
    let part = Part {
        lower,
        ld: call.ldc as usize,
        n: call.n as usize,
        from,
        cols,
    };
    let lda = call.lda as usize;
    let product = Product {
        left: Factor {
            form: p,
            cells: a,
            ld: lda,
        },
        right: Factor {
            form: q,
            cells: a,
            ld: lda,
        },
        terms: call.k as usize,
        alpha: call.alpha.factor(),
    };
    triangles::trapezoid(c, part, product, r);
}

// SYR2K's: all terms of op(A) times the transpose of op(B), then all of op(B) times the transpose of op(A).
pub fn syr2k_strip(
    call: Call,
    a: &[f64],
    b: &[f64],
    c: &mut [f64],
    from: usize,
    cols: usize,
    r: usize,
)
    requires fits { Fits Syr2k call (length a.now) (length b.now) (from * call.ldc + length c.old) }
    requires cols_nonzero { (0 < cols) × (cols ≤ 256) × (from + cols ≤ call.n) × (0 < r) × (r ≤ 64) }
    ensures { StripOf call a.now b.now from (from + cols) (from * call.ldc) c.old c.new }
{
    let lower = is_lower(call.uplo);
    let p = forms::op_form(call.transa);
    let q = transposed_form(call.transa);
    start_strip(call, lower, c, from, cols);
    if call.alpha.is_zero() {
        return;
    }
    let part = Part {
        lower,
        ld: call.ldc as usize,
        n: call.n as usize,
        from,
        cols,
    };
    let lda = call.lda as usize;
    let ldb = call.ldb as usize;
    let terms = call.k as usize;
    let alpha = call.alpha.factor();
    let ab = Product {
        left: Factor {
            form: p,
            cells: a,
            ld: lda,
        },
        right: Factor {
            form: q,
            cells: b,
            ld: ldb,
        },
        terms,
        alpha,
    };
    let ba = Product {
        left: Factor {
            form: p,
            cells: b,
            ld: ldb,
        },
        right: Factor {
            form: q,
            cells: a,
            ld: lda,
        },
        terms,
        alpha,
    };
    triangles::trapezoid(c, part, ab, r);
    triangles::trapezoid(c, part, ba, r);
}
