// How the kernel reads the matrices of a call.
#![tactic(auto)]

ghost use Rattle.std.specs.Prelude.{◌≡◌};
ghost use Rattle.definitions.specs.Storage.{op_triangle};
ghost use Rattle.definitions.specs.Element.{solves_up};
ghost use Rattle.definitions.specs.declared.Side.TheVariants.{Left};
ghost use Rattle.forms.specs.Forms.{op_form, mirrored_form};

use definitions::{Transpose, Triangle};
use packing::Form;

// op(A), as an array holds A.
#[derive(Clone, Copy)]
pub struct Op<'a> {
    pub t: Transpose,
    pub cells: &'a [f64],
    pub ld: usize,
}

// op(A).
pub fn op_form(t: Transpose) -> Form
    ensures { result ≡ op_form t }
{
    match t {
        Transpose::No => Form::Plain,
        Transpose::Yes => Form::Transposed,
    }
}

// A symmetric A of which only one triangle is read.
pub fn mirrored_form(t: Triangle) -> Form
    ensures { result ≡ mirrored_form t }
{
    match t {
        Triangle::Lower => Form::Lower,
        Triangle::Upper => Form::Upper,
    }
}

// op(A), of which one triangle is stored, is lower.
pub fn op_lower(t: Transpose, uplo: Triangle) -> bool
    ensures { result ≡ solves_up Left (op_triangle t uplo) }
{
    match (t, uplo) {
        (Transpose::No, Triangle::Lower) => true,
        (Transpose::No, Triangle::Upper) => false,
        (Transpose::Yes, Triangle::Lower) => false,
        (Transpose::Yes, Triangle::Upper) => true,
    }
}
