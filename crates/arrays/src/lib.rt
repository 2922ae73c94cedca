// Arrays that are updated in place, and folds over the terms of an element: the definitions are in specs/, their laws in proofs/. The code is a choice between
// indices, and indices in pieces.
#![tactic(auto)]

pub mod pieces;

ghost use Rattle.std.specs.Prelude.{◌≡◌, if◌then◌else◌};

// Some rows and columns of a matrix, in an array with this leading dimension.
#[derive(Clone, Copy)]
pub struct Area {
    pub ld: usize,
    pub rows: usize,
    pub cols: usize,
}

// The first if the test holds, else the second.
pub fn pick(test: bool, x: usize, y: usize) -> usize
    ensures { result ≡ (if test then x else y) }
{
    if test { x } else { y }
}
