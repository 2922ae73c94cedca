// The places of a factor's entries, and the order in which its terms are taken.
ghost use Rattle.std.specs.Prelude.{◌≡◌, ◌+◌, ◌<◌};
ghost use Rattle.packing.specs.Factor.{Indices, index_of, along, turn};

use super::Form;

// A factor of a product, as an array holds it: in a form, with a leading dimension.
#[derive(Clone, Copy)]
pub struct Factor<'a> {
    pub form: Form,
    pub cells: &'a [f64],
    pub ld: usize,
}

// Indices from one on, up or down.
#[derive(Clone, Copy)]
pub struct Run {
    pub from: usize,
    pub down: bool,
}

// The place of entry (i, j) in an array that holds a factor in a form.
pub fn place(form: Form, ld: usize, i: usize, j: usize) -> usize
    requires { index_of form ld i j < 18446744073709551616 }
    ensures { result ≡ index_of form ld i j }
{
    match form {
        Form::Plain => j * ld + i,
        Form::Transposed => i * ld + j,
        Form::Lower => { if j <= i { j * ld + i } else { i * ld + j } }
        Form::Upper => { if i <= j { j * ld + i } else { i * ld + j } }
    }
}

impl Run {
    // The q-th of them.
    pub fn index(self, q: usize) -> usize
        requires { Indices self.down self.from (q + 1) }
        ensures { result ≡ along self.down self.from q }
    {
        if self.down {
            self.from - q
        } else {
            self.from + q
        }
    }
}

// The index of the term that comes q-th of k.
pub fn turn_of(down: bool, k: usize, q: usize) -> usize
    requires { q < k }
    ensures { (result ≡ turn down k q) × (result < k) }
{
    if down { k - 1 - q } else { q }
}
