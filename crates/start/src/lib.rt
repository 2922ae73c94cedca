// What the sums of a routine that has beta start with, by the cases of beta.
#![tactic(auto)]

ghost use Rattle.std.specs.Prelude.{◌≡◌, ◌+◌, ◌*◌, ◌≤◌, ◌<◌, length};
ghost use Rattle.arrays.specs.Area.{AreaRoom};
ghost use Rattle.arrays.specs.Update.{update, below, region};
ghost use Rattle.definitions.specs.Number.{start};

use arrays::Area;
use definitions::Scalar;

// The elements below n.
pub fn column(c: &mut [f64], n: usize, beta: Scalar)
    requires { n ≤ length c.old }
    ensures { c.new ≡ update (below n (λ i x. start beta x)) c.old }
{
    match beta {
        Scalar::Zero => blocks::pass::clear_column(c, n),
        Scalar::One => {}
        Scalar::Other(b) => blocks::pass::scale_column(c, n, b),
    }
}

// The entries of an area.
pub fn region(c: &mut [f64], area: Area, beta: Scalar)
    requires { AreaRoom area (length c.old) }
    ensures { c.new ≡ update (region area.ld area.rows area.cols (λ i j x. start beta x)) c.old }
{
    match beta {
        Scalar::Zero => blocks::pass::clear(c, area),
        Scalar::One => {}
        Scalar::Other(b) => blocks::pass::scale(c, area, b),
    }
}
