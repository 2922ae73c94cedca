// One pass over a column, cleared, scaled or divided, or over an area, cleared or scaled.
ghost use Rattle.std.specs.Prelude.{◌≡◌, ◌+◌, ◌*◌, ◌≤◌, ◌<◌, length, Float};
ghost use Rattle.std.specs.Float.Ieee as Ieee;
ghost use Rattle.arrays.specs.Area.{AreaRoom};
ghost use Rattle.arrays.specs.Update.{update, below, region};
ghost use Rattle.floats.specs.Operations.{◌⊗◌, ◌⊘◌, 0f};

use arrays::Area;

// Each element below n becomes what f makes of it.
fn each<F: Fn(f64) -> f64>(c: &mut [f64], n: usize, f: &F)
    requires callable { F.IsAlwaysCallable f.now }
    requires fits { n ≤ length c.old }
    ensures { (g : Float → Float) → ((x r : Float) → F.post f.now x r → r ≡ g x) → c.new ≡ update (below n (λ i x. g x)) c.old }
{
    for i in 0..n {
        c[i] = f(c[i]);
    }
}

// Each entry of an area becomes what f makes of it.
fn each_entry<F: Fn(f64) -> f64>(c: &mut [f64], area: Area, f: &F)
    requires callable { F.IsAlwaysCallable f.now }
    requires fits { AreaRoom area (length c.old) }
    ensures { (g : Float → Float) → ((x r : Float) → F.post f.now x r → r ≡ g x) → c.new ≡ update (region area.ld area.rows area.cols (λ i j x. g x)) c.old }
{
    for j in 0..area.cols {
        each(&mut c[j * area.ld..], area.rows, f);
    }
}

// +0.0 in each element below n.
pub fn clear_column(c: &mut [f64], n: usize)
    requires { n ≤ length c.old }
    ensures { c.new ≡ update (below n (λ i x. 0f)) c.old }
{
    each(c, n, &|_| 0.0);
}

// s times each element below n.
pub fn scale_column(c: &mut [f64], n: usize, s: f64)
    requires { n ≤ length c.old }
    ensures { c.new ≡ update (below n (λ i x. s ⊗ x)) c.old }
{
    each(c, n, &|x| s * x);
}

// Each element below n divided by d. It hands back whether d is zero.
pub fn divide_column(c: &mut [f64], n: usize, d: f64) -> bool
    requires { n ≤ length c.old }
    ensures { (c.new ≡ update (below n (λ i x. x ⊘ d)) c.old) × (result ≡ Ieee.eq d 0f) }
{
    each(c, n, &|x| x / d);
    d == 0.0
}

// +0.0 in each entry of an area.
pub fn clear(c: &mut [f64], area: Area)
    requires { AreaRoom area (length c.old) }
    ensures { c.new ≡ update (region area.ld area.rows area.cols (λ i j x. 0f)) c.old }
{
    each_entry(c, area, &|_| 0.0);
}

// s times each entry of an area.
pub fn scale(c: &mut [f64], area: Area, s: f64)
    requires { AreaRoom area (length c.old) }
    ensures { c.new ≡ update (region area.ld area.rows area.cols (λ i j x. s ⊗ x)) c.old }
{
    each_entry(c, area, &|x| s * x);
}
