// One strip of a call of any of the six routines, and all of them.
#![tactic(auto)]

ghost use Rattle.std.specs.Prelude.{◌≡◌, ◌+◌, ◌≤◌, ◌<◌, length};
ghost use Rattle.definitions.specs.Call as Calls;
ghost use Rattle.definitions.specs.Element as Element;
ghost use Rattle.strips.specs.Lengths.{FitsArrays, widest};

use definitions::{Call, Routine};

// The strip of `lines` columns from `from` on, or rows where strips cut rows, of a call that fits, in blocks of r. A solve hands back the lowest diagonal index at
// which A is zero; where there is none, and for the other routines, it is -1, as C gets it and the definition `zero_of` says.
pub fn strip(
    call: Call,
    a: &[f64],
    b: &[f64],
    out: &mut [f64],
    from: usize,
    lines: usize,
    r: usize,
) -> i32
    requires fits_arrays { FitsArrays call (length a.now) (length b.now) (length out.old) }
    requires lines_nonzero { (0 < lines) × (lines ≤ widest call.routine) × (from + lines ≤ Calls.extent call) × (0 < r) × (r ≤ 64) }
    ensures { (out.new ≡ Element.strip call a.now b.now from (from + lines) out.old)
        × (result ≡ Element.zero_of call.routine call a.now) }
{
    let x = arguments::strip_start(call, from);
    let part = &mut out[x..];
    match call.routine {
        Routine::Gemm => gemm::gemm_strip(call, a, b, part, from, lines, r),
        Routine::Symm => gemm::symm_strip(call, a, b, part, from, lines, r),
        Routine::Syrk => rank_update::syrk_strip(call, a, b, part, from, lines, r),
        Routine::Syr2k => rank_update::syr2k_strip(call, a, b, part, from, lines, r),
        Routine::Trmm => trmm::trmm_strip(call, a, part, from, lines, r),
        Routine::Trsm => return trsm::trsm_strip(call, a, part, from, lines, r),
    }
    -1
}

// How many columns, or rows, of a call go through its routine at once: four strips of w where that packs a block of A once for all of them.
fn at_once(routine: Routine, w: usize) -> usize
    requires { (0 < w) × (w ≤ 64) }
    ensures { (0 < result) × (result ≤ widest routine) }
{
    match routine {
        Routine::Gemm | Routine::Symm | Routine::Syrk | Routine::Syr2k => 4 * w,
        Routine::Trmm | Routine::Trsm => w,
    }
}

// All strips of a call that fits, as many of them at once as its routine takes. It hands back what the last ones report, which is what each of them does.
pub fn complete(call: Call, a: &[f64], b: &[f64], out: &mut [f64], w: usize, r: usize) -> i32
    requires fits_arrays { FitsArrays call (length a.now) (length b.now) (length out.old) }
    requires w_nonzero { (0 < w) × (w ≤ 64) × (0 < r) × (r ≤ 64) }
    ensures { (out.new ≡ Element.result call a.now b.now out.old) × (result ≡ Element.zero_of call.routine call a.now) }
{
    let d = arguments::extent(call);
    let most = at_once(call.routine, w);
    let mut zero = -1;
    for from in (0..d).step_by(most) {
        let lines = most.min(d - from);
        zero = strip(call, a, b, out, from, lines, r);
    }
    zero
}
