// One A, not transposed, and many right sides. All items read one panel, A's columns without padding: A's own part where it is stored so, and otherwise a copy in the
// pack area. Each item is a GEMM of its own over that panel.
#![tactic(auto)]

ghost use Rattle.std.specs.Prelude.{◌≡◌, false, ◌++◌, ◌-◌, ◌*◌, ◌≤◌, ◌<◌, eqb, pos, length, take, drop, if◌then◌else◌};
ghost use Rattle.std.specs.Float.{nan};
ghost use Rattle.arrays.specs.Fold.{fold};
ghost use Rattle.arrays.specs.Update.{update, region};
ghost use Rattle.definitions.specs.Storage.{stored, needed};
ghost use Rattle.definitions.specs.Element as Element;
ghost use Rattle.definitions.specs.Check as Check;
ghost use Rattle.definitions.specs.Many as Many;
ghost use Rattle.many.specs.Panel.{panel_size, over_panel, EachFits, Prepared, OfLast};
ghost use Rattle.arguments.specs.Refusal.{Gives};
ghost use Rattle.strips.specs.Lengths.{FitsArrays};

use arguments::Refusal;
use definitions::{Args, Call, Items, ManyEnd, Routine, Scalar};

// How many items there are, and the strides of their B and C.
#[derive(Clone, Copy)]
struct Strides {
    count: u32,
    b: u32,
    c: u32,
}

// ---- the check

// The elements that an array has from its last item on.
fn from_last(len: usize, stride: i32, count: i32) -> usize
    ensures { result ≡ Many.from_last len stride count }
{
    let before = (arguments::size(count) as usize).saturating_sub(1);
    len.saturating_sub(before * (arguments::size(stride) as usize))
}

// A count that is not 0 to 1,000.
fn bad_count(count: i32) -> bool
    ensures { result ≡ Many.bad_count count }
{
    let n = arguments::size(count);
    arguments::negative(count) | (1000 < n)
}

// A negative stride, or one of C below the needed length of C.
fn bad_stride(c: Call, t: Items) -> bool
    ensures { result ≡ Many.bad_stride c t }
{
    let stride = arguments::size(t.stridec) as usize;
    let shape = arguments::shape_c(c);
    let short = arguments::short(stride, c.ldc, shape);
    arguments::negative(t.strideb) | arguments::negative(t.stridec) | short
}

// The elements of the panel.
fn panel_size(c: Call) -> usize
    ensures { result ≡ panel_size c }
{
    if arguments::untested(c) {
        return 0;
    }
    (c.m as usize) * (c.k as usize)
}

// The elements that are copied: those of the panel, unless A's own part is the panel.
fn copied(c: Call, count: u32) -> usize
    ensures { result ≡ Many.copied c count }
{
    if count == 0 || c.lda == c.m {
        return 0;
    }
    panel_size(c)
}

// The tests in turn.
fn test(w: i32, r: i32, g: Args, c: Call, t: Items, pack: usize) -> Result<(), Refusal>
    requires { c ≡ Check.call_of g }
    ensures { Gives (Many.refusal w r g t pack) result }
{
    if arguments::bad_width(w) || arguments::bad_width(r) {
        return Err(Refusal { number: 30 });
    }
    arguments::test_words(g, c)?;
    if bad_count(t.count) {
        return Err(Refusal { number: 42 });
    }
    if bad_stride(c, t) {
        return Err(Refusal { number: 43 });
    }
    let count = arguments::size(t.count);
    if count == 0 {
        return Ok(());
    }
    arguments::test_arrays(g, c)?;
    if pack < copied(c, count) {
        return Err(Refusal { number: 44 });
    }
    Ok(())
}

// ---- the panel

// The first k columns of A, of m elements each, one after the other.
fn pack_columns(pack: &mut [f64], a: &[f64], m: usize, k: usize, lda: usize)
    requires { (0 < m) × (m ≤ lda) × (k * m ≤ length pack.old) × (needed lda m k ≤ length a.now) }
    ensures { pack.new ≡ update (region m m k (λ i l _. stored nan a.now lda i l)) pack.old }
{
    for l in 0..k {
        packing::runs::copy(&mut pack[l * m..], m, &a[l * lda..]);
    }
}

// The n elements that are copied, if any.
fn fill(pack: &mut [f64], a: &[f64], call: Call, n: usize)
    requires { (0 < n → (n ≡ call.m * call.k) × (0 < call.m) × (call.m ≤ call.lda) × (needed call.lda call.m call.k ≤ length a.now)) × (n ≤ length pack.old) }
    ensures { pack.new ≡ Many.packed call a.now n pack.old }
{
    if n == 0 {
        return;
    }
    pack_columns(pack, a, call.m as usize, call.k as usize, call.lda as usize);
}

// The panel is a part of A, or of the pack area.
fn panel<'a>(own: bool, a: &'a [f64], pack: &'a [f64], size: usize) -> &'a [f64]
    requires { size ≤ length (if own then a.now else pack.now) }
    ensures { result.now ≡ take size (if own then a.now else pack.now) }
{
    if own {
        return &a[..size];
    }
    &pack[..size]
}

// The call with the panel for its A.
fn over_panel(c: Call) -> Call
    ensures { result ≡ over_panel c }
{
    Call { lda: c.m, ..c }
}

// ---- the items

// The item whose B is from `fromb` on, and its C from `fromc` on. A B that is not read may end before.
fn item(
    call: Call,
    a: &[f64],
    b: &[f64],
    c: &mut [f64],
    fromb: usize,
    fromc: usize,
    w: usize,
    r: usize,
)
    requires fromc_in_bounds { (fromc ≤ length c.old) × FitsArrays call (length a.now) (length b.now - fromb) (length c.old - fromc) }
    requires w_nonzero { (0 < w) × (w ≤ 64) × (0 < r) × (r ≤ 64) }
    ensures { c.new ≡ take fromc c.old ++ Element.result call a.now (drop fromb b.now) (drop fromc c.old) }
{
    let x = fromb.min(b.len());
    strips::complete(call, a, &b[x..], &mut c[fromc..], w, r);
}

// All items in turn.
fn items(call: Call, a: &[f64], b: &[f64], c: &mut [f64], s: Strides, w: usize, r: usize)
    requires each_fits { EachFits call (length a.now) (length b.now) (length c.old) s.b s.c s.count }
    requires w_nonzero { (0 < w) × (w ≤ 64) × (0 < r) × (r ≤ 64) }
    ensures { c.new ≡ fold (Many.item (Element.result call a.now) s.b s.c b.now) s.count c.old }
{
    for i in 0..s.count {
        let fromb = (i as usize) * (s.b as usize);
        let fromc = (i as usize) * (s.c as usize);
        item(call, a, b, c, fromb, fromc, w, r);
    }
}

// All items of a call that has some and is not idle, over the panel.
fn all<'a>(
    call: Call,
    own: bool,
    a: &'a [f64],
    pack: &'a [f64],
    b: &[f64],
    c: &mut [f64],
    s: Strides,
    w: usize,
    r: usize,
)
    requires prepared { (0 < s.count) → Check.idle call ≡ false → Prepared call own a.now pack.now (length b.now) (length c.old) s.b s.c s.count }
    requires w_nonzero { (0 < w) × (w ≤ 64) × (0 < r) × (r ≤ 64) }
    ensures { c.new ≡ fold (Many.item (Element.result call a.now) s.b s.c b.now) s.count c.old }
{
    if s.count == 0 || arguments::is_idle(call) {
        return;
    }
    let p = panel(own, a, pack, panel_size(call));
    items(over_panel(call), p, b, c, s, w, r);
}

// ---- the call

// What a call does whose arguments are those of the last item's GEMM.
fn run(
    w: i32,
    r: i32,
    g: Args,
    t: Items,
    a: &[f64],
    b: &[f64],
    c: &mut [f64],
    pack: &mut [f64],
) -> ManyEnd
    requires { OfLast g t (length a.now) (length b.now) (length c.old) }
    ensures { (result.number ≡ pos (Many.refusal w r g t (length pack.old))) × (result.copied ≡ Many.copied_by w r g t (length pack.old))
        × (c.new ≡ (if eqb (Many.refusal w r g t (length pack.old)) 0
        then fold (Many.item (Element.result (Check.call_of g) a.now) (Check.nat t.strideb) (Check.nat t.stridec) b.now) (Check.nat t.count) c.old
        else c.old))
        × (pack.new ≡ Many.packed (Check.call_of g) a.now (Many.copied_by w r g t (length pack.old)) pack.old) }
{
    let call = arguments::call_of(g);
    if let Err(refusal) = test(w, r, g, call, t, pack.len()) {
        return ManyEnd {
            number: refusal.number as i32,
            copied: 0,
        };
    }
    let s = Strides {
        count: arguments::size(t.count),
        b: arguments::size(t.strideb),
        c: arguments::size(t.stridec),
    };
    let n = copied(call, s.count);
    fill(pack, a, call, n);
    all(
        call,
        n == 0,
        a,
        pack,
        b,
        c,
        s,
        arguments::width(w),
        arguments::width(r),
    );
    ManyEnd {
        number: 0,
        copied: n as u64,
    }
}

// One A, m by k and not transposed, times each B, which is k by n as op(B), added to beta times its own C. It hands back 0 or the number of a refusal, and how many elements
// were copied to the pack area.
pub fn gemm_many(
    transb: i32,
    m: i32,
    n: i32,
    k: i32,
    alpha: f64,
    a: &[f64],
    lda: i32,
    b: &[f64],
    ldb: i32,
    strideb: i32,
    beta: f64,
    c: &mut [f64],
    ldc: i32,
    stridec: i32,
    items: i32,
    pack: &mut [f64],
    w: i32,
    r: i32,
) -> ManyEnd
    ensures { (result ≡ (Many.many transb m n k alpha a.now lda b.now ldb strideb beta c.old ldc stridec items pack.old w r).end)
        × (c.new ≡ (Many.many transb m n k alpha a.now lda b.now ldb strideb beta c.old ldc stridec items pack.old w r).array)
        × (pack.new ≡ (Many.many transb m n k alpha a.now lda b.now ldb strideb beta c.old ldc stridec items pack.old w r).pack) }
{
    let t = Items {
        count: items,
        strideb,
        stridec,
    };
    let g = Args {
        routine: Routine::Gemm,
        transa: b'N' as i32,
        transb,
        m,
        n,
        k,
        alpha: Scalar::from(alpha),
        beta: Scalar::from(beta),
        lda,
        ldb,
        ldc,
        lena: a.len(),
        lenb: from_last(b.len(), strideb, items),
        lenc: from_last(c.len(), stridec, items),
        ..Args::NONE
    };
    run(w, r, g, t, a, b, c, pack)
}
