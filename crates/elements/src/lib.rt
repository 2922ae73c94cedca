// The sum of one element of each line of B, straight from the arrays and in place: no buffers, four lines at a time in scalars.
#![tactic(auto)]

ghost use Rattle.std.specs.Prelude.{◌≡◌, ℕ, ◌+◌, ◌*◌, ◌<◌, length};
ghost use Rattle.arrays.specs.Fold.{fold};
ghost use Rattle.floats.specs.Array.{at};
ghost use Rattle.packing.specs.Factor.{Indices, along};
ghost use Rattle.forms.specs.Forms.{op_matrix, Square};
ghost use Rattle.lines.specs.Lines.{coefficient, Room, GridRoom};
ghost use Rattle.elements.specs.Sums.{term_of, begun, finished, Summed};

use forms::Op;
use lines::{Grid, triangle};
use packing::factor::Run;

// What the sum of an element starts with: the element's old value, +0.0, or +0.0 and then the element's own term, whose coefficient is handed over.
#[derive(Clone, Copy)]
pub enum Start {
    Value,
    Zero,
    OwnFirst(f64),
}

// How it ends: as it is, with the element's own term, or divided by a number.
#[derive(Clone, Copy)]
pub enum End {
    Sum,
    OwnLast(f64),
    Quotient(f64),
}

// How the sum of an element is made: what it starts with, the factor alpha of its terms, and how it ends.
#[derive(Clone, Copy)]
pub struct Formula {
    pub start: Start,
    pub alpha: f64,
    pub end: End,
}

// The sums of one element of four lines.
#[derive(Clone, Copy)]
pub struct Lanes {
    e: f64,
    f: f64,
    g: f64,
    h: f64,
}

// A term: w is the coefficient, x the value.
fn term(left: bool, alpha: f64, w: f64, e: f64, x: f64) -> f64
    ensures { result ≡ term_of left alpha w e x }
{
    if left {
        e + (alpha * x) * w
    } else {
        e + (alpha * w) * x
    }
}

impl Formula {
    // What a sum starts with; y is the element's old value.
    fn begin(self, left: bool, y: f64) -> f64
        ensures { result ≡ begun left self.alpha self.start y }
    {
        match self.start {
            Start::Value => y,
            Start::Zero => 0.0,
            Start::OwnFirst(w) => term(left, self.alpha, w, 0.0, y),
        }
    }

    // What the sum e becomes at its end.
    fn finish(self, left: bool, e: f64, y: f64) -> f64
        ensures { result ≡ finished left self.alpha self.end e y }
    {
        match self.end {
            End::Sum => e,
            End::OwnLast(w) => term(left, self.alpha, w, e, y),
            End::Quotient(d) => e / d,
        }
    }
}

// The terms of `count` elements, those of a run, in the sums of four lines. In b lines are `across` elements apart and the elements of a line `step`; the
// coefficients are sa apart.
fn terms(
    left: bool,
    alpha: f64,
    s: Lanes,
    b: &[f64],
    across: usize,
    step: usize,
    a: &[f64],
    sa: usize,
    run: Run,
    count: usize,
) -> Lanes
    requires { Indices run.down run.from count × ((k : ℕ) → k < count → (along run.down run.from k * sa < length a.now) × (along run.down run.from k * step + 3 * across < length b.now)) }
    ensures { (result.e ≡ fold (λ e k. term_of left alpha (at a.now (along run.down run.from k * sa)) e (at b.now (along run.down run.from k * step))) count s.e)
        × (result.f ≡ fold (λ e k. term_of left alpha (at a.now (along run.down run.from k * sa)) e (at b.now (along run.down run.from k * step + across))) count s.f)
        × (result.g ≡ fold (λ e k. term_of left alpha (at a.now (along run.down run.from k * sa)) e (at b.now (along run.down run.from k * step + 2 * across))) count s.g)
        × (result.h ≡ fold (λ e k. term_of left alpha (at a.now (along run.down run.from k * sa)) e (at b.now (along run.down run.from k * step + 3 * across))) count s.h) }
{
    let mut e = s.e;
    let mut f = s.f;
    let mut g = s.g;
    let mut h = s.h;
    for k in 0..count {
        let p = run.index(k);
        let w = a[p * sa];
        let x = p * step;
        e = term(left, alpha, w, e, b[x]);
        f = term(left, alpha, w, f, b[x + across]);
        g = term(left, alpha, w, g, b[x + 2 * across]);
        h = term(left, alpha, w, h, b[x + 3 * across]);
    }
    Lanes { e, f, g, h }
}

// Element i of four lines.
fn four(g: Grid, f: Formula, b: &mut [f64], i: usize, a: &[f64], sa: usize, run: Run, count: usize)
    requires { Room g.left g.ld g.m 4 (length b.old) × (i < g.m) × Indices run.down run.from count × ((k : ℕ) → k < count → (along run.down run.from k < g.m) × (along run.down run.from k * sa < length a.now)) }
    ensures { Summed g.left g.ld g.m 4 i f.alpha f.start f.end (λ k. at a.now (along run.down run.from k * sa)) (along run.down run.from) count b.old b.new }
{
    let across = arrays::pick(g.left, g.ld, 1);
    let step = arrays::pick(g.left, 1, g.ld);
    let x = i * step;
    let y = x + across;
    let z = x + 2 * across;
    let w = x + 3 * across;
    let bx = b[x];
    let by = b[y];
    let bz = b[z];
    let bw = b[w];
    let s = Lanes {
        e: f.begin(g.left, bx),
        f: f.begin(g.left, by),
        g: f.begin(g.left, bz),
        h: f.begin(g.left, bw),
    };
    let r = terms(g.left, f.alpha, s, b, across, step, a, sa, run, count);
    b[x] = f.finish(g.left, r.e, bx);
    b[y] = f.finish(g.left, r.f, by);
    b[z] = f.finish(g.left, r.g, bz);
    b[w] = f.finish(g.left, r.h, bw);
}

// Element i of one line.
fn single(
    g: Grid,
    f: Formula,
    b: &mut [f64],
    i: usize,
    a: &[f64],
    sa: usize,
    run: Run,
    count: usize,
)
    requires { Room g.left g.ld g.m 1 (length b.old) × (i < g.m) × Indices run.down run.from count × ((k : ℕ) → k < count → (along run.down run.from k < g.m) × (along run.down run.from k * sa < length a.now)) }
    ensures { Summed g.left g.ld g.m 1 i f.alpha f.start f.end (λ k. at a.now (along run.down run.from k * sa)) (along run.down run.from) count b.old b.new }
{
    let step = arrays::pick(g.left, 1, g.ld);
    let x = i * step;
    let bx = b[x];
    let mut e = f.begin(g.left, bx);
    for k in 0..count {
        let p = run.index(k);
        e = term(g.left, f.alpha, a[p * sa], e, b[p * step]);
    }
    b[x] = f.finish(g.left, e, bx);
}

// Element i of each line, one line after the other.
fn singles(
    g: Grid,
    f: Formula,
    b: &mut [f64],
    i: usize,
    a: &[f64],
    sa: usize,
    run: Run,
    count: usize,
)
    requires { GridRoom g (length b.old) × (i < g.m) × Indices run.down run.from count × ((k : ℕ) → k < count → (along run.down run.from k < g.m) × (along run.down run.from k * sa < length a.now)) }
    ensures { Summed g.left g.ld g.m g.lines i f.alpha f.start f.end (λ k. at a.now (along run.down run.from k * sa)) (along run.down run.from) count b.old b.new }
{
    let across = arrays::pick(g.left, g.ld, 1);
    for l in 0..g.lines {
        let x = l * across;
        single(g, f, &mut b[x..], i, a, sa, run, count);
    }
}

// Element i of each line, four lines at a time. A `while`, as in direct::column.
fn fours(g: Grid, f: Formula, b: &mut [f64], i: usize, a: &[f64], sa: usize, run: Run, count: usize)
    requires { GridRoom g (length b.old) × (i < g.m) × Indices run.down run.from count × ((k : ℕ) → k < count → (along run.down run.from k < g.m) × (along run.down run.from k * sa < length a.now)) }
    ensures { Summed g.left g.ld g.m g.lines i f.alpha f.start f.end (λ k. at a.now (along run.down run.from k * sa)) (along run.down run.from) count b.old b.new }
{
    let across = arrays::pick(g.left, g.ld, 1);
    let mut l = 0;
    while l + 4 <= g.lines {
        let x = l * across;
        four(g, f, &mut b[x..], i, a, sa, run, count);
        l += 4;
    }
    if l == g.lines {
        return;
    }
    let y = l * across;
    let rest = Grid {
        lines: g.lines - l,
        ..g
    };
    singles(rest, f, &mut b[y..], i, a, sa, run, count);
}

// Element i of each line becomes its sum. The terms are those of `count` elements of its line, those of a run, with op(A) as on the line's side.
pub fn element(g: Grid, f: Formula, b: &mut [f64], i: usize, a: Op, run: Run, count: usize)
    requires room { GridRoom g (length b.old) × (i < g.m) × Indices run.down run.from count × ((k : ℕ) → k < count → along run.down run.from k < g.m) }
    requires by_index { Square a g.m }
    ensures { Summed g.left g.ld g.m g.lines i f.alpha f.start f.end (λ k. coefficient g.left (op_matrix a.entry) i (along run.down run.from k)) (along run.down run.from) count b.old b.new }
{
    let columns = triangle::are_columns(g.left, a.t);
    let row = arrays::pick(columns, a.ld, 1);
    let sa = arrays::pick(columns, 1, a.ld);
    let x = i * row;
    fours(g, f, b, i, &a.cells[x..], sa, run, count);
}
