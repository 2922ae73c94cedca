// The integer column X with AX = B, A triangular, over whole numbers: the X in signed 16-bit words, or that there is none.
#![tactic(auto)]

ghost use Rattle.std.specs.Prelude.{◌≡◌, true, false, ◌+◌, ◌*◌, ◌≤◌, ◌<◌, pos, nat_abs, ◌-ℤ◌, ◌*ℤ◌, length, get_or, if◌then◌else◌};
ghost use Rattle.arrays.specs.Update.{update, below};
ghost use Rattle.arguments.specs.Refusal.{Gives};
ghost use Rattle.integer_solve.specs.Equations as Equations;
ghost use Rattle.integer_solve.specs.Elimination.{triangle, Words, term, room, Small, Grown, first_open, end_open, less_term, taken, QuotientOf, Eliminated};

use arguments::Refusal;
use definitions::Triangle;

// What a call comes to: X is written, there is none, or the number of a refusal. (The three cases are the request's.)
#[derive(Clone, Copy)]
pub enum Answer {
    Solved,
    None,
    Refused(u8),
}

// ---- the tests

// An order that is not 1 to 64.
fn bad_order(n: i32) -> bool
    ensures { result ≡ Equations.bad_order n }
{
    let order = arguments::size(n);
    (order < 1) | (64 < order)
}

// A length that does not fit the order.
fn bad_length(n: usize, a: usize, b: usize, x: usize) -> bool
    requires { n ≤ 64 }
    ensures { result ≡ Equations.bad_length n a b x }
{
    (a != n * n) | (b != n) | (x != n)
}

// A zero on the diagonal of A, wherever it stands.
fn zero_diagonal(a: &[i16], n: usize) -> bool
    requires { n * n ≤ length a.now }
    ensures { result ≡ Equations.zero_diagonal n a.now }
{
    for i in 0..n {
        if a[i * n + i] == 0 {
            return true;
        }
    }
    false
}

// The tests in turn. b and x are the lengths of their lists.
fn test(uplo: i32, n: i32, a: &[i16], b: usize, x: usize) -> Result<(), Refusal>
    ensures { Gives (Equations.refusal uplo n a.now b x) result }
{
    if bad_order(n) || arguments::bad_uplo(uplo) {
        return Err(Refusal { number: 39 });
    }
    let order = arguments::size(n) as usize;
    if bad_length(order, a.len(), b, x) {
        return Err(Refusal { number: 40 });
    }
    if zero_diagonal(a, order) {
        return Err(Refusal { number: 41 });
    }
    Ok(())
}

// ---- the elimination

// The quotient of a remainder by a diagonal entry, if it is a whole number of 16 bits.
fn divide(s: i64, d: i16) -> Option<i16>
    requires { (nat_abs s ≤ room) × (d ≡ pos 0 → ⊥) }
    ensures { QuotientOf s d result }
{
    let divisor = d as i64;
    if s % divisor != 0 {
        return None;
    }
    let q = s / divisor;
    if (q < -32768) | (32767 < q) {
        return None;
    }
    Some(q as i16)
}

// A remainder less one term.
fn less(s: i64, u: i16, x: i16) -> i64
    requires { nat_abs s ≤ room }
    ensures { (result ≡ s -ℤ u *ℤ x) × (nat_abs result ≤ nat_abs s + term) }
{
    s - (u as i64) * (x as i64)
}

// The terms of one unknown are taken from the remainders from lo on and below hi; its column begins at element `at` of A.
fn subtract(s: &mut [i64], a: &[i16], at: usize, x: i16, lo: usize, hi: usize)
    requires { (lo ≤ hi) × (hi ≤ length s.old) × (at + hi ≤ length a.now) × Small hi s.old }
    ensures { (s.new ≡ update (below hi (less_term a.now at x lo)) s.old) × Grown s.old s.new }
{
    for i in lo..hi {
        s[i] = less(s[i], a[at + i], x);
    }
}

// The equations that are open once unknown j is solved: the first of them, and one past the last.
fn first_open(down: bool, j: usize) -> usize
    requires { j < 64 }
    ensures { result ≡ first_open down j }
{
    if down { 0 } else { j + 1 }
}

fn end_open(down: bool, n: usize, j: usize) -> usize
    ensures { result ≡ end_open down n j }
{
    if down { j } else { n }
}

// Unknown j has the value x.
fn take(down: bool, n: usize, a: &[i16], s: &mut [i64], j: usize, x: i16)
    requires { (j < n) × (n ≤ 64) × (n ≤ length s.old) × (n * n ≤ length a.now) × Small n s.old }
    ensures { (s.new ≡ update (taken down n a.now j x) s.old) × Grown s.old s.new }
{
    let lo = first_open(down, j);
    let hi = end_open(down, n, j);
    subtract(s, a, j * n, x, lo, hi);
    s[j] = x as i64;
}

// The right sides as remainders.
fn widen(s: &mut [i64], b: &[i16])
    requires { length b.now ≤ length s.old }
    ensures { (s.new ≡ update (below (length b.now) (λ i _. get_or b.now i (pos 0))) s.old) × Words (length b.now) b.now }
{
    for (i, right) in b.iter().enumerate() {
        s[i] = *right as i64;
    }
}

// Solves one unknown after the other, until one has no value.
fn eliminate(down: bool, n: usize, a: &[i16], b: &[i16], s: &mut [i64]) -> bool
    requires { (n ≤ 64) × (length b.now ≡ n) × (n ≤ length s.old) × (length a.now ≡ n * n) × (Equations.zero_diagonal n a.now ≡ false) }
    ensures { Eliminated (triangle down) n a.now b.now s.new result }
{
    widen(s, b);
    for q in 0..n {
        let j = packing::factor::turn_of(down, n, q);
        let Some(x) = divide(s[j], a[j * n + j]) else {
            return false;
        };
        take(down, n, a, s, j, x);
    }
    true
}

// ---- the call

// Whether the unknowns are solved from the last to the first.
fn backward(t: Triangle) -> bool
    ensures { triangle result ≡ t }
{
    t == Triangle::Upper
}

// X from the remainders, which have become its values.
fn narrow(x: &mut [i16], s: &[i64])
    requires { (length x.old ≤ length s.now) × Words (length x.old) s.now }
    ensures { x.new ≡ update (λ i _. get_or s.now i (pos 0)) x.old }
{
    for (i, unknown) in x.iter_mut().enumerate() {
        *unknown = s[i] as i16;
    }
}

// The X of order n, for the lists a, b and x of n * n, n and n elements.
pub fn solve(uplo: i32, n: i32, a: &[i16], b: &[i16], x: &mut [i16]) -> Answer
    ensures { Equations.Answers uplo n a.now b.now x.old result x.new }
{
    if let Err(refusal) = test(uplo, n, a, b.len(), x.len()) {
        return Answer::Refused(refusal.number);
    }
    let mut s = [0i64; 64];
    let down = backward(arguments::uplo_of(uplo));
    let found = eliminate(down, b.len(), a, b, &mut s);
    if !found {
        return Answer::None;
    }
    narrow(x, &s);
    Answer::Solved
}

// The number of an answer.
pub fn number(answer: Answer) -> i32
    ensures { result ≡ Equations.number answer }
{
    match answer {
        Answer::Solved => 0,
        Answer::None => -1,
        Answer::Refused(k) => k as i32,
    }
}
