// The sheet runner: at most so many steps of the plain machine, from a cursor on.
#![tactic(auto)]

ghost use Rattle.std.specs.Prelude.{◌≡◌, Bool, not, ◌++◌, ℕ, ◌+◌, ◌-◌, ◌*◌, ◌^◌, ◌≤◌, ◌<◌, min, false, true, length, take, drop, IfSome};
ghost use Rattle.std.specs.Bool.{then_some};
ghost use Rattle.definitions.specs.Call as Calls;
ghost use Rattle.definitions.specs.Element as Element;
ghost use Rattle.definitions.specs.Check as Check;
ghost use Rattle.definitions.specs.Machine as Machine;
ghost use Rattle.definitions.specs.Sheet as Sheets;
ghost use Rattle.definitions.specs.Run as Run;
ghost use Rattle.definitions.proofs.MachineLaws.{Placed};
ghost use Rattle.records.specs.Judgement as Judgement;
ghost use Rattle.records.specs.Judgement.{sheet_in, arrays_of};
ghost use Rattle.strips.specs.Lengths.{FitsArrays};
ghost use Rattle.sheet.specs.Lent as Lent;

use definitions::{Call, RunEnd};
use records::{Arrays, Judged, Lengths, Matrices, Record, Sheet};

// A record and one of its strips.
#[derive(Clone, Copy)]
pub struct Cursor {
    pub p: usize,
    pub s: usize,
}

// Where the machine is after a step, and the record, if the step was the last strip of a solve with a zero on the diagonal.
#[derive(Clone, Copy)]
pub struct Stepped {
    pub cursor: Cursor,
    pub zero: Option<usize>,
}

// Where a run of so many steps ended, and the first record whose solve had a zero on the diagonal.
#[derive(Clone, Copy)]
pub struct Went {
    pub cursor: Cursor,
    pub steps: u32,
    pub zero: Option<usize>,
}

// ---- one strip

// The columns, or rows, from `from` on of a call, in blocks of r. The output is its array's part from its offset on; the other two are lent, and its own
// array is not among them. It hands back what the strip reports.
fn lend(
    call: Call,
    m: Matrices,
    out: &mut [f64],
    lent: Arrays,
    from: usize,
    cols: usize,
    r: usize,
) -> i32
    requires off_in_bounds { let l = Judgement.arrays_in lent in
        (m.out.offset ≤ length out.old) × (m.a.offset ≤ length (Sheets.array l m.a.array)) × (m.b.offset ≤ length (Sheets.array l m.b.array)) }
    requires fits_arrays { let l = Judgement.arrays_in lent in
        FitsArrays call (length (Sheets.array l m.a.array) - m.a.offset) (length (Sheets.array l m.b.array) - m.b.offset) (length out.old - m.out.offset) }
    requires cols_nonzero { (0 < cols) × (cols ≤ 64) × (from + cols ≤ Calls.extent call) × (0 < r) × (r ≤ 64) }
    ensures { let l = Judgement.arrays_in lent.entry in
        (out.new ≡ take m.out.offset out.old ++ Element.strip call (drop m.a.offset (Sheets.array l m.a.array)) (drop m.b.offset (Sheets.array l m.b.array))
        from (from + cols) (drop m.out.offset out.old)) × (result ≡ Element.zero_of call.routine call (drop m.a.offset (Sheets.array l m.a.array))) }
{
    let a = lent.array(m.a.array);
    let b = lent.array(m.b.array);
    strips::strip(
        call,
        &a[m.a.offset..],
        &b[m.b.offset..],
        &mut out[m.out.offset..],
        from,
        cols,
        r,
    )
}

// The same, on the arrays: the output's is lent for writing, the other two for reading.
fn put(
    call: Call,
    m: Matrices,
    x: &mut [f64],
    y: &mut [f64],
    z: &mut [f64],
    from: usize,
    cols: usize,
    r: usize,
) -> i32
    requires lends { Lent.Lends call m (arrays_of x.old y.old z.old) }
    requires cols_nonzero { (0 < cols) × (cols ≤ 64) × (from + cols ≤ Calls.extent call) × (0 < r) × (r ≤ 64) }
    ensures { (arrays_of x.new y.new z.new ≡ Lent.strip_at call m from (from + cols) (arrays_of x.old y.old z.old))
        × (result ≡ Lent.zero_at call m.a (arrays_of x.old y.old z.old)) }
{
    match m.out.array {
        0 => lend(call, m, x, Arrays { x: &[], y, z }, from, cols, r),
        1 => lend(call, m, y, Arrays { x, y: &[], z }, from, cols, r),
        _ => lend(call, m, z, Arrays { x, y, z: &[] }, from, cols, r),
    }
}

// Strip s of a record whose call is this one. It hands back whether the call is a solve with a zero on the diagonal.
fn work(here: Record, call: Call, x: &mut [f64], y: &mut [f64], z: &mut [f64], s: usize) -> bool
    requires lends { Lent.Lends call (Judgement.matrices_of (sheet_in here.sheet) here.p call.routine) (arrays_of x.old y.old z.old) }
    requires width { let w = Sheets.width_of (sheet_in here.sheet) here.p in (0 < w) × (w ≤ 64) × (s * w < Calls.extent call) }
    requires block { let r = Check.width (Sheets.field (sheet_in here.sheet) here.p 19) in (0 < r) × (r ≤ 64) }
    ensures { let m = Judgement.matrices_of (sheet_in here.entry.sheet) here.entry.p call.routine in
        let w = Sheets.width_of (sheet_in here.entry.sheet) here.entry.p in
        (arrays_of x.new y.new z.new ≡ Lent.strip_at call m (s * w) (s * w + min w (Calls.extent call - s * w)) (arrays_of x.old y.old z.old))
        × (result ≡ not (Check.negative (Lent.zero_at call m.a (arrays_of x.old y.old z.old)))) }
{
    let m = here.matrices(call.routine);
    let w = here.width();
    let r = here.block();
    let d = arguments::extent(call);
    let from = s * w;
    let cols = w.min(d - from);
    !arguments::negative(put(call, m, x, y, z, from, cols, r))
}

// ---- one step

// After a strip, of n: to the next one, or, with answer 0, to the next record; then a zero on the diagonal counts.
fn advance(answers: &mut [i32], cursor: Cursor, n: usize, zero: bool) -> Stepped
    requires { (cursor.p < length answers.old) × (cursor.s < 2 ^ 31) }
    ensures { ((f : ℕ → Sheets.Arrays → Sheets.Arrays) (g : Sheets.Arrays → Bool) (l m : Sheets.Arrays) → m ≡ f cursor.s l → zero ≡ g l
        → let st = Run.begin l answers.old cursor.p cursor.s in
        (Run.begin m answers.new result.cursor.p result.cursor.s ≡ Machine.perform (Machine.work n f g) st)
        × (result.zero ≡ then_some (Machine.counts (Machine.work n f g) st) cursor.p))
        × (0 < result.cursor.s → (result.cursor.s < n) × (result.cursor.s ≡ cursor.s + 1)) }
{
    let Cursor { p, s } = cursor;
    if s + 1 < n {
        Stepped {
            cursor: Cursor { p, s: s + 1 },
            zero: None,
        }
    } else {
        answers[p] = 0;
        Stepped {
            cursor: Cursor { p: p + 1, s: 0 },
            zero: zero.then_some(p),
        }
    }
}

// One step at a record, from its strip s on.
fn step(
    here: Record,
    x: &mut [f64],
    y: &mut [f64],
    z: &mut [f64],
    answers: &mut [i32],
    s: usize,
) -> Stepped
    requires answer { here.p < length answers.old }
    requires s_bound { (0 < s → s < Machine.strips_of (Sheets.act (sheet_in here.sheet) here.p (arrays_of x.old y.old z.old))) × (s < 2 ^ 31) }
    ensures { let act = Sheets.act (sheet_in here.entry.sheet) here.entry.p (arrays_of x.old y.old z.old) in
        let st = Run.begin (arrays_of x.old y.old z.old) answers.old here.entry.p s in
        (Run.begin (arrays_of x.new y.new z.new) answers.new result.cursor.p result.cursor.s ≡ Machine.perform act st)
        × (result.zero ≡ then_some (Machine.counts act st) here.entry.p) × (result.cursor.s < 2 ^ 31) }
{
    let cursor = Cursor { p: here.p, s };
    let lengths = Lengths {
        x: x.len(),
        y: y.len(),
        z: z.len(),
    };
    match here.judge(lengths) {
        Judged::Rejected(number) => {
            answers[here.p] = number as i32;
            Stepped {
                cursor: Cursor {
                    p: here.p + 1,
                    s: 0,
                },
                zero: None,
            }
        }
        Judged::NoWork(call) => {
            let n = arguments::strips(here.width(), call);
            advance(answers, cursor, n, false)
        }
        Judged::Work(call) => {
            let n = arguments::strips(here.width(), call);
            let zero = work(here, call, x, y, z, s);
            advance(answers, cursor, n, zero)
        }
    }
}

// ---- a run

// At most so many steps from a sound cursor.
fn go(
    sheet: Sheet,
    x: &mut [f64],
    y: &mut [f64],
    z: &mut [f64],
    answers: &mut [i32],
    from: Cursor,
    budget: u32,
) -> Went
    requires sound { (Sheets.sound (sheet_in sheet) ≡ true) × (Run.too_short (sheet_in sheet) answers.old ≡ false) }
    requires placed { Placed (Sheets.records (sheet_in sheet)) (Sheets.act (sheet_in sheet)) (Run.begin (arrays_of x.old y.old z.old) answers.old from.p from.s)
        × (from.s < 2 ^ 31) }
    ensures { let st = Run.begin (arrays_of x.old y.old z.old) answers.old from.p from.s in
        (Run.begin (arrays_of x.new y.new z.new) answers.new result.cursor.p result.cursor.s ≡ Run.after (sheet_in sheet.entry) budget st)
        × (result.steps ≡ Run.steps_made (sheet_in sheet.entry) budget st) × (Lent.report result.zero ≡ Run.zero_reported (sheet_in sheet.entry) budget st)
        × (result.cursor.p < 2 ^ 31) × (result.cursor.s < 2 ^ 31) × IfSome result.zero (λ q. q < 2 ^ 31) }
{
    let index = sheet.index();
    let count = sheet.count();
    let mut cursor = from;
    let mut zero = None;
    for steps in 0..budget {
        if count <= cursor.p {
            return Went {
                cursor,
                steps,
                zero,
            };
        }
        let here = Record {
            sheet,
            p: cursor.p,
            at: index + 20 * cursor.p,
        };
        let next = step(here, x, y, z, answers, cursor.s);
        zero = zero.or(next.zero);
        cursor = next.cursor;
    }
    Went {
        cursor,
        steps: budget,
        zero,
    }
}

// A report as a run hands it back: -1 where there is none.
fn number_of(zero: Option<usize>) -> i32
    requires { IfSome zero (λ q. q < 2 ^ 31) }
    ensures { result ≡ Lent.report zero }
{
    match zero {
        Some(q) => q as i32,
        None => -1,
    }
}

// A run: so many steps of the plain machine from the cursor (p, s) on, or fewer if it finishes. It hands back 0, the new cursor, the steps made and the first record
// whose solve had a zero on the diagonal, or -1; or its number, its cursor, no steps and -1, and then it writes nothing.
pub fn run(
    sheet: &[i32],
    scalars: &[f64],
    x: &mut [f64],
    y: &mut [f64],
    z: &mut [f64],
    answers: &mut [i32],
    p: i32,
    s: i32,
    budget: u32,
) -> RunEnd
    ensures { Lent.ran_of result (arrays_of x.new y.new z.new) answers.new
        ≡ Run.run (Judgement.sheet_of sheet.now scalars.now) budget (arrays_of x.old y.old z.old) answers.old p s }
{
    let sheet = Sheet {
        words: sheet,
        scalars,
    };
    if let Some(number) = sheet.refusal(Arrays { x, y, z }, answers, p, s) {
        return RunEnd {
            number: number as i32,
            p,
            s,
            steps: 0,
            zero: -1,
        };
    }
    let from = Cursor {
        p: arguments::size(p) as usize,
        s: arguments::size(s) as usize,
    };
    let went = go(sheet, x, y, z, answers, from, budget);
    RunEnd {
        number: 0,
        p: went.cursor.p as i32,
        s: went.cursor.s as i32,
        steps: went.steps,
        zero: number_of(went.zero),
    }
}
