// A call sheet: the words of its records, their tests, 31, 32, 33 and those of a direct call, and the tests of a run, 34, 35 and 36.
#![tactic(auto)]

ghost use Rattle.std.specs.Prelude.{◌≡◌, true, not, ◌+◌, ◌*◌, ◌^◌, ◌≤◌, ◌<◌, pos, length, get_or, MatchOption};
ghost use Rattle.std.proofs.Math.Option.{none, some};
ghost use Rattle.definitions.specs.Check as Check;
ghost use Rattle.definitions.specs.Machine as Machine;
ghost use Rattle.definitions.specs.Run as Run;
ghost use Rattle.definitions.specs.Sheet as Sheets;
ghost use Rattle.records.specs.Judgement as Judgement;

use definitions::{Args, Call, Checked, Routine, Scalar};

// What the tests of a record come to: refused with a number, or accepted, with nothing to do or with work. (Three cases, as those of the argument check.)
#[derive(Clone, Copy)]
pub enum Judged {
    Rejected(u32),
    NoWork(Call),
    Work(Call),
}

// A sheet: its words, and the scalars of its records.
#[derive(Clone, Copy)]
pub struct Sheet<'a> {
    pub words: &'a [i32],
    pub scalars: &'a [f64],
}

// Record p of a sheet, which begins at word `at`.
#[derive(Clone, Copy)]
pub struct Record<'a> {
    pub sheet: Sheet<'a>,
    pub p: usize,
    pub at: usize,
    ghost placed: { Judgement.At (Judgement.sheet_in sheet) p at },
}

// The lent arrays.
#[derive(Clone, Copy)]
pub struct Arrays<'a> {
    pub x: &'a [f64],
    pub y: &'a [f64],
    pub z: &'a [f64],
}

// Their lengths.
#[derive(Clone, Copy)]
pub struct Lengths {
    pub x: usize,
    pub y: usize,
    pub z: usize,
}

// A matrix of a record: the number of its array, and the offset of its first element.
#[derive(Clone, Copy)]
pub struct Part {
    pub array: usize,
    pub offset: usize,
}

// The matrices of a record that are lent: the one that its routine writes, A, and A again or B.
#[derive(Clone, Copy)]
pub struct Matrices {
    pub out: Part,
    pub a: Part,
    pub b: Part,
}

// ---- words and matrices

impl Record<'_> {
    // Word q of the record.
    fn word(self, q: usize) -> i32
        requires { q < 20 }
        ensures { result ≡ Sheets.field (Judgement.sheet_in self.entry.sheet) self.entry.p q }
    {
        self.sheet.words[self.at + q]
    }

    // The matrix whose array number is word q.
    fn part(self, q: usize) -> Part
        requires { q < 19 }
        ensures { result ≡ Judgement.part_at (Judgement.sheet_in self.entry.sheet) self.entry.p q }
    {
        let array = arguments::size(self.word(q)) as usize;
        let offset = arguments::size(self.word(q + 1)) as usize;
        Part { array, offset }
    }

    // Its matrices, if the routine is its own.
    pub fn matrices(self, routine: Routine) -> Matrices
        ensures { result ≡ Judgement.matrices_of (Judgement.sheet_in self.entry.sheet) self.entry.p routine }
    {
        Matrices {
            out: self.part(output(routine)),
            a: self.part(9),
            b: self.part(second(routine)),
        }
    }

    // The width of its strips.
    pub fn width(self) -> usize
        ensures { result ≡ Sheets.width_of (Judgement.sheet_in self.entry.sheet) self.entry.p }
    {
        arguments::width(self.word(18))
    }

    // The size of its blocks.
    pub fn block(self) -> usize
        ensures { result ≡ Check.width (Sheets.field (Judgement.sheet_in self.entry.sheet) self.entry.p 19) }
    {
        arguments::width(self.word(19))
    }
}

impl<'a> Arrays<'a> {
    // Array n.
    pub fn array(self, n: usize) -> &'a [f64]
        ensures { result.now ≡ Sheets.array (Judgement.arrays_in self.entry) n }
    {
        match n {
            0 => self.x,
            1 => self.y,
            _ => self.z,
        }
    }
}

impl Lengths {
    // The length of array n.
    fn of(self, n: usize) -> usize
        ensures { result ≡ Judgement.sizes self n }
    {
        match n {
            0 => self.x,
            1 => self.y,
            _ => self.z,
        }
    }
}

// ---- the routine

// The routine with that number, if there is one.
fn routine_of(code: i32) -> Option<Routine>
    ensures { MatchOption result (Sheets.routine_of code ≡ none) (λ f. Sheets.routine_of code ≡ some f) }
{
    match arguments::size(code) {
        1 => Some(Routine::Gemm),
        2 => Some(Routine::Symm),
        3 => Some(Routine::Syrk),
        4 => Some(Routine::Syr2k),
        5 => Some(Routine::Trmm),
        6 => Some(Routine::Trsm),
        _ => None,
    }
}

// The word of the array number of the matrix that the routine writes: C, or B for TRMM and TRSM.
pub fn output(routine: Routine) -> usize
    ensures { (result ≡ Sheets.output routine) × (result ≤ 15) }
{
    match routine {
        Routine::Gemm | Routine::Symm | Routine::Syrk | Routine::Syr2k => 15,
        Routine::Trmm | Routine::Trsm => 12,
    }
}

// The word of the array number of the matrix that is lent as B: A again in a routine that reads no other matrix.
pub fn second(routine: Routine) -> usize
    ensures { (result ≡ Judgement.second routine) × (result ≤ 15) }
{
    match routine {
        Routine::Gemm | Routine::Symm | Routine::Syr2k => 12,
        Routine::Trmm | Routine::Trsm | Routine::Syrk => 9,
    }
}

// ---- the tests 32 and 33

// Not the number of a lent array.
fn bad_number(number: i32) -> bool
    ensures { result ≡ Judgement.bad_number number }
{
    arguments::negative(number) | (2 < arguments::size(number))
}

// The same, of the output, of A and of the matrix lent as B; or the output's array is also that of another matrix.
fn bad_numbers(out: i32, a: i32, b: i32) -> bool
    ensures { result ≡ Judgement.bad_numbers out a b }
{
    let far = bad_number(out) | (bad_number(a) | bad_number(b));
    let o = arguments::size(out);
    far | ((arguments::size(a) == o) | (arguments::size(b) == o))
}

// Negative, or above the array's length.
fn bad_offset(number: i32, offset: i32, lengths: Lengths) -> bool
    ensures { result ≡ Judgement.bad_offset (Judgement.sizes lengths) number offset }
{
    let length = lengths.of(arguments::size(number) as usize);
    arguments::negative(offset) | (length < arguments::size(offset) as usize)
}

// ---- all tests

// What the answer of the direct call's check comes to.
fn settled(answer: Checked, call: Call) -> Judged
    ensures { result ≡ Judgement.settled answer call }
{
    match answer {
        Checked::Refused(number) => Judged::Rejected(number),
        Checked::Idle => Judged::NoWork(call),
        Checked::Ready(ready) => Judged::Work(ready),
    }
}

impl Record<'_> {
    // 32: a number of an array is bad.
    fn bad_arrays(self, routine: Routine) -> bool
        ensures { result ≡ Sheets.bad_arrays (Judgement.sheet_in self.entry.sheet) self.entry.p routine }
    {
        let out = self.word(output(routine));
        let a = self.word(9);
        let b = self.word(second(routine));
        bad_numbers(out, a, b)
    }

    // 33: an offset is bad.
    fn bad_offsets(self, routine: Routine, lengths: Lengths) -> bool
        ensures { result ≡ Sheets.bad_offsets (Judgement.sheet_in self.entry.sheet) self.entry.p routine (Judgement.sizes lengths) }
    {
        let o = output(routine);
        let s = second(routine);
        let out = bad_offset(self.word(o), self.word(o + 1), lengths);
        let a = bad_offset(self.word(9), self.word(10), lengths);
        let b = bad_offset(self.word(s), self.word(s + 1), lengths);
        out | (a | b)
    }

    // The length of the matrix whose array number is word q: that of its array from the offset on.
    fn part_length(self, q: usize, lengths: Lengths) -> usize
        requires { q < 19 }
        ensures { result ≡ Sheets.part_length (Judgement.sheet_in self.entry.sheet) self.entry.p q (Judgement.sizes lengths) }
    {
        let part = self.part(q);
        lengths.of(part.array).saturating_sub(part.offset)
    }

    // The arguments of its call.
    fn args_of(self, routine: Routine, lengths: Lengths) -> Args
        ensures { (result ≡ Sheets.args_of (Judgement.sheet_in self.entry.sheet) self.entry.p routine
            (Judgement.sizes lengths)) × (Check.nat result.m < 2 ^ 31) × (Check.nat result.n < 2 ^ 31) }
    {
        let alpha = Scalar::from(self.sheet.scalars[2 * self.p]);
        let beta = Scalar::from(self.sheet.scalars[2 * self.p + 1]);
        let lena = self.part_length(9, lengths);
        let lenb = self.part_length(12, lengths);
        let lenc = self.part_length(15, lengths);
        Args {
            routine,
            side: self.word(1),
            uplo: self.word(2),
            transa: self.word(3),
            transb: self.word(4),
            diag: self.word(5),
            m: self.word(6),
            n: self.word(7),
            k: self.word(8),
            alpha,
            beta,
            lda: self.word(11),
            ldb: self.word(14),
            ldc: self.word(17),
            lena,
            lenb,
            lenc,
        }
    }

    // All tests of the record, for arrays of these lengths.
    pub fn judge(self, lengths: Lengths) -> Judged
        ensures { let t = Judgement.sheet_in self.entry.sheet in
            (result ≡ Judgement.judged t self.entry.p (Judgement.sizes lengths) (Sheets.routine_of (Sheets.field t self.entry.p 0)))
            × (Judgement.extent_of result < 2 ^ 31) }
    {
        let Some(f) = routine_of(self.word(0)) else {
            return Judged::Rejected(31);
        };
        if self.bad_arrays(f) {
            return Judged::Rejected(32);
        }
        if self.bad_offsets(f, lengths) {
            return Judged::Rejected(33);
        }
        let g = self.args_of(f, lengths);
        let answer = arguments::check(self.word(18), self.word(19), g);
        settled(answer, arguments::call_of(g))
    }

    // The number of its strips, 0 if it is refused.
    fn strips_of(self, arrays: Arrays) -> usize
        ensures { result ≡ Machine.strips_of (Sheets.act (Judgement.sheet_in self.entry.sheet) self.entry.p (Judgement.arrays_in arrays.entry)) }
    {
        let lengths = Lengths {
            x: arrays.x.len(),
            y: arrays.y.len(),
            z: arrays.z.len(),
        };
        match self.judge(lengths) {
            Judged::Rejected(_) => 0,
            Judged::NoWork(call) | Judged::Work(call) => arguments::strips(self.width(), call),
        }
    }
}

// ---- the tests of a run

// A word of the sheet as a size.
pub fn size_at(words: &[i32], at: usize) -> usize
    requires { at < length words.now }
    ensures { (result ≡ Check.nat (get_or words.now at (pos 0))) × (result < 2 ^ 31) }
{
    arguments::size(words[at]) as usize
}

impl Sheet<'_> {
    // The first word of record 0.
    pub fn index(self) -> usize
        requires { 2 ≤ length self.words.now }
        ensures { (result ≡ Check.nat (Sheets.index (Judgement.sheet_in self.entry))) × (result < 2 ^ 31) }
    {
        size_at(self.words, self.words.len() - 2)
    }

    // How many records there are.
    pub fn count(self) -> usize
        requires { 2 ≤ length self.words.now }
        ensures { (result ≡ Sheets.records (Judgement.sheet_in self.entry)) × (result < 2 ^ 31) }
    {
        size_at(self.words, self.words.len() - 1)
    }

    // 34: the trailer is bad.
    fn bad_trailer(self) -> bool
        ensures { result ≡ not (Sheets.sound (Judgement.sheet_in self.entry)) }
    {
        let length = self.words.len();
        if length < 2 {
            return true;
        }
        let end = self.index() + 20 * self.count();
        let negative = arguments::negative(self.words[length - 2]);
        let minus = arguments::negative(self.words[length - 1]);
        negative | (minus | (end != length - 2))
    }

    // 35: answers or scalars are too few.
    fn too_short(self, answers: &[i32]) -> bool
        requires { 2 ≤ length self.words.now }
        ensures { result ≡ Run.too_short (Judgement.sheet_in self.entry) answers.now }
    {
        let count = self.count();
        (answers.len() < count) | (self.scalars.len() < 2 * count)
    }

    // 36: the cursor is neither the first strip of a record, nor the finish, nor a further strip of an accepted record.
    fn bad_cursor(self, arrays: Arrays, p: i32, s: i32) -> bool
        requires sound { Sheets.sound (Judgement.sheet_in self) ≡ true }
        requires scalars { 2 * Sheets.records (Judgement.sheet_in self) ≤ length self.scalars.now }
        ensures { result ≡ Run.bad_cursor (Judgement.sheet_in self.entry) (Judgement.arrays_in arrays.entry) p s }
    {
        let index = self.index();
        let count = self.count();
        if arguments::negative(s) {
            return true;
        }
        if arguments::negative(p) {
            return true;
        }
        let q = arguments::size(p) as usize;
        let t = arguments::size(s) as usize;
        if t == 0 {
            return count < q;
        }
        if count <= q {
            return true;
        }
        let record = Record {
            sheet: self,
            p: q,
            at: index + 20 * q,
        };
        record.strips_of(arrays) <= t
    }

    // The number of the run's refusal, if it is refused.
    pub fn refusal(self, arrays: Arrays, answers: &[i32], p: i32, s: i32) -> Option<u32>
        ensures { let number = Run.run_refusal (Judgement.sheet_in self.entry) (Judgement.arrays_in arrays.entry) answers.now p s in
            MatchOption result (number ≡ 0) (λ e. (e ≡ number) × (0 < e) × (e ≤ 36)) }
    {
        if self.bad_trailer() {
            return Some(34);
        }
        if self.too_short(answers) {
            return Some(35);
        }
        if self.bad_cursor(arrays, p, s) {
            return Some(36);
        }
        None
    }
}
