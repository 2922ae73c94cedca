// The indices below a number in pieces of at most so many.
ghost use Rattle.std.specs.Prelude.{◌≡◌, ◌-◌, ◌<◌, ◌≤◌};
ghost use Rattle.std.specs.Iterator.{at_most};
ghost use Rattle.arrays.specs.Pieces.{gives};

// Those from `at` on and below `end`, `step` in a piece; the last piece is what is left.
#[derive(Drop)]
pub struct Pieces {
    pub at: usize,
    pub end: usize,
    pub step: usize,
}

impl Pieces {
    // All indices below n.
    pub fn of(n: usize, step: usize) -> Pieces
        ensures { (result.at ≡ 0) × (result.end ≡ n) × (result.step ≡ step) }
    {
        Pieces {
            at: 0,
            end: n,
            step,
        }
    }
}

// A piece is its first index and its length.
impl Iterator for Pieces {
    type Item = (usize, usize);

    ghost can_next = { λ s. (0 < s.step) × (s.at ≤ s.end) };

    ghost next_gives = { λ s r t. gives s.at s.end s.step r t.at t.end t.step };

    ghost remaining = { λ s. at_most (s.end - s.at) };

    #[inline(always)]
    fn next(&mut self) -> Option<(usize, usize)> {
        if self.at == self.end {
            return None;
        }
        let from = self.at;
        let n = self.step.min(self.end - from);
        self.at += n;
        Some((from, n))
    }
}
