// The pairs of two kinds of states, each coded as one number.
ghost use Rattle.std.specs.Prelude.{◌≡◌, ◌+◌, ◌*◌, ◌/◌, ◌%◌, ◌<◌, ◌≤◌, MatchOption};
ghost use Rattle.layers.specs.Pairs.{counted};

use charts::MAX_STATES;

// How many left and how many right states there are.
#[derive(Clone, Copy)]
pub(crate) struct Pairs {
    pub(crate) left: u32,
    pub(crate) right: u32,
    ghost few_left: { left ≤ 1024 },
    ghost few_right: { right ≤ 1024 },
}

impl Pairs {
    // The count of the pairs: 0 where there are too many.
    pub(crate) fn count(self) -> u32
        ensures value { result ≡ counted (self.left * self.right) }
        ensures some { 0 < result → (0 < self.left) × (0 < self.right) }
    {
        let pairs = self.left * self.right;
        if pairs <= MAX_STATES { pairs } else { 0 }
    }

    // The code of a pair.
    pub(crate) fn code(self, left: u32, right: u32) -> u32
        requires left { left < self.left }
        requires right { right < self.right }
        ensures { result ≡ left * self.right + right }
    {
        left * self.right + right
    }

    // The pair of a code; none where the code is not below the count.
    pub(crate) fn parts(self, code: u32) -> Option<(u32, u32)>
        ensures { MatchOption result (counted (self.left * self.right) ≤ code) (λ p. (code < counted (self.left * self.right)) × (p.0 ≡ code / self.right) × (p.1 ≡ code % self.right)) }
    {
        if code < self.count() {
            Some((code / self.right, code % self.right))
        } else {
            None
        }
    }
}
