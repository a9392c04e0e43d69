// The union of two charts at the same limit: an alarm of either is an alarm.
ghost use Rattle.std.specs.Prelude.{◌≡◌};
ghost use Rattle.layers.specs.Union.{union};
ghost use Rattle.layers.specs.UnionLaw.{StopsAsEither};
ghost use Rattle.layers.specs.UnionSound.{union_sound};

use crate::pairs::Pairs;
use charts::{Chart, SYMBOLS};

#[derive(Clone, Copy, Drop)]
pub struct Union<A, B> {
    first: A,
    second: B,
}

impl<A: Chart, B: Chart> Union<A, B> {
    // The union of these charts. It is in the pair of their states, and stops a sequence exactly when
    // one of them does.
    pub fn new(first: A, second: B) -> Union<A, B>
        ensures holds { (result.first ≡ first) × (result.second ≡ second) }
        ensures law { StopsAsEither (A.Chart.meaning first) (B.Chart.meaning second) (union (A.Chart.meaning result.first) (B.Chart.meaning result.second)) }
    {
        Union { first, second }
    }

    // The pairs of the two states.
    fn pairs(&self, limit: u32) -> Pairs
        ensures left { result.left ≡ (A.Chart.meaning self.now.first).count limit }
        ensures right { result.right ≡ (B.Chart.meaning self.now.second).count limit }
    {
        Pairs {
            left: self.first.count(limit),
            right: self.second.count(limit),
        }
    }
}

impl<A: Chart, B: Chart> Chart for Union<A, B> {
    ghost meaning = { λ u. union (A.Chart.meaning u.first) (B.Chart.meaning u.second) };

    ghost sound = { λ u. union_sound (A.Chart.meaning u.first) (B.Chart.meaning u.second) (A.Chart.sound u.first) (B.Chart.sound u.second) };

    fn count(&self, limit: u32) -> u32 {
        self.pairs(limit).count()
    }

    fn start(&self, limit: u32) -> u32 {
        let pairs = self.pairs(limit);
        if pairs.count() == 0 {
            return 0;
        }
        pairs.code(self.first.start(limit), self.second.start(limit))
    }

    fn step(&self, limit: u32, state: u32, symbol: u8) -> u32 {
        if symbol >= SYMBOLS {
            return 0;
        }
        let pairs = self.pairs(limit);
        let Some((left, right)) = pairs.parts(state) else {
            return 0;
        };
        let first = self.first.step(limit, left, symbol);
        let second = self.second.step(limit, right, symbol);
        pairs.code(first, second)
    }

    fn alarm(&self, limit: u32, state: u32) -> bool {
        let Some((left, right)) = self.pairs(limit).parts(state) else {
            return false;
        };
        self.first.alarm(limit, left) || self.second.alarm(limit, right)
    }
}
