// A batch: sequences of one length over three symbols.
ghost use Rattle.std.specs.Prelude.{◌≡◌, ◌^◌, ◌≤◌, map, sum};
ghost use Rattle.weights.specs.Kinds.{count};

use weights::Count;

// The weights of the symbols, and how many courses a sequence has. The weight of all sequences is at
// most 2^40.
#[derive(Clone, Copy)]
pub struct Batch {
    pub weights: [u16; 3],
    pub courses: u32,
    ghost few: { courses ≤ 40 },
    ghost small: { sum weights ^ courses ≤ 2 ^ 40 },
}

impl Batch {
    // The sum of the weights of the symbols.
    fn total(&self) -> u64
        ensures { result ≡ sum self.now.weights }
    {
        self.weights.iter().map(|weight| u64::from(*weight)).sum()
    }

    // The weight of all sequences.
    pub(crate) fn whole(&self) -> u64
        ensures { result ≡ sum self.now.weights ^ self.now.courses }
    {
        self.total().pow(self.courses)
    }

    // The weights of the symbols as counts.
    pub(crate) fn counts(&self) -> [Count; 3]
        ensures { result ≡ map count self.now.weights }
    {
        self.weights.map(Count::from)
    }
}
