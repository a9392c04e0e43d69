// The share of a batch that is stopped.
ghost use Rattle.std.specs.Prelude.{◌≡◌, true, ◌↔◌, ◌*◌, ◌^◌, ◌≤◌};

use std::fmt;

const MILLION: u64 = 1_000_000;

// The weight of the stopped sequences, and of all.
#[derive(Clone, Copy)]
pub struct Share {
    pub stopped: u64,
    pub all: u64,
    ghost stopped_small: { stopped ≤ 2 ^ 40 },
    ghost all_small: { all ≤ 2 ^ 40 },
}

// Shares are compared by products, since a quotient would be rounded.
impl Share {
    // Whether at most so many parts per million are stopped.
    pub(crate) fn is_at_most(self, parts: u32) -> bool
        requires { parts ≤ 1000000 }
        ensures { (result ≡ true) ↔ (self.stopped * 1000000 ≤ parts * self.all) }
    {
        self.stopped * MILLION <= u64::from(parts) * self.all
    }

    // Whether at least so many parts per million are stopped.
    pub(crate) fn is_at_least(self, parts: u32) -> bool
        requires { parts ≤ 1000000 }
        ensures { (result ≡ true) ↔ (parts * self.all ≤ self.stopped * 1000000) }
    {
        self.stopped * MILLION >= u64::from(parts) * self.all
    }
}

impl fmt::Display for Share {
    fn fmt<W: fmt::Write>(&self, f: &mut fmt::Formatter<W>) -> fmt::Result {
        write!(f, "{} {}", self.stopped, self.all)
    }
}
