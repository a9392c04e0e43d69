// The interface of a weight kind, and the three kinds.
ghost use Rattle.std.specs.Prelude.{◌≡◌, true, ◌↔◌};
ghost use Rattle.weights.specs.Kinds.{counts, costs, cans};
ghost use Rattle.weights.specs.Laws.{Algebra, Laws};
ghost use Rattle.weights.specs.KindLaws.{count_laws, cost_laws, can_laws};

use crate::values::{Can, Cost, Count};

// A weight kind: its operations are those of `kind`, and these keep the laws of a semiring.
pub trait Semiring: Copy {
    ghost kind: { Algebra Self };

    fn zero() -> Self
        ensures { result ≡ kind.zero };

    fn one() -> Self
        ensures { result ≡ kind.one };

    // True exactly when this is the kind's zero. Each kind says it, so that none has to have `==`.
    fn is_zero(self) -> bool
        ensures { (result ≡ true) ↔ (self ≡ kind.zero) };

    fn join(self, other: Self) -> Self
        ensures { result ≡ kind.join self other };

    fn product(self, other: Self) -> Self
        ensures { result ≡ kind.product self other };

    ghost laws: { Laws kind };
}

impl Semiring for Count {
    ghost kind = { counts };

    ghost laws = { count_laws };

    fn zero() -> Count {
        Count { value: 0 }
    }

    fn one() -> Count {
        Count { value: 1 }
    }

    fn is_zero(self) -> bool {
        self.value == 0
    }

    fn join(self, other: Count) -> Count {
        Count {
            value: self.value.wrapping_add(other.value),
        }
    }

    fn product(self, other: Count) -> Count {
        Count {
            value: self.value.wrapping_mul(other.value),
        }
    }
}

impl Semiring for Cost {
    ghost kind = { costs };

    ghost laws = { cost_laws };

    fn zero() -> Cost {
        Cost { value: u64::MAX }
    }

    fn one() -> Cost {
        Cost { value: 0 }
    }

    fn is_zero(self) -> bool {
        self.value == u64::MAX
    }

    fn join(self, other: Cost) -> Cost {
        Cost {
            value: self.value.min(other.value),
        }
    }

    fn product(self, other: Cost) -> Cost {
        Cost {
            value: self.value.saturating_add(other.value),
        }
    }
}

impl Semiring for Can {
    ghost kind = { cans };

    ghost laws = { can_laws };

    fn zero() -> Can {
        Can { value: false }
    }

    fn one() -> Can {
        Can { value: true }
    }

    fn is_zero(self) -> bool {
        !self.value
    }

    fn join(self, other: Can) -> Can {
        Can {
            value: self.value | other.value,
        }
    }

    fn product(self, other: Can) -> Can {
        Can {
            value: self.value & other.value,
        }
    }
}
