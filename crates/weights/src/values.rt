// The values of the three weight kinds. A ghost field says that a number fits its width, so that
// the laws hold of every value.
ghost use Rattle.std.specs.Prelude.{◌≡◌, ◌^◌, ◌<◌};

// A count of sequences, modulo 2^64.
#[derive(Clone, Copy)]
pub struct Count {
    pub value: u64,
    ghost fits: { value < 2 ^ 64 },
}

// A cost; the largest number stands for an absent one, so that a cost is a 64-bit number like a count.
#[derive(Clone, Copy)]
pub struct Cost {
    pub value: u64,
    ghost fits: { value < 2 ^ 64 },
}

// Yes or no: whether there is such a sequence at all.
#[derive(Clone, Copy)]
pub struct Can {
    pub value: bool,
}

impl Cost {
    ghost use Rattle.weights.specs.Kinds.{present as present_cost};

    // The value, or none where the cost is absent.
    pub fn present(self) -> Option<u64>
        ensures { result ≡ present_cost self }
    {
        (self.value != u64::MAX).then_some(self.value)
    }
}

impl From<u16> for Count {
    ghost use Rattle.weights.specs.Kinds.{count};

    ghost from_gives = { λ n c. c ≡ count n };

    fn from(number: u16) -> Count {
        Count {
            value: u64::from(number),
        }
    }
}

impl From<u16> for Cost {
    ghost use Rattle.weights.specs.Kinds.{cost};

    ghost from_gives = { λ n c. c ≡ cost n };

    fn from(amount: u16) -> Cost {
        Cost {
            value: u64::from(amount),
        }
    }
}
