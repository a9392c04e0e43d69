// Why there is no design.
ghost use Rattle.std.specs.Prelude.{◌≡◌};
ghost use Rattle.stoplimit.specs.Refused.{refused_number};
ghost use Rattle.stoplimit.specs.declared.refused.Refused.TheVariants.{Parameter};

use std::fmt;

#[derive(Clone, Copy)]
pub enum Refused {
    // a parameter of the chart was refused
    Parameter(charts::Refusal),
    // no limit of the range is fit
    NoFitLimit,
}

impl Refused {
    // The number of the refusal; it has a contract, which printing has not.
    fn number(self) -> u32
        ensures { result ≡ refused_number self }
    {
        match self {
            Refused::Parameter(refusal) => refusal.number(),
            Refused::NoFitLimit => 15,
        }
    }
}

impl fmt::Display for Refused {
    fn fmt<W: fmt::Write>(&self, f: &mut fmt::Formatter<W>) -> fmt::Result {
        write!(f, "(refused {} 0)", self.number())
    }
}

impl From<charts::Refusal> for Refused {
    ghost from_gives = { λ e r. r ≡ Parameter e };

    fn from(refusal: charts::Refusal) -> Refused {
        Refused::Parameter(refusal)
    }
}
