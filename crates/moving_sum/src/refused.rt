// Why a chart's stops could not be counted.
ghost use Rattle.std.specs.Prelude.{◌≡◌};
ghost use Rattle.moving_sum.specs.Refused.{refused_number};
ghost use Rattle.moving_sum.specs.declared.refused.Refused.TheVariants.{Parameter, Table};

use std::fmt;

#[derive(Clone, Copy)]
pub enum Refused {
    // a parameter of a chart was refused
    Parameter(charts::Refusal),
    // the table call refused
    Table(tables::Refusal),
}

impl Refused {
    // The number of the refusal; it has a contract, which printing has not.
    pub(crate) fn number(self) -> u32
        ensures { result ≡ refused_number self }
    {
        match self {
            Refused::Parameter(refusal) => refusal.number(),
            Refused::Table(refusal) => refusal.number(),
        }
    }
}

impl fmt::Display for Refused {
    fn fmt<W: fmt::Write>(&self, f: &mut fmt::Formatter<W>) -> fmt::Result {
        write!(f, "refused {}", self.number())
    }
}

impl From<charts::Refusal> for Refused {
    ghost from_gives = { λ e r. r ≡ Parameter e };

    fn from(refusal: charts::Refusal) -> Refused {
        Refused::Parameter(refusal)
    }
}

impl From<tables::Refusal> for Refused {
    ghost from_gives = { λ e r. r ≡ Table e };

    fn from(refusal: tables::Refusal) -> Refused {
        Refused::Table(refusal)
    }
}
