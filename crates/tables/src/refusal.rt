// Why the table call refuses.
ghost use Rattle.std.specs.Prelude.{◌≡◌};
ghost use Rattle.tables.specs.Refusal.{number as number_of};

#[derive(Clone, Copy, PartialEq, Eq, Debug)]
pub enum Refusal {
    // no weights, more than 16, or more than 40 courses
    OutOfBounds = 41,
    // a row shorter than 1,024 cells
    ShortRow = 42,
    // the chart has no states at the limit, or too many
    NoStates = 43,
}

impl Refusal {
    // The number of the refusal.
    pub fn number(self) -> u32
        ensures { result ≡ number_of self }
    {
        self as u32
    }
}
