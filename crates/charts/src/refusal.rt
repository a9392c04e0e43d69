// Why a chart's parameter is refused.
ghost use Rattle.std.specs.Prelude.{◌≡◌};
ghost use Rattle.charts.specs.Refusal.{number as number_of};

#[derive(Clone, Copy, PartialEq, Eq, Debug)]
pub enum Refusal {
    // a number outside its range
    OutOfRange = 23,
    // a zone rule that asks for more members than it looks at courses
    HitsAboveWindow = 27,
}

impl Refusal {
    // The number of the refusal.
    pub fn number(self) -> u32
        ensures { result ≡ number_of self }
    {
        self as u32
    }
}
