// The interface of a chart.
ghost use Rattle.std.specs.Prelude.{◌≡◌};
ghost use Rattle.charts.specs.Meaning.{Meaning, Sound};

// A chart answers four questions for a limit, and a question changes nothing: the answers are those
// of its meaning, which keeps what every chart owes.
pub trait Chart {
    ghost meaning: { Self → Meaning };

    ghost sound: { (c : Self) → Sound (meaning c) };

    // The state count: 0, and not `None`, where it has no states or too many.
    fn count(&self, limit: u32) -> u32
        ensures { result ≡ (meaning self.now).count limit };

    // The start state.
    fn start(&self, limit: u32) -> u32
        ensures { result ≡ (meaning self.now).moves.start limit };

    // The state after a state and a symbol.
    fn step(&self, limit: u32, state: u32, symbol: u8) -> u32
        ensures { result ≡ (meaning self.now).moves.step limit state symbol };

    // Whether a state alarms.
    fn alarm(&self, limit: u32, state: u32) -> bool
        ensures { result ≡ (meaning self.now).moves.alarm limit state };
}
