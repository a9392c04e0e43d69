// The bounds of symbols, states and limits.
ghost use Rattle.std.specs.Prelude.{◌≡◌};
ghost use Rattle.charts.specs.Ranges.{valid, within};

// How many symbols there are.
pub const SYMBOLS: u8 = 16;

// The most states that a chart may have.
pub const MAX_STATES: u32 = 1024;

// The greatest limit at which a chart may have states; the least is 1.
pub const MAX_LIMIT: u32 = 1023;

// Whether a chart may have states at the limit.
pub fn is_valid(limit: u32) -> bool
    ensures { result ≡ valid limit }
{
    (1..=MAX_LIMIT).contains(&limit)
}

// Whether a state is below the count and a symbol is one: where not, a step answers 0.
pub fn is_within(count: u32, state: u32, symbol: u8) -> bool
    ensures { result ≡ within count state symbol }
{
    state < count && symbol < SYMBOLS
}
