// Where a zone begins.
ghost use Rattle.std.specs.Prelude.{◌≡◌};
ghost use Rattle.charts.specs.Edge.{edge_fits, member};

const MAX_EDGE: u8 = 16;

#[derive(Clone, Copy)]
pub enum Edge {
    // at a symbol; at 16 there is none
    At(u8),
    // at the limit
    Limit,
}

impl Edge {
    // Whether the edge is in range.
    pub(crate) fn fits(self) -> bool
        ensures { result ≡ edge_fits self }
    {
        match self {
            Edge::At(symbol) => symbol <= MAX_EDGE,
            Edge::Limit => true,
        }
    }

    // Whether a symbol is a member at the limit: at or above the edge.
    pub(crate) fn is_member(self, limit: u32, symbol: u8) -> bool
        ensures { result ≡ member self limit symbol }
    {
        match self {
            Edge::At(least) => symbol >= least,
            Edge::Limit => u32::from(symbol) >= limit,
        }
    }
}
