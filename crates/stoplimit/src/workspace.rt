// Rows to make tables in, for every chart.
ghost use Rattle.std.specs.Prelude.{◌≡◌, ◌≤◌, length};
ghost use Rattle.tables.specs.Row.{held};

use tables::{ROW_CELLS, Rows};
use weights::Semiring;

// Rows with a cell for each state that a chart can have.
#[derive(Drop)]
pub struct Workspace<'a, S: Semiring> {
    pub rows: Rows<'a, 'a, S>,
    ghost first_room: { 1024 ≤ length (held rows.first) },
    ghost second_room: { 1024 ≤ length (held rows.second) },
}

impl<'a, S: Semiring> Workspace<'a, S> {
    // The rows over these cells.
    pub(crate) fn new(
        first: &'a mut [S; ROW_CELLS],
        second: &'a mut [S; ROW_CELLS],
    ) -> Workspace<'a, S>
        ensures first { held result.rows.first ≡ first.old }
        ensures second { held result.rows.second ≡ second.old }
    {
        Workspace {
            rows: Rows::new(first, second),
        }
    }
}
