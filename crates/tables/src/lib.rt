// The table of Brook and Evans, for every chart and weight kind.
#![tactic(auto)]

mod chain;
mod fill;
mod part;
mod refusal;
mod roll;
mod row;
mod side;
mod table;

pub use part::table_part;
pub use refusal::Refusal;
pub use row::{Row, Rows};
pub use side::Side;
pub use table::{ROW_CELLS, Table, tabulate};
