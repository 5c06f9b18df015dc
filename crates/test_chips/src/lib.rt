// Chips for tests.
#![tactic(auto)]

mod counting;
mod row;
mod tiny;

pub use counting::Counting;
pub use row::Row;
pub use tiny::Tiny;
