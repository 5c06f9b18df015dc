// A session: any chip is formatted, a list of calls is made on the store, and what was answered is
// given back. All memory is taken before the first call.
#![tactic(auto)]

mod blank;
mod calling;
mod hand;
mod leftovers;
mod making;
mod memory;
pub mod requests;
mod reserving;
mod running;

pub use requests::{Halt, Made, Reply, Request, Value};
pub use running::run_session;
