// A store of sectors on a raw flash chip that can go back to a frozen state.
//
// A store is made on a chip, which it takes by value, and is closed. Only unmount gives the chip
// back. Every call is total: what it answers, what it leaves in the buffer and what the chip reads
// as afterwards follow definitions over what the chip read as before.
#![tactic(auto)]

mod asking;
mod changing_calls;
mod opening;
pub mod parts;
pub mod slips;

pub use parts::Store;
pub use slips::Slip;
