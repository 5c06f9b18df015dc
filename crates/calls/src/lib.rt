// The calls on an open store, over its chip and what it has in memory.
// Chip and index are lent apart: a struct of both would be made anew at each call, and could not say what stays.
#![tactic(auto)]

mod changes;
mod checks;
mod lookups;
mod opening;
mod queries;

pub use changes::{back, clean, delete, freeze, release, revert, write};
pub use opening::{format, mount};
pub use queries::{count, held, label, look, read, since, since_in};
