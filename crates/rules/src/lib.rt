// What each call on an open store answers, and the reading that it leaves: the types of the answers,
// and the rules.
#![tactic(auto)]

pub mod types;

pub use types::{Count, Holding, Tick};
