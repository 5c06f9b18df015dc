// The program `bench` between its input and its output: which calls a command makes on a store, and
// what the answers say in its rows.
#![tactic(auto)]

pub mod asking;
pub mod fills;
pub mod runs;
pub mod telling;
