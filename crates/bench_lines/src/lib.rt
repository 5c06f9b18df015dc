// What the program `bench` does between reading its input and making calls on a store, and what it prints.
#![tactic(auto)]

pub mod commands;
pub mod lines;
mod numbers;
pub mod replies;
mod splits;
