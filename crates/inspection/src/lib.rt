// What the program `inspect` does between reading a chip image and printing.
#![tactic(auto)]

pub mod arguments;
pub mod descriptions;
pub mod images;
pub mod reports;
