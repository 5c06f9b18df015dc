// Runs of cleaning on a chip of three blocks of two pages.
#![tactic(auto)]

#[cfg(test)]
mod tests;
