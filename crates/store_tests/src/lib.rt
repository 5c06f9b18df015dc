// Runs of the store's calls on proved chips, with the answers and contents that they must give.
#![tactic(auto)]

#[cfg(test)]
mod board_tests;
#[cfg(test)]
mod buffer_tests;
#[cfg(test)]
mod day_tests;
#[cfg(test)]
mod hands;
#[cfg(test)]
mod limits_tests;
#[cfg(test)]
mod register_tests;
#[cfg(test)]
mod revert_tests;
#[cfg(test)]
mod slip_tests;
#[cfg(test)]
mod small_chip_tests;
