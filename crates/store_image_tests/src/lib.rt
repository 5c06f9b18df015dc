// Tests of the store on crafted chips, and of what its calls cost.
#![tactic(auto)]

#[cfg(test)]
mod cost_tests;
#[cfg(test)]
mod last_clock_tests;
#[cfg(test)]
mod mount_tests;
#[cfg(test)]
mod size_tests;
#[cfg(test)]
mod state_tests;
#[cfg(test)]
mod verdicts;
