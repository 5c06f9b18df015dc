// Tests of what is read of all pages of a chip: the scan, and mounting.
#![tactic(auto)]

#[cfg(test)]
mod mounting_tests;
#[cfg(test)]
mod scan_tests;
