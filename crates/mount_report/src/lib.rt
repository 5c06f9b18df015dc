// What mount makes of a chip, in lines, and a report that holds them. (No program prints them yet.)
#![tactic(auto)]

mod lists;
mod mounted;
mod mounts;
mod opened;
mod reports;

pub use mounts::mount_lines;
pub use reports::image_report;
