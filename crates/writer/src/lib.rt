// Writing a sheet from a string of data.
#![tactic(auto)]

pub mod balancing;
pub mod solving;
pub mod turning;
pub mod writing;
