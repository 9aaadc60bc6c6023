// Two scans of one film, read together.
#![tactic(auto)]

pub mod agree;
pub mod reading;
