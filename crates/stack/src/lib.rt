// The read of a stack of sheets under one plan (document 02, request h).
#![tactic(auto)]

pub mod checks;
pub mod reading;
