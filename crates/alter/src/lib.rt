// One data bit of a sheet turned over (document 02, request f), and the check cells brought up to date.
#![tactic(auto)]

pub mod altering;
pub mod checks;
