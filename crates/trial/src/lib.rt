// The burst for two sums, by trial: a search that needs no algebra.
#![tactic(auto)]

pub mod pattern;
pub mod rectangle;
pub mod sheet;
