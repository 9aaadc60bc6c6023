// Sets of at most two words of a table: their sums, and whether one of them is among others.
#![tactic(auto)]

pub mod collect;
pub mod few;
pub mod hits;
pub mod sums;
