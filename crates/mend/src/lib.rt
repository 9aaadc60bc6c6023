// The burst for the two sums of a sheet: found by windows and strips, and reported. It knows the plan's tables and not the bytes of a
// sheet.
#![tactic(auto)]

pub mod few;
pub mod find;
pub mod fit;
pub mod found;
pub mod report;
pub mod strip;
