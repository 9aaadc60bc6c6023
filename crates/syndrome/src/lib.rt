// The two sums of a run of rows, and so of a sheet: of the V entries and of the H entries of its dark cells.
#![tactic(auto)]

pub mod columns;
pub mod gather;
pub mod run;
pub mod sums;
pub mod whole;
