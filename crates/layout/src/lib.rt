// What stands in the bytes of a plan and of a sheet: numbers, low byte first, and cells, in either layout; the next of some places, and
// where two strings of bytes first differ.
#![tactic(auto)]

pub mod cells;
pub mod cycle;
pub mod differ;
pub mod number;
pub mod stored;
