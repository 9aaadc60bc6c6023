// The test of a plan: the conditions on courses, needles and check cells, and all checks of document 01 in order.
#![tactic(auto)]

pub mod checks;
pub mod conditions;
pub mod few;
pub mod pairs;
pub mod rest;
pub mod search;
pub mod test;
