// The reader of one sheet: the checks, the search for a burst, and what is written when one is found.
#![tactic(auto)]

pub mod answer;
pub mod burst;
pub mod read;
pub mod search;
pub mod turn;
