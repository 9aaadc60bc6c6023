#![tactic(auto)]

pub mod choice;
pub mod parts;
pub mod print;
pub mod whole;
