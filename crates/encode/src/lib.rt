// A plan into bytes (document 01, "Plan bytes"): the header, the two tables and the check list, one after the other.
#![tactic(auto)]

pub mod parts;
pub mod whole;
