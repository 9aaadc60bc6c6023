// Making a plan from two binary polynomials (document 02, request a).
#![tactic(auto)]

pub mod making;
pub mod parameters;
pub mod taking;
