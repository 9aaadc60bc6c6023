// A burst put back on a sheet, from the reader's answer (document 02, request k).
#![tactic(auto)]

pub mod checks;
pub mod putting;
