// A plan's bytes: the header, the tables and the check list, and the rules of form (document 01, checks 1 to 7).
#![tactic(auto)]

pub mod entry;
pub mod form;
pub mod header;
pub mod table;
pub mod verdict;
pub mod view;
