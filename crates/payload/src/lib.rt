// Data into the cells of a sheet and out of them, in the order of the data; and the data bit of one cell turned over.
#![tactic(auto)]

pub mod held;
pub mod transfer;
