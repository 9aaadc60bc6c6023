// Where a data bit stands on the sheet, from the check list alone: the cells in the order of the data, and the cell of one bit.
#![tactic(auto)]

pub mod cursor;
pub mod find;
