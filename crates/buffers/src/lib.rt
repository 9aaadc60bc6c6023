// The checks of a call, before it touches a buffer: the plan, and then the lent buffers (document 01, checks 1 to 13; document 02, checks 21 and 24).
#![tactic(auto)]

pub mod call;
pub mod lent;
