// A sheet turned into the other layout (document 02, request i): its bytes, and the call with its checks.
#![tactic(auto)]

pub mod transposing;
pub mod turning;
