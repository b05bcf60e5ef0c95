// Blocks of 256 bytes, from wherever they come.
#![tactic(auto)]

pub mod device;
pub mod source;
