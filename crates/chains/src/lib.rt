// Blocks followed from link to link, over any source of blocks.
#![tactic(auto)]

pub mod chain;
pub mod follow;
pub mod laws;
pub mod route;
pub mod set;
