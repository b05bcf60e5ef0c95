// Files of a DOS 2A volume, over any source of blocks.
#![tactic(auto)]

pub mod extract;
pub mod find;
pub mod laws;
