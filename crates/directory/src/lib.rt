// DOS 2A names and directory entries.
#![tactic(auto)]

pub mod entry;
pub mod kind;
pub mod name;
