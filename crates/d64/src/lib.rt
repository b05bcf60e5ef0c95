// D64: the 683 blocks of a disk in place order, in one file.
#![tactic(auto)]

pub mod image;
