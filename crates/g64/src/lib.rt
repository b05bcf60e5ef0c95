// G64: the tracks of a disk as circles of bits, in one file.
#![tactic(auto)]

pub mod image;
mod layout;
pub mod medium;
mod number;
