// Blocks out of the bits of tracks, and back.
#![tactic(auto)]

pub mod coder;
pub mod decoder;
pub mod laws;
pub mod writer;
