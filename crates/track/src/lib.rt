// Tracks as circles of bits: sources of them, frames, headers and data blocks.
#![tactic(auto)]

pub mod align;
pub mod block;
pub mod circle;
mod frames;
pub mod laws;
pub mod medium;
pub mod room;
pub mod source;
mod turned;
mod window;
