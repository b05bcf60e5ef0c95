// The words that all layers share: tracks, sectors, places, refusals, and files of images.
#![tactic(auto)]

pub mod bytes;
pub mod cause;
pub mod file;
pub mod laws;
pub mod layer;
pub mod place;
pub mod refusal;
