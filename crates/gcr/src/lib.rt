// Group coded recording: five bits on the track for four of data.
#![tactic(auto)]

pub mod byte;
pub mod group;
pub mod nibble;
pub mod single;
pub mod sum;
