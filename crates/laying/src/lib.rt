// Laying bits on a circle: what every medium needs.
#![tactic(auto)]

pub mod check;
pub mod laws;
pub mod lay;
