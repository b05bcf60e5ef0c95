// What is promised of the whole library, as contracts of public calls.
#![tactic(auto)]

pub mod figures;
pub mod soundness;
