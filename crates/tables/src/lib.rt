// Tables with one entry for each block, and the survey that fills one.
#![tactic(auto)]

pub mod survey;
pub mod table;
