// What the command line says, and how answers are printed.
#![tactic(auto)]

pub mod account;
pub mod command;
pub mod dump;
pub mod name;
pub mod number;
#[cfg(test)]
mod tests;
pub mod verb;
