// Images of disks, whatever their kind.
#![tactic(auto)]

pub mod image;
