// Track sources whose circles begin right after a sync.
#![tactic(auto)]

pub mod aligner;
pub mod laws;
