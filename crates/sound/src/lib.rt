// Whether a volume is sound, and who keeps each block of it.
#![tactic(auto)]
