// Fixing a qubit of a finished model.
#![tactic(auto)]

pub mod fix;
