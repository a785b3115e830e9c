// The circuit's own run, the model and its energy, and demand 3: see specs/. It has no code.
#![tactic(auto)]
