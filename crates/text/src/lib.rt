// The model text as definitions, and the writer of words and numbers. The one crate that knows spelling.
// Each function of `write` prints a text that a definition of specs/ gives, from a place on, and answers the place after it.
#![tactic(auto)]

pub mod write;
