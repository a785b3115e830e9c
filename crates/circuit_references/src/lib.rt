// The checks of what a record names: `earlier` 4, `partner` 5.
// What each function answers is a definition of the crate `circuit`: see its specs/Check.antt.
#![tactic(auto)]

pub mod earlier;
pub mod partner;
