// What running inputs on a finished model means, and the values that a run needs, in the order of need. The crate `run_tables` makes the run.
// What each function answers is a definition of specs/, which follow 01's "Running inputs".
#![tactic(auto)]

pub mod needs;
