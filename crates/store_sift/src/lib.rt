// All fixes of a build at once: each value is entered at its own qubit, and then one pass over the pairs sends each where the values of its ends say.
#![tactic(auto)]

pub mod enter;
pub mod sift;
