// Placing penalties into the coefficient store: each goes by value to its qubits, its pairs to the end of a log, which the crate `store_settle` settles once.
#![tactic(auto)]

use units::Qubit;

pub mod place;

// The qubits at the six slots of a penalty. A slot that the penalty does not use may name any qubit.
#[derive(Clone, Copy)]
pub struct Wires {
    pub x1: Qubit,
    pub x2: Qubit,
    pub x3: Qubit,
    pub z: Qubit,
    pub a: Qubit,
    pub k: Qubit,
}
