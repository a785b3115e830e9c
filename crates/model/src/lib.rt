// The model of a numbered circuit: the penalties of its gates and joins placed at their qubits, the pairs settled, the qubits fixed, the form turned and the variables counted.
// The rows are placed by the crate `model_place`, the pairs settled by `store_settle`, the qubits fixed by `model_fix_all`, the form turned by `model_finish`.
#![tactic(auto)]

pub mod model;
