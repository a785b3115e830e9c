// What a build answers. What it answers and leaves is a definition of specs/, and so is what follows of it.
#![tactic(auto)]

use units::Form;

pub mod answer;

// The nine tables that a caller lends.
#[derive(Drop)]
pub struct LentTables<'a> {
    pub qubits: &'a mut [u16],
    pub origins: &'a mut [u16],
    pub roles: &'a mut [u8],
    pub linear: &'a mut [i64],
    pub has_linear: &'a mut [u8],
    pub has_row: &'a mut [u8],
    pub fixed: &'a mut [u8],
    pub keys: &'a mut [u32],
    pub weights: &'a mut [i64],
}

// What a build says of the finished model: its form, how many names there are, how many pairs, the offset in halves, the variable count, and how many bad states and inputs the circuit has.
#[derive(Clone, Copy)]
pub struct Finished {
    pub form: Form,
    pub names: usize,
    pub pairs: usize,
    pub offset: i64,
    pub variables: usize,
    pub bads: usize,
    pub inputs: usize,
}
