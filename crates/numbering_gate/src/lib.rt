// What one gate does with names, outside the recursion: `kinds` says it of each kind, `names` gives the names.
// What each function leaves in the tables is a definition of specs/, which follow 01 sentence by sentence.
#![tactic(auto)]

use units::Qubit;

pub mod kinds;
pub mod names;

// The numbering as far as it has come: the lent tables, of a gate's qubit, and of each name's origin and role, with the next free name.
#[derive(Drop)]
pub struct Naming<'a> {
    pub qubits: &'a mut [u16],
    pub origins: &'a mut [u16],
    pub roles: &'a mut [u8],
    pub next: Qubit,
}

// What a gate does with names once its operands have theirs: it has qubit 0 or 1, takes one name or three, shares its adder's carry, or took its name before.
#[derive(Clone, Copy)]
pub enum Act {
    Low,
    High,
    One,
    Three,
    Share,
    Done,
}
