// The rule of a qubit, read off its origin and role and the circuit; it is not stored. Its value from those that it reads; which those are is the crate `run_operands`.
#![tactic(auto)]

use circuit::GateKind;
use units::Qubit;

pub mod apply;
pub mod find;

// The rules by the Rust's names. A division has its index and its lists' numbers.
// Invalid, for a name that has none, stays a variant: `Law` of specs/Rules.antt has it, and `meant`, `act_of` and `rule_at` of specs/Code.antt and `settle` of run_values name it.
#[derive(Clone, Copy)]
pub enum Rule {
    Not(Qubit),
    And(Qubit, Qubit),
    Nand(Qubit, Qubit),
    Matriarch1(Qubit, Qubit),
    Or(Qubit, Qubit),
    AuxHalfAdder(Qubit, Qubit),
    AuxFullAdder(Qubit, Qubit, Qubit),
    CarryHalfAdder(Qubit, Qubit),
    CarryFullAdder(Qubit, Qubit, Qubit),
    ResultHalfAdder(Qubit, Qubit),
    ResultFullAdder(Qubit, Qubit, Qubit),
    Quotient {
        index: u8,
        dividend: u16,
        divisor: u16,
    },
    Remainder {
        index: u8,
        dividend: u16,
        divisor: u16,
    },
    Invalid,
}

// Which adder a gate is.
#[derive(Clone, Copy)]
pub enum Adder {
    Half,
    Full,
}

// What a rule does once it has read its operands.
// Nothing, what Invalid does, stays a variant: `act_of`, `ListsAsked` and `operands_by` of specs/Code.antt name it, and `value_as` of run_values.
#[derive(Clone, Copy)]
pub enum Act {
    Plain,
    Quotient {
        index: u8,
        dividend: u16,
        divisor: u16,
    },
    Remainder {
        index: u8,
        dividend: u16,
        divisor: u16,
    },
    Nothing,
}

// The first n operands stand in the rule itself.
#[derive(Clone, Copy)]
pub struct Few {
    pub n: usize,
    pub x1: Qubit,
    pub x2: Qubit,
    pub x3: Qubit,
}

// The bits of a list: its first record, and how many.
#[derive(Clone, Copy)]
pub struct Part {
    pub from: usize,
    pub bits: usize,
}

// What a rule reads, in order: its own operands, then the bits of two lists.
#[derive(Clone, Copy)]
pub struct Operands {
    pub few: Few,
    pub first: Part,
    pub second: Part,
}

// What a gate's record says of its rules: its kind, its index, its fields, and the qubits of the gates that they name.
#[derive(Clone, Copy)]
pub struct Reading {
    pub kind: GateKind,
    pub index: u8,
    pub a: u16,
    pub b: u16,
    pub x: Qubit,
    pub y: Qubit,
    pub z: Qubit,
}

// What the values of a run rest on: the bytes of the circuit, where its lists and its bad states begin in them, the numbering, and the fixed values.
// The tables by name are cut to 3G + B + 1 entries, for G gates and B bad states; `names` is the next free name.
#[derive(Clone, Copy)]
pub struct NumberedCircuit<'a> {
    pub circuit: &'a [u8],
    pub starts: &'a [u16],
    pub bads: usize,
    pub qubits: &'a [u16],
    pub origins: &'a [u16],
    pub roles: &'a [u8],
    pub names: usize,
    pub fixed: &'a [u8],
}
