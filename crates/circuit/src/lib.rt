// The circuit file: records of 16 bytes, what the bytes mean, and when they are refused. The one crate that knows how a record lies in bytes.
// The definitions in specs/ follow 01 sentence by sentence. The crate `circuit_records` reads a record's parts, `circuit_lists` says where lists and inputs stand and reads the bad states and
// inputs of an accepted file; the code of the checks 1 to 7 is the crates `circuit_form`, `circuit_sizes`, `circuit_references` and `circuit_check`.
#![tactic(auto)]

ghost use Rattle.std.specs.Prelude.{◌≡◌};
ghost use Rattle.circuit.specs.File.{kind_of, section_of};

pub mod answers;

use units::{Gate, Qubit};

// The gates, by 01's names.
#[derive(Clone, Copy)]
pub enum GateKind {
    ConstFalse,
    ConstTrue,
    InputBit,
    Not,
    And,
    Nand,
    Or,
    Matriarch1,
    CarryHalfAdder,
    ResultHalfAdder,
    CarryFullAdder,
    ResultFullAdder,
    Quotient,
    Remainder,
}

// By its number in the file; a number that is no gate's is read as ConstFalse.
impl From<u8> for GateKind {
    ghost from_gives = { λ k g. g ≡ kind_of k };

    #[tactic(auto, unfolding(crate::specs::File::kind_of))]
    fn from(kind: u8) -> GateKind {
        match kind {
            1 => GateKind::ConstTrue,
            2 => GateKind::InputBit,
            3 => GateKind::Not,
            4 => GateKind::And,
            5 => GateKind::Nand,
            6 => GateKind::Or,
            7 => GateKind::Matriarch1,
            8 => GateKind::CarryHalfAdder,
            9 => GateKind::ResultHalfAdder,
            10 => GateKind::CarryFullAdder,
            11 => GateKind::ResultFullAdder,
            12 => GateKind::Quotient,
            13 => GateKind::Remainder,
            _ => GateKind::ConstFalse,
        }
    }
}

// The sections of the file, in their order.
#[derive(Clone, Copy)]
pub enum Section {
    Gates,
    ListBits,
    BadStates,
    Constraints,
    InputBits,
    Unknown,
}

// By the number of a record's kind.
impl From<u8> for Section {
    ghost from_gives = { λ k s. s ≡ section_of k };

    #[tactic(auto, unfolding(crate::specs::File::section_of))]
    fn from(kind: u8) -> Section {
        match kind {
            0..=13 => Section::Gates,
            20 => Section::ListBits,
            21 => Section::BadStates,
            22 => Section::Constraints,
            23 => Section::InputBits,
            _ => Section::Unknown,
        }
    }
}

// Of the numbers of lists, or of inputs, in the records passed: how many have begun, and how many bits the last one has.
#[derive(Clone, Copy)]
pub struct Run {
    pub begun: usize,
    pub bits: usize,
}

// What the form of the next record depends on: the last record's place in the order of sections, the lists and the inputs so far, and the last input's nid.
// The place is a number, as `order_at` of specs/Form.antt has it: two places are compared, and unknown kinds come last.
#[derive(Clone, Copy)]
pub struct Passed {
    pub order: u8,
    pub lists: Run,
    pub inputs: Run,
    pub nid: u64,
}

// The place of a record in the file, from 0.
#[derive(Clone, Copy)]
pub struct Record(pub usize);

// An input's number.
#[derive(Clone, Copy)]
pub struct Input(pub u16);

// How many records of each section a file has, and how many lists and inputs.
#[derive(Clone, Copy)]
pub struct Counts {
    pub gates: usize,
    pub list_bits: usize,
    pub lists: usize,
    pub bad_states: usize,
    pub constraints: usize,
    pub input_bits: usize,
    pub inputs: usize,
}

// The ways to say no, by 01's numbers, each with its place.
#[derive(Clone, Copy)]
pub enum Refusal {
    // 1: length is not a multiple of 16
    Length,
    // 2: too many records of a kind
    TooMany,
    // 3: a record breaks the form
    Form(Record),
    // 4: a gate is named that is not earlier, or that is none
    NotEarlier(Record),
    // 5: a carry's adder, a named list or an input bit's gate is not what it has to be
    Partner(Record),
    // 6: there is no bad state
    NoBadState,
    // 7: the tables are too short
    Room,
    // 8: a bad-state or constraint gate already has a qubit when its turn comes
    HasQubit(Gate),
    // 9: a qubit is to be fixed to two values
    FixedTwice(Qubit),
    // 10: the value table is shorter than the model's qubit names
    FewValues,
    // 11: the count of values differs from the count of inputs
    OtherCount,
    // 12: a listed input bit has no qubit
    NoQubit(Gate),
    // 13: a value is not used up by its bits
    NotUsedUp(Input),
    // 14: a needed division has divisor 0
    DivisorZero(Qubit),
    // 15: a needed InputBit is neither given nor fixed
    NotGiven(Qubit),
    // 17: the text buffer is shorter than the text
    ShortText,
}
