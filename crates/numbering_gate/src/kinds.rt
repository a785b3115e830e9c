// What a gate of each kind does.
ghost use Rattle.std.specs.Prelude.{◌≡◌, ◌+◌, ◌*◌, ◌≤◌, length};
ghost use Rattle.circuit.specs.File.{kind_at};
ghost use Rattle.numbering_gate.specs.Kinds.{arity, act_of, is_division};

use crate::Act;
use circuit::GateKind;
use circuit_records::kind_at;

// How many of its fields a gate of this kind visits before it takes its name.
fn arity_of(kind: GateKind) -> usize
    ensures { result ≡ arity kind }
{
    match kind {
        GateKind::ConstFalse
        | GateKind::ConstTrue
        | GateKind::InputBit
        | GateKind::Quotient
        | GateKind::Remainder => 0,
        GateKind::Not | GateKind::CarryHalfAdder | GateKind::CarryFullAdder => 1,
        GateKind::And
        | GateKind::Nand
        | GateKind::Or
        | GateKind::Matriarch1
        | GateKind::ResultHalfAdder => 2,
        GateKind::ResultFullAdder => 3,
    }
}

fn act_of(kind: GateKind) -> Act
    ensures { result ≡ act_of kind }
{
    match kind {
        GateKind::ConstFalse => Act::Low,
        GateKind::ConstTrue => Act::High,
        GateKind::InputBit
        | GateKind::Not
        | GateKind::And
        | GateKind::Nand
        | GateKind::Or
        | GateKind::Matriarch1 => Act::One,
        GateKind::ResultHalfAdder | GateKind::ResultFullAdder => Act::Three,
        GateKind::CarryHalfAdder | GateKind::CarryFullAdder => Act::Share,
        GateKind::Quotient | GateKind::Remainder => Act::Done,
    }
}

// A division takes its name before it visits anything.
pub fn is_division(act: Act) -> bool
    ensures { result ≡ is_division act }
{
    matches!(act, Act::Done)
}

// How many fields gate n visits before it takes its name.
pub fn arity_at(circuit: &[u8], n: usize) -> usize
    requires { 16 * (n + 1) ≤ length circuit.now }
    ensures { result ≡ arity (kind_at circuit.now n) }
{
    arity_of(kind_at(circuit, n))
}

// What gate n does with names.
pub fn act_at(circuit: &[u8], n: usize) -> Act
    requires { 16 * (n + 1) ≤ length circuit.now }
    ensures { result ≡ act_of (kind_at circuit.now n) }
{
    act_of(kind_at(circuit, n))
}
