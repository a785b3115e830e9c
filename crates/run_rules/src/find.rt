// The rule of a name.
ghost use Rattle.std.specs.Prelude.{◌≡◌, ◌+◌, ◌*◌, ◌≤◌, length};
ghost use Rattle.units.specs.Name.{qubit};
ghost use Rattle.run_rules.specs.Code.{name_in, result_rule, adder_of, by_adder, reading_of, rule_by, join_rule, RuleAsked, rule_at};

use crate::{Adder, NumberedCircuit, Reading, Rule};
use circuit::GateKind;
use circuit_records::{byte1_at, field_at, kind_at};
use units::Qubit;

// A gate's qubit; 0 where it has none.
pub fn qubit_of(qubits: &[u16], g: u16) -> Qubit
    ensures { result ≡ qubit (name_in qubits.now g) }
{
    match qubits.get(usize::from(g)) {
        Some(entry) => Qubit(entry.saturating_sub(1)),
        None => Qubit(0),
    }
}

// The rule of a gate's result.
pub fn result_rule(m: Reading) -> Rule
    ensures { result ≡ result_rule m.kind m.index m.a m.b m.x m.y m.z }
{
    match m.kind {
        GateKind::Not => Rule::Not(m.x),
        GateKind::And => Rule::And(m.x, m.y),
        GateKind::Nand => Rule::Nand(m.x, m.y),
        GateKind::Or => Rule::Or(m.x, m.y),
        GateKind::Matriarch1 => Rule::Matriarch1(m.x, m.y),
        GateKind::ResultHalfAdder => Rule::ResultHalfAdder(m.x, m.y),
        GateKind::ResultFullAdder => Rule::ResultFullAdder(m.x, m.y, m.z),
        GateKind::Quotient => Rule::Quotient {
            index: m.index,
            dividend: m.a,
            divisor: m.b,
        },
        GateKind::Remainder => Rule::Remainder {
            index: m.index,
            dividend: m.a,
            divisor: m.b,
        },
        GateKind::ConstFalse
        | GateKind::ConstTrue
        | GateKind::InputBit
        | GateKind::CarryHalfAdder
        | GateKind::CarryFullAdder => Rule::Invalid,
    }
}

// Which adder a gate of this kind is, if any.
fn adder_of(kind: GateKind) -> Option<Adder>
    ensures { result ≡ adder_of kind }
{
    match kind {
        GateKind::ResultHalfAdder => Some(Adder::Half),
        GateKind::ResultFullAdder => Some(Adder::Full),
        _ => None,
    }
}

// Of an adder one of two rules, of any other gate none.
fn by_adder(adder: Option<Adder>, half: Rule, full: Rule) -> Rule
    ensures { result ≡ by_adder adder half full }
{
    match adder {
        None => Rule::Invalid,
        Some(Adder::Half) => half,
        Some(Adder::Full) => full,
    }
}

fn read_gate(on: &NumberedCircuit, g: u16) -> Reading
    requires { 16 * (g + 1) ≤ length on.now.circuit.now }
    ensures { result ≡ reading_of on.now.circuit.now on.now.qubits.now g }
{
    let at = usize::from(g);
    let a = field_at(on.circuit, at, 0);
    let b = field_at(on.circuit, at, 1);
    let c = field_at(on.circuit, at, 2);
    Reading {
        kind: kind_at(on.circuit, at),
        index: byte1_at(on.circuit, at),
        a,
        b,
        x: qubit_of(on.qubits, a),
        y: qubit_of(on.qubits, b),
        z: qubit_of(on.qubits, c),
    }
}

fn rule_by(m: Reading, role: u8) -> Rule
    ensures { result ≡ rule_by m role }
{
    let adder = adder_of(m.kind);
    match role {
        1 => result_rule(m),
        2 => by_adder(
            adder,
            Rule::CarryHalfAdder(m.x, m.y),
            Rule::CarryFullAdder(m.x, m.y, m.z),
        ),
        _ => by_adder(
            adder,
            Rule::AuxHalfAdder(m.x, m.y),
            Rule::AuxFullAdder(m.x, m.y, m.z),
        ),
    }
}

// The rule of join step j, whose name is q.
fn join_rule(on: &NumberedCircuit, q: Qubit, j: u16) -> Rule
    requires { (16 * (on.now.bads + j + 1) ≤ length on.now.circuit.now) × (1 ≤ q.0) }
    ensures { result ≡ join_rule on.now.circuit.now on.now.qubits.now on.now.bads q j }
{
    let x = if j == 1 {
        qubit_of(on.qubits, field_at(on.circuit, on.bads, 0))
    } else {
        Qubit(q.0 - 1)
    };
    let step = on.bads + usize::from(j);
    Rule::Or(x, qubit_of(on.qubits, field_at(on.circuit, step, 0)))
}

// The rule of the name q.
#[tactic(auto, unfolding(crate::specs::Code::rule_at))]
pub fn rule_at(on: &NumberedCircuit, q: Qubit) -> Rule
    requires { RuleAsked on.now.circuit.now on.now.bads on.now.origins.now on.now.roles.now q.0 }
    ensures { result ≡ rule_at on.now.circuit.now on.now.qubits.now on.now.origins.now on.now.roles.now on.now.bads q }
{
    let at = usize::from(q.0);
    let from = on.origins[at];
    match on.roles[at] {
        4 => join_rule(on, q, from),
        role @ 1..=3 => rule_by(read_gate(on, from), role),
        _ => Rule::Invalid,
    }
}
