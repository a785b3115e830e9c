// What a rule reads, in order, and what it does with it.
#![tactic(auto)]

ghost use Rattle.std.specs.Prelude.{◌≡◌, ◌≤◌, length, get_or};
ghost use Rattle.run_rules.specs.Code.{few_of, act_of, PartAsked, part_of, ListsAsked, operands_of, count_of, few_at, OperandAsked, read};

use circuit_records::field_at;
use run_rules::find::qubit_of;
use run_rules::{Act, Few, NumberedCircuit, Operands, Part, Rule};
use units::Qubit;

// The operands that stand in the rule itself.
pub fn few_of(rule: Rule) -> Few
    ensures { result ≡ few_of rule }
{
    let (n, x1, x2, x3) = match rule {
        Rule::Not(x) => (1, x, Qubit(0), Qubit(0)),
        Rule::And(x, y)
        | Rule::Nand(x, y)
        | Rule::Matriarch1(x, y)
        | Rule::Or(x, y)
        | Rule::AuxHalfAdder(x, y)
        | Rule::CarryHalfAdder(x, y)
        | Rule::ResultHalfAdder(x, y) => (2, x, y, Qubit(0)),
        Rule::AuxFullAdder(x, y, z)
        | Rule::CarryFullAdder(x, y, z)
        | Rule::ResultFullAdder(x, y, z) => (3, x, y, z),
        Rule::Quotient { .. } | Rule::Remainder { .. } | Rule::Invalid => {
            (0, Qubit(0), Qubit(0), Qubit(0))
        }
    };
    Few { n, x1, x2, x3 }
}

// What the rule does with them.
pub fn act_of(rule: Rule) -> Act
    ensures { result ≡ act_of rule }
{
    match rule {
        Rule::Quotient {
            index,
            dividend,
            divisor,
        } => Act::Quotient {
            index,
            dividend,
            divisor,
        },
        Rule::Remainder {
            index,
            dividend,
            divisor,
        } => Act::Remainder {
            index,
            dividend,
            divisor,
        },
        Rule::Invalid => Act::Nothing,
        _ => Act::Plain,
    }
}

// Where the bits of list k stand.
pub fn part_of(starts: &[u16], k: u16) -> Part
    requires { PartAsked starts.now k }
    ensures { result ≡ part_of starts.now k }
{
    let list = usize::from(k);
    let from = usize::from(starts[list]);
    let end = usize::from(starts[list + 1]);
    Part {
        from,
        bits: end - from,
    }
}

// The operands of a rule, in order.
pub fn operands_of(rule: Rule, starts: &[u16]) -> Operands
    requires { ListsAsked starts.now (act_of rule) }
    ensures { result ≡ operands_of starts.now rule }
{
    let few = few_of(rule);
    match act_of(rule) {
        Act::Quotient {
            dividend,
            divisor,
            ..
        }
        | Act::Remainder {
            dividend,
            divisor,
            ..
        } => Operands {
            few,
            first: part_of(starts, dividend),
            second: part_of(starts, divisor),
        },
        Act::Plain | Act::Nothing => Operands {
            few,
            first: Part { from: 0, bits: 0 },
            second: Part { from: 0, bits: 0 },
        },
    }
}

// How many operands there are.
pub fn count_of(o: Operands) -> usize
    requires { (o.few.n ≤ 3) × (o.first.bits ≤ 65536) × (o.second.bits ≤ 65536) }
    ensures { result ≡ count_of o }
{
    o.few.n + o.first.bits + o.second.bits
}

// One of the operands that stand in the rule.
fn few_at(few: Few, i: usize) -> Qubit
    ensures { result ≡ few_at few i }
{
    match i {
        0 => few.x1,
        1 => few.x2,
        _ => few.x3,
    }
}

// Operand i.
pub fn operand_at(on: &NumberedCircuit, o: Operands, i: usize) -> Qubit
    requires { OperandAsked (length on.now.circuit.now) o i }
    ensures { result.0 ≡ get_or (read on.now.circuit.now on.now.qubits.now o) i 0 }
{
    if i < o.few.n {
        return few_at(o.few, i);
    }
    let j = i - o.few.n;
    let at = if j < o.first.bits {
        o.first.from + j
    } else {
        o.second.from + (j - o.first.bits)
    };
    qubit_of(on.qubits, field_at(on.circuit, at, 1))
}
