// The row of a name: its kind, and the qubits at its slots. What differs by kind lies here.
#![tactic(auto)]

ghost use Rattle.std.specs.Prelude.{[], ◌∷◌, ◌≡◌, ◌-◌, ◌≤◌, ◌<◌, length, get_or};
ghost use Rattle.energy.specs.Plain.{more, mid};
ghost use Rattle.circuit.specs.File.{field, kind_at};
ghost use Rattle.numbering.specs.Numbered.{row_of};
ghost use Rattle.model_rows.specs.Lent.{circuit_in, state_in, GoodIn};
ghost use Rattle.model_rows.specs.Found.{ruled_by, second, third, row_at, rows_by, join_at, wires_of, found};
ghost use Rattle.model_rows.specs.Rowed.{Has, Operands, Ruling, Joining};

use circuit::GateKind;
use circuit_records::{field_at, kind_at};
use penalty::Kind;
use store_place::Wires;
use units::Qubit;

// A circuit whose gates and joins have names: its bytes, the records of its first bad state and its first constraint, how many bad states and
// constraints it has, the tables of names, and the next free name.
#[derive(Clone, Copy)]
pub struct Numbered<'a> {
    pub circuit: &'a [u8],
    pub bads: usize,
    pub constraints: usize,
    pub states: usize,
    pub count: usize,
    pub qubits: &'a [u16],
    pub origins: &'a [u16],
    pub roles: &'a [u8],
    pub next: Qubit,
}

// A row that is to be placed: its kind, and the qubits at its slots.
#[derive(Clone, Copy)]
pub struct Placed {
    pub kind: Kind,
    pub wires: Wires,
}

// The row that a gate of each kind has, if it has one.
pub fn ruled_by(kind: GateKind) -> Option<Kind>
    ensures { result ≡ ruled_by kind }
{
    match kind {
        GateKind::Not => Some(Kind::Not),
        GateKind::And => Some(Kind::And),
        GateKind::Nand => Some(Kind::Nand),
        GateKind::Or => Some(Kind::Or),
        GateKind::Matriarch1 => Some(Kind::Matriarch1),
        GateKind::ResultHalfAdder => Some(Kind::Half),
        GateKind::ResultFullAdder => Some(Kind::Full),
        GateKind::ConstFalse
        | GateKind::ConstTrue
        | GateKind::InputBit
        | GateKind::CarryHalfAdder
        | GateKind::CarryFullAdder
        | GateKind::Quotient
        | GateKind::Remainder => None,
    }
}

// How a row of a kind is read: the fields of its second and third operand, how many names it takes beyond the first, and where its carry stands.
#[derive(Clone, Copy)]
struct Shape {
    second: usize,
    third: usize,
    more: u16,
    mid: u16,
}

fn shape_of(kind: Kind) -> Shape
    ensures second { result.second ≡ second kind }
    ensures third { result.third ≡ third kind }
    ensures more { result.more ≡ more kind }
    ensures mid { result.mid ≡ mid kind }
    ensures bounds { (result.second < 3) × (result.third < 3) × (result.more ≤ 2) × (result.mid ≤ 1) }
{
    let (second, third, more, mid) = match kind {
        Kind::Not => (0, 0, 0, 0),
        Kind::And | Kind::Nand | Kind::Matriarch1 | Kind::Or => (1, 0, 0, 0),
        Kind::Half => (1, 0, 2, 1),
        Kind::Full => (1, 2, 2, 1),
    };
    Shape {
        second,
        third,
        more,
        mid,
    }
}

// The qubit of a gate that has one.
pub fn qubit_of(qubits: &[u16], g: usize) -> Qubit
    requires { (g < length qubits.now) × (1 ≤ get_or qubits.now g 0) }
    ensures { result.0 ≡ get_or qubits.now g 0 - 1 }
{
    Qubit(qubits[g] - 1)
}

// The qubit of the gate that field `i` of record `n` names.
pub fn named_by(circuit: &[u8], qubits: &[u16], n: usize, i: usize) -> Qubit
    requires { Has circuit.now qubits.now n i }
    ensures { result.0 ≡ get_or qubits.now (field circuit.now n i) 0 - 1 }
{
    let g = usize::from(field_at(circuit, n, i));
    qubit_of(qubits, g)
}

// The qubits at the slots of the row of gate `g`, whose result is `q`.
pub fn gate_wires(circuit: &[u8], qubits: &[u16], g: usize, q: u16, kind: Kind) -> Wires
    requires { Operands circuit.now qubits.now g kind × (2 ≤ q) }
    ensures { result ≡ wires_of (row_at circuit.now qubits.now g q kind) }
{
    let shape = shape_of(kind);
    let x1 = named_by(circuit, qubits, g, 0);
    let x2 = named_by(circuit, qubits, g, shape.second);
    let x3 = named_by(circuit, qubits, g, shape.third);
    let out = q - shape.more;
    Wires {
        x1,
        x2,
        x3,
        z: Qubit(q),
        a: Qubit(out),
        k: Qubit(out + shape.mid),
    }
}

// The row of gate `g`, whose result is `q`, if it has one.
pub fn gate_row(circuit: &[u8], qubits: &[u16], g: usize, q: u16) -> Option<Placed>
    requires { Ruling circuit.now qubits.now g q }
    ensures { result ≡ found (rows_by circuit.now qubits.now g q (ruled_by (kind_at circuit.now g))) }
{
    let kind = ruled_by(kind_at(circuit, g))?;
    let wires = gate_wires(circuit, qubits, g, q, kind);
    Some(Placed { kind, wires })
}

// The Or of join step `j`, whose result is `q`: the first two bad states, and then the last join's result and the next bad state.
pub fn join_row(circuit: &[u8], bads: usize, qubits: &[u16], j: usize, q: u16) -> Option<Placed>
    requires { Joining circuit.now bads qubits.now j q }
    ensures { result ≡ found (join_at circuit.now bads qubits.now j q ∷ []) }
{
    let x1 = if j == 1 {
        named_by(circuit, qubits, bads, 0)
    } else {
        Qubit(q - 1)
    };
    let x2 = named_by(circuit, qubits, bads + j, 0);
    let z = Qubit(q);
    Some(Placed {
        kind: Kind::Or,
        wires: Wires {
            x1,
            x2,
            x3: x1,
            z,
            a: z,
            k: z,
        },
    })
}

// The row of the name `q`, if it has one.
pub fn row_at(numbered: Numbered, q: usize) -> Option<Placed>
    requires { GoodIn numbered × (2 ≤ q) × (q < numbered.next.0) }
    ensures { result ≡ found (row_of (circuit_in numbered.entry) (state_in numbered.entry) q) }
{
    let Numbered {
        circuit,
        bads,
        qubits,
        origins,
        roles,
        ..
    } = numbered;
    let from = usize::from(origins[q]);
    let name = q as u16;
    match roles[q] {
        1 => gate_row(circuit, qubits, from, name),
        4 => join_row(circuit, bads, qubits, from, name),
        _ => None,
    }
}
