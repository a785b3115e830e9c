// The recursion: `visit` gives a gate's qubit or processes it, and `process` visits what the gate needs.
ghost use Rattle.std.specs.Prelude.{◌≡◌, ◌≤◌, ◌<◌, length};
ghost use Rattle.energy.specs.Circuit.{AllBelow};
ghost use Rattle.circuit.specs.Meaning.{list_of};
ghost use Rattle.numbering.specs.State.{state_of, SameTables};
ghost use Rattle.numbering.specs.Visit.{visit_of, process_of, visits};
ghost use Rattle.numbering.specs.Read.{gates_in, fields_from, ListAt, Ready, Fresh, Answer};

use circuit_records::field_at;
use numbering_gate::Naming;
use numbering_gate::kinds::{act_at, arity_at, is_division};
use units::{Gate, Qubit};

// A gate's qubit: the one it has, or the one that processing gives it.
#[cycle(process_visit_visit_list_visit_operands)]
pub fn visit(circuit: &[u8], starts: &[u16; 65], naming: &mut Naming, g: Gate) -> Qubit
    requires { Ready circuit.now starts.now (state_of naming.old) × (g.0 < length (gates_in circuit.now)) }
    ensures answer { Answer g.0 result.0 (state_of naming.new) (visit_of (gates_in circuit.now) g.0 (state_of naming.old)) }
    ensures same { SameTables naming.old naming.new }
{
    let q = naming.qubits[g.0 as usize];
    if q == 0 {
        process(circuit, starts, naming, g)
    } else {
        Qubit(q - 1)
    }
}

// A gate that has no qubit: a division takes its name and then visits its lists, any other gate visits its operands and then takes its names.
#[cycle(process_visit_visit_list_visit_operands)]
pub fn process(circuit: &[u8], starts: &[u16; 65], naming: &mut Naming, g: Gate) -> Qubit
    requires { Ready circuit.now starts.now (state_of naming.old) × Fresh circuit.now g.0 (state_of naming.old) }
    ensures answer { Answer g.0 result.0 (state_of naming.new) (process_of (gates_in circuit.now) g.0 (state_of naming.old)) }
    ensures same { SameTables naming.old naming.new }
{
    let at = g.0 as usize;
    let act = act_at(circuit, at);
    if is_division(act) {
        naming.one_name(g);
        visit_list(circuit, starts, naming, field_at(circuit, at, 0), at);
        visit_list(circuit, starts, naming, field_at(circuit, at, 1), at);
    } else {
        visit_operands(circuit, starts, naming, at, arity_at(circuit, at));
        naming.finish_gate(act, circuit, g);
    }
    Qubit(naming.qubits[at] - 1)
}

// Visits the first `n` fields of gate `at`, left to right.
#[cycle(process_visit_visit_list_visit_operands)]
pub fn visit_operands(circuit: &[u8], starts: &[u16; 65], naming: &mut Naming, at: usize, n: usize)
    requires { Ready circuit.now starts.now (state_of naming.old) × (at < length (gates_in circuit.now)) × (n ≤ 3) × AllBelow at (fields_from circuit.now at 0 n) }
    ensures tables { state_of naming.new ≡ visits (gates_in circuit.now) (fields_from circuit.now at 0 n) (state_of naming.old) }
    ensures same { SameTables naming.old naming.new }
{
    for i in 0..n {
        let operand = Gate(field_at(circuit, at, i));
        visit(circuit, starts, naming, operand);
    }
}

// Visits the gates of list `k`, lowest bit first: gates that are all below `at`.
#[cycle(process_visit_visit_list_visit_operands)]
pub fn visit_list(circuit: &[u8], starts: &[u16; 65], naming: &mut Naming, k: u16, at: usize)
    requires { Ready circuit.now starts.now (state_of naming.old) × (at < length (gates_in circuit.now)) × ListAt circuit.now starts.now k × AllBelow at (list_of circuit.now k) }
    ensures tables { state_of naming.new ≡ visits (gates_in circuit.now) (list_of circuit.now k) (state_of naming.old) }
    ensures same { SameTables naming.old naming.new }
{
    let list = k as usize;
    for n in starts[list] as usize..starts[list + 1] as usize {
        let operand = Gate(field_at(circuit, n, 1));
        visit(circuit, starts, naming, operand);
    }
}
