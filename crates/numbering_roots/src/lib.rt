// The whole numbering: bad states in order, then constraints, and then the joins' names.
#![tactic(auto)]

ghost use Rattle.std.specs.Prelude.{◌≡◌, ◌+◌, ◌*◌, ◌-◌, ◌≤◌, ◌<◌, length};
ghost use Rattle.energy.specs.Circuit.{AllBelow};
ghost use Rattle.circuit.specs.Meaning.{circuit_of};
ghost use Rattle.numbering.specs.State.{mk, start, state_of, SameTables};
ghost use Rattle.numbering.specs.Numbered.{visit_roots, join_names, number};
ghost use Rattle.numbering.specs.Read.{gates_in, gates_from, outcome_of, ended_of, Ready, Prepared};

use circuit_records::field_at;
use numbering::HasQubit;
use numbering::walk::visit;
use numbering_gate::Naming;
use units::{Gate, Qubit};

// Visits the gates that the records from `from` to `to` name, each of which must have no qubit when its turn comes.
pub fn visit_roots(
    circuit: &[u8],
    starts: &[u16; 65],
    naming: &mut Naming,
    from: usize,
    to: usize,
) -> Result<(), HasQubit>
    requires { Ready circuit.now starts.now (state_of naming.old) × (from ≤ to) × (16 * to ≤ length circuit.now) × AllBelow (length (gates_in circuit.now)) (gates_from circuit.now 0 from (to - from)) }
    ensures outcome { ended_of result (state_of naming.new) ≡ visit_roots (gates_in circuit.now) (gates_from circuit.now 0 from (to - from)) (state_of naming.old) }
    ensures same { SameTables naming.old naming.new }
{
    for n in from..to {
        let gate = Gate(field_at(circuit, n, 0));
        let q = naming.qubits[gate.0 as usize];
        if q != 0 {
            return Err(HasQubit {
                gate,
                next: naming.next,
            });
        }
        visit(circuit, starts, naming, gate);
    }
    Ok(())
}

// The names of the join steps 1 to `steps`.
pub fn name_joins(naming: &mut Naming, steps: u16)
    requires { (naming.old.next.0 + steps ≤ length naming.old.origins.now) × (naming.old.next.0 + steps ≤ length naming.old.roles.now) × (naming.old.next.0 + steps < 65536) }
    ensures tables { state_of naming.new ≡ join_names 1 steps (state_of naming.old) }
    ensures same { SameTables naming.old naming.new }
{
    for j in 1..=steps {
        let name = naming.next.0 as usize;
        naming.origins[name] = j;
        naming.roles[name] = 4;
        naming.next = Qubit(naming.next.0 + 1);
    }
}

// Numbers a whole circuit, from cleared tables: the bad states are the records from `from` on, `bads` of them, and the constraints come after them.
pub fn number(
    circuit: &[u8],
    starts: &[u16; 65],
    qubits: &mut [u16],
    origins: &mut [u16],
    roles: &mut [u8],
    from: usize,
    bads: usize,
    constraints: usize,
) -> Result<Qubit, HasQubit>
    requires { Prepared circuit.now starts.now from bads constraints × (mk qubits.old origins.old roles.old 2 ≡ start (circuit_of circuit.now)) }
    ensures { outcome_of result qubits.new origins.new roles.new ≡ number (circuit_of circuit.now) }
{
    let to = from + bads + constraints;
    let first = Qubit::first_new();
    let mut naming = Naming {
        qubits,
        origins,
        roles,
        next: first,
    };
    visit_roots(circuit, starts, &mut naming, from, to)?;
    name_joins(&mut naming, (bads - 1) as u16);
    Ok(naming.next)
}
