// The qubits of a circuit's gates: `visit` gives a gate's qubit or processes it, `process` visits what the gate needs and names it.
// `walk` is the recursion, which the crate `numbering_roots` starts; what one gate does with names is the crate `numbering_gate`.
// What each function leaves in the tables is a definition of specs/, which follow 01 sentence by sentence.
#![tactic(auto)]

ghost use Rattle.std.specs.Prelude.{◌≡◌};
ghost use Rattle.circuit.specs.declared.Refusal.TheVariants.{HasQubit};

use circuit::Refusal;
use units::{Gate, Qubit};

pub mod walk;

// The gate of a bad state or a constraint that already has a qubit when its turn comes, and the next free name then.
#[derive(Clone, Copy)]
pub struct HasQubit {
    pub gate: Gate,
    pub next: Qubit,
}

// 8, at the gate.
impl From<HasQubit> for Refusal {
    ghost from_gives = { λ x r. r ≡ HasQubit x.gate };

    fn from(x: HasQubit) -> Refusal {
        Refusal::HasQubit(x.gate)
    }
}
