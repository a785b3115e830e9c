// Which qubits a build fixes, in fixing order: the joined qubit true, constraints in order, 1 true, 0 false.
#![tactic(auto)]

ghost use Rattle.std.specs.Prelude.{[], ◌≡◌, ◌+◌, ◌<◌, get_or};
ghost use Rattle.circuit.specs.declared.Refusal.TheVariants.{FixedTwice};
ghost use Rattle.circuit.specs.Meaning.{circuit_of};
ghost use Rattle.numbering.specs.State.{mk};
ghost use Rattle.model_fixes.specs.Order.{joined_qubit};
ghost use Rattle.model_fixes.specs.Fixing.{Reading, fixes_by, pair_of, nothing};

use circuit::Refusal;
use circuit_records::byte1_at;
use model_rows::{Numbered, named_by};
use units::Qubit;

// A qubit that is fixed, and the value.
#[derive(Clone, Copy)]
pub struct Fix {
    pub qubit: Qubit,
    pub on: bool,
}

// A qubit is to be fixed to two values.
#[derive(Clone, Copy)]
pub struct Clash(pub Qubit);

// 9, at that qubit.
impl From<Clash> for Refusal {
    ghost from_gives = { λ x r. r ≡ FixedTwice x.0 };

    fn from(x: Clash) -> Refusal {
        Refusal::FixedTwice(x.0)
    }
}

// The joined qubit: the last join's, or that of a sole bad state.
pub fn joined(numbered: Numbered) -> Qubit
    requires { Reading numbered.circuit.now numbered.bads numbered.constraints numbered.qubits.now numbered.next.0 numbered.states numbered.count }
    ensures { result.0 ≡ joined_qubit (circuit_of numbered.entry.circuit.now) (mk numbered.entry.qubits.now [] [] numbered.entry.next.0) }
{
    if 1 < numbered.states {
        Qubit(numbered.next.0 - 1)
    } else {
        named_by(numbered.circuit, numbered.qubits, numbered.bads, 0)
    }
}

// The `k`-th fix.
pub fn fix_at(numbered: Numbered, k: usize) -> Fix
    requires { Reading numbered.circuit.now numbered.bads numbered.constraints numbered.qubits.now numbered.next.0 numbered.states numbered.count × (k < numbered.count + 3) }
    ensures { pair_of result ≡ get_or (fixes_by numbered.entry.circuit.now numbered.entry.qubits.now numbered.entry.next.0) k nothing }
{
    let Numbered {
        circuit,
        constraints,
        count,
        qubits,
        ..
    } = numbered;
    if k == 0 {
        let qubit = joined(numbered);
        return Fix { qubit, on: true };
    }
    if k <= count {
        let at = constraints + (k - 1);
        let qubit = named_by(circuit, qubits, at, 0);
        let on = byte1_at(circuit, at) == 1;
        return Fix { qubit, on };
    }
    if k == count + 1 {
        return Fix {
            qubit: Qubit(1),
            on: true,
        };
    }
    Fix {
        qubit: Qubit(0),
        on: false,
    }
}
