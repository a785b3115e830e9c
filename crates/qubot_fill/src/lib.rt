// The names and the finished model of a circuit that passed the checks, in tables of exactly the lengths of 7; or refusal 8 or 9, with all of them zeroed.
#![tactic(auto)]

ghost use Rattle.std.specs.Prelude.{◌≡◌};
ghost use Rattle.circuit.specs.Meaning.{circuit_of};
ghost use Rattle.qubot_fill.specs.Made.{make};
ghost use Rattle.qubot_fill.specs.Tables.{lent, filled_by};
ghost use Rattle.qubot_fill.specs.Parts.{Passed, NameTables, ModelTables};

use circuit::{Counts, Refusal};
use model_finish::Counted;
use parts::{fill_model, number_names};
use tables::{clear_model, clear_names};
use units::{Form, Qubit};

pub mod parts;

// The names and the model are in the tables: the next free name, and the offset, the pair count and the variable count.
#[derive(Clone, Copy)]
pub struct Filled {
    pub next: Qubit,
    pub counted: Counted,
}

// The names and the model; or refusal 8 or 9, and zeros.
pub fn fill(
    circuit: &[u8],
    form: Form,
    k: Counts,
    qubits: &mut [u16],
    origins: &mut [u16],
    roles: &mut [u8],
    linear: &mut [i64],
    present: &mut [u8],
    rows: &mut [u8],
    fixed: &mut [u8],
    keys: &mut [u32],
    weights: &mut [i64],
) -> Result<Filled, Refusal>
    requires { Passed circuit.now k × NameTables (circuit_of circuit.now) qubits.old origins.old roles.old × ModelTables (circuit_of circuit.now) linear.old present.old rows.old fixed.old keys.old weights.old }
    ensures { (lent qubits.new origins.new roles.new linear.new present.new rows.new fixed.new keys.new weights.new, result) ≡ filled_by (circuit_of circuit.now) (make form (circuit_of circuit.now)) }
{
    let ended = number_names(circuit, k, qubits, origins, roles);
    let filled = fill_model(
        circuit, form, k, ended, qubits, origins, roles, linear, present, rows, fixed, keys,
        weights,
    );
    if filled.is_ok() {
        return filled;
    }
    clear_names(qubits, origins, roles);
    clear_model(linear, present, rows, fixed, keys, weights);
    filled
}
