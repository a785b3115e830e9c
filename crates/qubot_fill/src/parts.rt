// The steps on tables of exactly the lengths of 7. Where a step refuses, the tables are still to be zeroed.
ghost use Rattle.std.specs.Prelude.{◌≡◌};
ghost use Rattle.circuit.specs.Meaning.{circuit_of};
ghost use Rattle.numbering.specs.Numbered.{number};
ghost use Rattle.numbering.specs.Read.{outcome_of};
ghost use Rattle.qubot_fill.specs.Made.{make};
ghost use Rattle.qubot_fill.specs.Tables.{lent, filled_by, or_zeroed};
ghost use Rattle.qubot_fill.specs.Parts.{Passed, NameTables, ModelTables};

use crate::Filled;
use circuit::{Counts, Refusal};
use circuit_lists::list_starts;
use model::model::make_model;
use model_rows::Numbered;
use numbering::HasQubit;
use numbering_roots::number;
use tables::{clear_model, clear_names};
use units::{Form, Qubit};

// The names of all gates and joins, on cleared tables.
pub fn number_names(
    circuit: &[u8],
    k: Counts,
    qubits: &mut [u16],
    origins: &mut [u16],
    roles: &mut [u8],
) -> Result<Qubit, HasQubit>
    requires { Passed circuit.now k × NameTables (circuit_of circuit.now) qubits.old origins.old roles.old }
    ensures { outcome_of result qubits.new origins.new roles.new ≡ number (circuit_of circuit.now) }
{
    let gates = k.gates;
    let list_bits = k.list_bits;
    let bads = k.bad_states;
    let constraints = k.constraints;
    clear_names(qubits, origins, roles);
    let starts = list_starts(circuit, gates, list_bits);
    let from = gates + list_bits;
    number(
        circuit,
        &starts,
        qubits,
        origins,
        roles,
        from,
        bads,
        constraints,
    )
}

// The model of the circuit, on cleared tables, where the numbering named all its gates.
pub fn fill_model(
    circuit: &[u8],
    form: Form,
    k: Counts,
    ended: Result<Qubit, HasQubit>,
    qubits: &[u16],
    origins: &[u16],
    roles: &[u8],
    linear: &mut [i64],
    present: &mut [u8],
    rows: &mut [u8],
    fixed: &mut [u8],
    keys: &mut [u32],
    weights: &mut [i64],
) -> Result<Filled, Refusal>
    requires { Passed circuit.now k × NameTables (circuit_of circuit.now) qubits.now origins.now roles.now × ModelTables (circuit_of circuit.now) linear.old present.old rows.old fixed.old keys.old weights.old × (outcome_of ended qubits.now origins.now roles.now ≡ number (circuit_of circuit.now)) }
    ensures { or_zeroed (circuit_of circuit.now) (lent qubits.now origins.now roles.now linear.new present.new rows.new fixed.new keys.new weights.new) result ≡ filled_by (circuit_of circuit.now) (make form (circuit_of circuit.now)) }
{
    let next = ended?;
    clear_model(linear, present, rows, fixed, keys, weights);
    let bads = k.gates + k.list_bits;
    let numbered = Numbered {
        circuit,
        bads,
        constraints: bads + k.bad_states,
        states: k.bad_states,
        count: k.constraints,
        qubits,
        origins,
        roles,
        next,
    };
    let counted = make_model(numbered, form, linear, present, rows, fixed, keys, weights)?;
    Ok(Filled { next, counted })
}
