// A run: values, energy, the true bad states, the verdict; or the refusal.
#![tactic(auto)]

ghost use Rattle.std.specs.Prelude.{◌≡◌, List, ℕ, ◌+◌, ◌*◌, ◌≤◌, length};
ghost use Rattle.circuit.specs.Meaning.{circuit_of};
ghost use Rattle.run_values.specs.Need.{went, and_then, each, need_of};
ghost use Rattle.run_meaning.specs.Ran.{done, refusal, answer, setting_of, within, ran};
ghost use Rattle.run_give.specs.Asked.{InputsAsked};
ghost use Rattle.run_tables.specs.Listed.{listed_of, true_from};
ghost use Rattle.run_tables.specs.Lent.{built_by, model_in, needed_in, ModelFits, ReadyIn};
ghost use Rattle.run_values.specs.Asking.{net_in, NeedsIn};
ghost use Rattle.run_meaning.specs.Give.{give_all};
ghost use Rattle.energy.specs.Model.{energy_in};
ghost use Rattle.store.specs.Evaluating.{Evaluating};

use circuit::Refusal;
use circuit_records::{field_at, nid_at};
use run_give::give_all;
use run_meaning::needs::need_all;
use run_outcome::Run;
use run_rules::NumberedCircuit;
use run_rules::find::qubit_of;
use run_values::Stop;
use run_values::settle::truth;
use store::Totals;
use store::evaluate::energy_at;
use tables::fill_u8;
use units::{Form, is_hit};

// A finished model in its form, beside what its values rest on. The pairs are the first `totals.count` of `keys` and `weights`.
#[derive(Clone, Copy)]
pub struct FinishedModel<'a> {
    pub form: Form,
    pub linear: &'a [i64],
    pub flags: &'a [u8],
    pub rows: &'a [u8],
    pub keys: &'a [u32],
    pub weights: &'a [i64],
    pub totals: Totals,
}

// The true bad states: the first `count` of `nids`.
#[derive(Clone, Copy)]
pub struct Listing {
    pub nids: [u64; 64],
    pub count: usize,
}

// The true bad states, in file order.
fn list_bads(on: &NumberedCircuit, values: &[u8], total: usize) -> Listing
    requires { (16 * (on.now.bads + total) ≤ length on.now.circuit.now) × (total ≤ 64) }
    ensures { result ≡ listed_of on.now.circuit.now on.now.qubits.now values.now on.now.bads total }
{
    let mut nids = [0u64; 64];
    let mut count: usize = 0;
    for n in on.bads..on.bads + total {
        if truth(values, qubit_of(on.qubits, field_at(on.circuit, n, 0))) {
            nids[count] = nid_at(on.circuit, n);
            count += 1;
        }
    }
    Listing { nids, count }
}

// Values are given, and then found where they are needed.
fn find_values(
    on: &NumberedCircuit,
    model: &FinishedModel,
    input_starts: &[u16],
    total: usize,
    values: &mut [u8],
    inputs: &[i64],
) -> Result<(), Stop>
    requires { InputsAsked on.now.circuit.now input_starts.now on.now.qubits.now (length values.old) inputs.now × NeedsIn on.now values.old × (total ≡ length (circuit_of on.now.circuit.now).bads) × ModelFits on.now model.now }
    ensures { went result values.new ≡ and_then (give_all on.now.qubits.now 0 (circuit_of on.now.circuit.now).inputs inputs.now values.old) (each (need_of (net_in on.now)) (needed_in on.now model.now)) }
{
    give_all(on, input_starts, values, inputs)?;
    // The contract lets the tables be longer than the pairs in use, though `run_left` has cut them.
    let keys = &model.keys[..model.totals.count];
    need_all(on, values, model.flags, model.rows, keys, total)
}

// The answer at the values found: the energy in its form, the verdict, and the true bad states.
fn answer_at(on: &NumberedCircuit, model: &FinishedModel, total: usize, values: &[u8]) -> Run
    requires { Evaluating model.now.linear.now model.now.keys.now model.now.weights.now model.now.totals values.now × (16 * (on.now.bads + total) ≤ length on.now.circuit.now) × (total ≤ 64) }
    ensures { (h rs f : List ℕ) → result ≡ answer model.now.form (energy_in model.now.form (setting_of values.now) (model_in model.now h rs f)) (true_from on.now.circuit.now on.now.qubits.now values.now on.now.bads total) }
{
    let e = energy_at(
        model.linear,
        model.keys,
        model.weights,
        model.totals,
        values,
        model.form,
    );
    let hit = is_hit(e);
    let Listing { nids, count } = list_bads(on, values, total);
    Run {
        outcome: Ok((e, hit)),
        nids,
        count,
    }
}

// A refused run.
pub fn refused(x: Refusal) -> Run
    ensures { result ≡ refusal x }
{
    Run {
        outcome: Err(x),
        nids: [0u64; 64],
        count: 0,
    }
}

// A run on the value bytes of the model's qubits.
fn run_within(
    on: &NumberedCircuit,
    model: &FinishedModel,
    input_starts: &[u16],
    total: usize,
    count: usize,
    values: &mut [u8],
    inputs: &[i64],
) -> Run
    requires { ReadyIn on.now model.now input_starts.now total count × (on.now.names ≡ length values.old) }
    ensures { done result values.new ≡ within (built_by on.now model.now) inputs.now }
{
    fill_u8(values, 2);
    if inputs.len() != count {
        return refused(Refusal::OtherCount);
    }
    match find_values(on, model, input_starts, total, values, inputs) {
        Ok(()) => answer_at(on, model, total, values),
        Err(x) => {
            fill_u8(values, 2);
            refused(Refusal::from(x))
        }
    }
}

// A run of the inputs on a finished model. `input_starts` says where inputs stand in the file; there are `total` bad states and `count` inputs.
pub fn run_on(
    on: &NumberedCircuit,
    model: &FinishedModel,
    input_starts: &[u16],
    total: usize,
    count: usize,
    values: &mut [u8],
    inputs: &[i64],
) -> Run
    requires { ReadyIn on.now model.now input_starts.now total count }
    ensures { done result values.new ≡ ran (built_by on.now model.now) inputs.now values.old }
{
    if values.len() < on.names {
        return refused(Refusal::FewValues);
    }
    let within = &mut values[..on.names];
    run_within(on, model, input_starts, total, count, within, inputs)
}
