// A run on what a build left; or the build's refusal.
#![tactic(auto)]

ghost use Rattle.std.specs.Prelude.{◌≡◌};
ghost use Rattle.circuit.specs.Check.{counts_of};
ghost use Rattle.circuit.specs.Starts.{starts_of};
ghost use Rattle.run_meaning.specs.Ran.{done, ran};
ghost use Rattle.run_left.specs.Lent.{lent_in};
ghost use Rattle.run_left.specs.Left.{Left, LeftBy};
ghost use Rattle.run_left.specs.Evaluated.{built_in, ran_by};

use circuit::{Counts, Refusal};
use circuit_lists::{input_starts, list_starts};
use circuit_sizes::counts_of;
use qubot_left::Finished;
use run_outcome::Run;
use run_rules::NumberedCircuit;
use run_tables::{FinishedModel, refused, run_on};
use store::Totals;

// The tables as a build left them, with the entries past those in use.
#[derive(Clone, Copy)]
pub struct LeftTables<'a> {
    pub qubits: &'a [u16],
    pub origins: &'a [u16],
    pub roles: &'a [u8],
    pub linear: &'a [i64],
    pub has_linear: &'a [u8],
    pub has_row: &'a [u8],
    pub fixed: &'a [u8],
    pub keys: &'a [u32],
    pub weights: &'a [i64],
}

// Lends a run the entries in use.
fn run_parts(
    circuit: &[u8],
    k: Counts,
    starts: &[u16; 65],
    inputs_from: &[u16; 65],
    f: Finished,
    tables: &LeftTables,
    values: &mut [u8],
    inputs: &[i64],
) -> Run
    requires { Left circuit.now (lent_in tables.now) f × (k ≡ counts_of circuit.now) × (starts.now ≡ starts_of circuit.now 20) × (inputs_from.now ≡ starts_of circuit.now 23) }
    ensures { done result values.new ≡ ran (built_in circuit.now (lent_in tables.now) f) inputs.now values.old }
{
    let n = 3 * k.gates + k.bad_states + 1;
    let on = NumberedCircuit {
        circuit,
        starts,
        bads: k.gates + k.list_bits,
        qubits: &tables.qubits[..k.gates],
        origins: &tables.origins[..n],
        roles: &tables.roles[..n],
        names: f.names,
        fixed: &tables.fixed[..n],
    };
    let model = FinishedModel {
        form: f.form,
        linear: &tables.linear[..f.names],
        flags: &tables.has_linear[..n],
        rows: &tables.has_row[..n],
        keys: &tables.keys[..f.pairs],
        weights: &tables.weights[..f.pairs],
        totals: Totals {
            offset: f.offset,
            count: f.pairs,
        },
    };
    run_on(&on, &model, inputs_from, f.bads, f.inputs, values, inputs)
}

// Runs on what a build left.
fn run_left(
    circuit: &[u8],
    f: Finished,
    tables: &LeftTables,
    values: &mut [u8],
    inputs: &[i64],
) -> Run
    requires { Left circuit.now (lent_in tables.now) f }
    ensures { done result values.new ≡ ran (built_in circuit.now (lent_in tables.now) f) inputs.now values.old }
{
    let k = counts_of(circuit);
    let starts = list_starts(circuit, k.gates, k.list_bits);
    let inputs_from = input_starts(circuit);
    run_parts(circuit, k, &starts, &inputs_from, f, tables, values, inputs)
}

// Runs on what a build left, or gives its refusal.
pub fn run_built(
    circuit: &[u8],
    built: Result<Finished, Refusal>,
    tables: &LeftTables,
    values: &mut [u8],
    inputs: &[i64],
) -> Run
    requires { LeftBy circuit.now (lent_in tables.now) built }
    ensures { done result values.new ≡ ran_by circuit.now inputs.now values.old (lent_in tables.now) built }
{
    match built {
        Err(r) => refused(r),
        Ok(f) => run_left(circuit, f, tables, values, inputs),
    }
}
