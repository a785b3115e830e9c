// A run, from the bytes of a circuit: `run` builds, and then gives the inputs their values on what the build left.
#![tactic(auto)]

ghost use Rattle.std.specs.Prelude.{◌≡◌};
ghost use Rattle.qubot_left.specs.Lent.{lent_in, SameTables};
ghost use Rattle.run_meaning.specs.Ran.{done};
ghost use Rattle.run_left.specs.Evaluated.{evaluated};

use qubot::build;
use qubot_left::LentTables;
use run_left::{LeftTables, run_built};
use run_outcome::Run;
use units::Form;

pub mod fresh;

// A run: builds, then gives the inputs their values. Any bytes, any tables, any values.
pub fn run(
    circuit: &[u8],
    form: Form,
    tables: &mut LentTables,
    values: &mut [u8],
    inputs: &[i64],
) -> Run
    ensures left { (lent_in tables.new, done result values.new) ≡ evaluated circuit.now form (lent_in tables.old) inputs.now values.old }
    ensures same { SameTables tables.old tables.new }
{
    let built = build(circuit, form, tables);
    let qubits = &mut *tables.qubits;
    let origins = &mut *tables.origins;
    let roles = &mut *tables.roles;
    let linear = &mut *tables.linear;
    let has_linear = &mut *tables.has_linear;
    let has_row = &mut *tables.has_row;
    let fixed = &mut *tables.fixed;
    let keys = &mut *tables.keys;
    let weights = &mut *tables.weights;
    let left = LeftTables {
        qubits,
        origins,
        roles,
        linear,
        has_linear,
        has_row,
        fixed,
        keys,
        weights,
    };
    run_built(circuit, built, &left, values, inputs)
}
