// The build on tables that may be longer than the lengths of 7: what stands past those stays.
ghost use Rattle.std.specs.Prelude.{◌≡◌};
ghost use Rattle.circuit.specs.Meaning.{circuit_of};
ghost use Rattle.qubot_fill.specs.Tables.{filled_by};
ghost use Rattle.qubot_left.specs.Made.{make};
ghost use Rattle.qubot_left.specs.Built.{in_tables};
ghost use Rattle.qubot_left.specs.Lent.{lent_in, SameTables};
ghost use Rattle.qubot_left.specs.Parts.{Passed, Enough};

use circuit::{Counts, Refusal};
use qubot_fill::{Filled, fill};
use qubot_left::LentTables;
use units::Form;

// Bytes that passed the checks 1 to 7: the parts of the tables that 7 names are filled.
pub fn fill_tables(
    circuit: &[u8],
    form: Form,
    k: Counts,
    tables: &mut LentTables,
) -> Result<Filled, Refusal>
    requires { Passed circuit.now k × Enough k (lent_in tables.old) }
    ensures left { (lent_in tables.new, result) ≡ in_tables (lent_in tables.old) (filled_by (circuit_of circuit.now) (make form (circuit_of circuit.now))) }
    ensures same { SameTables tables.old tables.new }
{
    let g = k.gates;
    let b = k.bad_states;
    let n = 3 * g + b + 1;
    let p = 10 * g + 3 * b;
    let qubits = &mut *tables.qubits;
    let origins = &mut *tables.origins;
    let roles = &mut *tables.roles;
    let linear = &mut *tables.linear;
    let has_linear = &mut *tables.has_linear;
    let has_row = &mut *tables.has_row;
    let fixed = &mut *tables.fixed;
    let keys = &mut *tables.keys;
    let weights = &mut *tables.weights;
    fill(
        circuit,
        form,
        k,
        &mut qubits[..g],
        &mut origins[..n],
        &mut roles[..n],
        &mut linear[..n],
        &mut has_linear[..n],
        &mut has_row[..n],
        &mut fixed[..n],
        &mut keys[..p],
        &mut weights[..p],
    )
}
