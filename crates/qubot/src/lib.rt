// The build: from the bytes of a circuit to the finished model.
#![tactic(auto)]

ghost use Rattle.std.specs.Prelude.{◌≡◌};
ghost use Rattle.qubot_left.specs.Built.{built};
ghost use Rattle.qubot_left.specs.Lent.{lent_in, SameTables};

use circuit::Refusal;
use circuit_check::check;
use least::least_of;
use qubot_left::answer::answer_of;
use qubot_left::{Finished, LentTables};
use units::{Form, lesser};
use whole::fill_tables;

pub mod least;
pub mod whole;

// The build of any bytes, in the form that is asked for, on any tables: no contents of a table are trusted.
pub fn build(circuit: &[u8], form: Form, tables: &mut LentTables) -> Result<Finished, Refusal>
    ensures left { (lent_in tables.new, result) ≡ built circuit.now form (lent_in tables.old) }
    ensures same { SameTables tables.old tables.new }
{
    let gates = tables.qubits.len();
    let names = least_of(
        tables.origins.len(),
        tables.roles.len(),
        tables.linear.len(),
        tables.has_linear.len(),
        tables.has_row.len(),
        tables.fixed.len(),
    );
    let pairs = lesser(tables.keys.len(), tables.weights.len());
    let k = check(circuit, gates, names, pairs)?;
    let filled = fill_tables(circuit, form, k, tables);
    answer_of(form, k, filled)
}
