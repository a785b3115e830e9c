// The model text, from the bytes of a circuit: `dump_model` builds, and prints what the build left.
#![tactic(auto)]

ghost use Rattle.std.specs.Prelude.{◌≡◌};
ghost use Rattle.qubot_left.specs.Lent.{lent_in, SameTables};
ghost use Rattle.text_left.specs.Dumped.{dumped};

use circuit::Refusal;
use qubot::build;
use qubot_left::LentTables;
use text_left::print_built;
use units::Form;

pub mod fresh;

// The text of the model of a circuit, in the form that is asked for, into a buffer: any bytes, any tables, any buffer.
pub fn dump_model(
    circuit: &[u8],
    form: Form,
    tables: &mut LentTables,
    buf: &mut [u8],
) -> Result<usize, Refusal>
    ensures left { (lent_in tables.new, (buf.new, result)) ≡ dumped circuit.now form (lent_in tables.old) buf.old }
    ensures same { SameTables tables.old tables.new }
{
    let built = build(circuit, form, tables);
    let qubits = &mut *tables.qubits;
    let linear = &mut *tables.linear;
    let has_linear = &mut *tables.has_linear;
    let fixed = &mut *tables.fixed;
    let keys = &mut *tables.keys;
    let weights = &mut *tables.weights;
    print_built(
        circuit, built, qubits, linear, has_linear, fixed, keys, weights, buf,
    )
}
