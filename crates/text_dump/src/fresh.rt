// On tables that no caller lends: an accepted circuit has at most 1,000 gates and 64 bad states, which come to 3,065 names and 10,192 pairs.
ghost use Rattle.std.specs.Prelude.{◌≡◌};
ghost use Rattle.qubot_left.specs.Fresh.{fresh};
ghost use Rattle.text_left.specs.Dumped.{dumped};

use crate::dump_model;
use circuit::Refusal;
use qubot_left::LentTables;
use units::Form;

// The text of a circuit's model, on tables of its own.
pub fn dump_fresh(circuit: &[u8], form: Form, buf: &mut [u8]) -> Result<usize, Refusal>
    ensures { (buf.new, result) ≡ (dumped circuit.now form fresh buf.old).1 }
{
    let mut qubits = [0u16; 1000];
    let mut origins = [0u16; 3065];
    let mut roles = [0u8; 3065];
    let mut linear = [0i64; 3065];
    let mut has_linear = [0u8; 3065];
    let mut has_row = [0u8; 3065];
    let mut fixed = [0u8; 3065];
    let mut keys = [0u32; 10192];
    let mut weights = [0i64; 10192];
    let mut tables = LentTables {
        qubits: &mut qubits,
        origins: &mut origins,
        roles: &mut roles,
        linear: &mut linear,
        has_linear: &mut has_linear,
        has_row: &mut has_row,
        fixed: &mut fixed,
        keys: &mut keys,
        weights: &mut weights,
    };
    dump_model(circuit, form, &mut tables, buf)
}
