// All fixes of a build: each value is entered, up to the first clash, and one pass over the pairs does the rest.
#![tactic(auto)]

ghost use Rattle.std.specs.Prelude.{[], length};
ghost use Rattle.store.specs.Tables.{tables, model_of};
ghost use Rattle.store_sift.specs.Sifting.{model_by};
ghost use Rattle.model_fixes.specs.Fixing.{Reading, fixes_by, Holds, Enterable, EnteredAs, Fixable, FixedAs};

use model_fixes::{Clash, Fix, fix_at};
use model_rows::Numbered;
use store::Totals;
use store_fix::fix::contradicts;
use store_sift::enter::enter_value;
use store_sift::sift::sift_all;

// Enters the values of all fixes, in order, up to the first clash.
fn enter_all(
    numbered: Numbered,
    linear: &mut [i64],
    present: &mut [u8],
    rows: &mut [u8],
    fixed: &mut [u8],
    from: Totals,
) -> Result<Totals, Clash>
    requires { Reading numbered.circuit.now numbered.bads numbered.constraints numbered.qubits.now numbered.next.0 numbered.states numbered.count × Enterable (length linear.old) (fixes_by numbered.circuit.now numbered.qubits.now numbered.next.0) (model_by from.offset linear.old present.old rows.old fixed.old []) }
    ensures { EnteredAs (fixes_by numbered.entry.circuit.now numbered.entry.qubits.now numbered.entry.next.0) from linear.old present.old rows.old fixed.old result linear.new present.new rows.new fixed.new }
{
    let mut t = from;
    for k in 0..numbered.count + 3 {
        let Fix { qubit, on } = fix_at(numbered, k);
        if contradicts(fixed, qubit, on) {
            return Err(Clash(qubit));
        }
        t = enter_value(linear, present, rows, fixed, t, qubit, on);
    }
    Ok(t)
}

// Fixes them all, up to the first clash: the values are entered, and one pass over the pairs does the rest.
pub fn fix_all(
    numbered: Numbered,
    linear: &mut [i64],
    present: &mut [u8],
    rows: &mut [u8],
    fixed: &mut [u8],
    keys: &mut [u32],
    weights: &mut [i64],
    from: Totals,
) -> Result<Totals, Clash>
    requires { Reading numbered.circuit.now numbered.bads numbered.constraints numbered.qubits.now numbered.next.0 numbered.states numbered.count × Fixable (length linear.old) (length keys.old) (fixes_by numbered.circuit.now numbered.qubits.now numbered.next.0) (model_of (tables from.offset linear.old present.old rows.old fixed.old keys.old weights.old from.count)) × Holds (length keys.old) (model_of (tables from.offset linear.old present.old rows.old fixed.old keys.old weights.old from.count)) from linear.old present.old rows.old fixed.old keys.old weights.old }
    ensures { FixedAs (length keys.old) (fixes_by numbered.entry.circuit.now numbered.entry.qubits.now numbered.entry.next.0) (model_of (tables from.offset linear.old present.old rows.old fixed.old keys.old weights.old from.count)) result linear.new present.new rows.new fixed.new keys.new weights.new }
{
    let t = enter_all(numbered, linear, present, rows, fixed, from)?;
    Ok(sift_all(fixed, linear, present, keys, weights, t))
}
