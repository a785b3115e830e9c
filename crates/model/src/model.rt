// From blank tables to the finished model: rows placed and settled, qubits fixed, the form turned, the variables counted.
ghost use Rattle.std.specs.Prelude.{◌≡◌, length, replicate};
ghost use Rattle.numbering.specs.State.{names_of};
ghost use Rattle.model_rows.specs.Lent.{circuit_in, state_in, GoodIn};
ghost use Rattle.model.specs.Steps.{placed_of};
ghost use Rattle.model_place.specs.Blank.{Blank, pairs_of};
ghost use Rattle.model_fixes.specs.Fixing.{Holds};
ghost use Rattle.model.specs.Modelled.{ModelledAs};

use model_finish::{Counted, finish_model};
use model_fix_all::fix_all;
use model_fixes::Clash;
use model_place::place_all;
use model_rows::Numbered;
use store::Totals;
use store_settle::settle_all;
use units::Form;

// The model before fixing, on blank tables.
pub fn place_model(
    numbered: Numbered,
    linear: &mut [i64],
    present: &mut [u8],
    rows: &mut [u8],
    keys: &mut [u32],
    weights: &mut [i64],
) -> Totals
    requires { GoodIn numbered × Blank (names_of (circuit_in numbered)) (pairs_of (circuit_in numbered)) linear.old present.old rows.old keys.old weights.old }
    ensures { Holds (pairs_of (circuit_in numbered.entry)) (placed_of (circuit_in numbered.entry) (state_in numbered.entry)) result linear.new present.new rows.new (replicate (names_of (circuit_in numbered.entry)) 0) keys.new weights.new }
{
    let t = place_all(numbered, linear, present, rows, keys, weights);
    settle_all(keys, weights, t)
}

// The whole model of a numbered circuit, on blank tables; or the qubit that is to be fixed to two values.
pub fn make_model(
    numbered: Numbered,
    form: Form,
    linear: &mut [i64],
    present: &mut [u8],
    rows: &mut [u8],
    fixed: &mut [u8],
    keys: &mut [u32],
    weights: &mut [i64],
) -> Result<Counted, Clash>
    requires { GoodIn numbered × Blank (names_of (circuit_in numbered)) (pairs_of (circuit_in numbered)) linear.old present.old rows.old keys.old weights.old × (fixed.old ≡ replicate (names_of (circuit_in numbered)) 0) × (numbered.states ≡ length (circuit_in numbered).bads) × (numbered.count ≡ length (circuit_in numbered).constraints) }
    ensures { ModelledAs form (circuit_in numbered.entry) (state_in numbered.entry) result linear.new present.new rows.new fixed.new keys.new weights.new }
{
    let t = place_model(numbered, linear, present, rows, keys, weights);
    let t = fix_all(numbered, linear, present, rows, fixed, keys, weights, t)?;
    Ok(finish_model(form, linear, present, rows, keys, weights, t))
}
