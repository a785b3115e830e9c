// The last steps of a build: the form that is asked for, and the variable count.
#![tactic(auto)]

ghost use Rattle.std.specs.Prelude.{List, ◌≡◌, ℕ, length};
ghost use Rattle.energy.specs.Finished.{in_form};
ghost use Rattle.energy.specs.Model.{counted};
ghost use Rattle.store.specs.Tables.{tables, model_of, hold};
ghost use Rattle.store_ising.specs.Turning.{Turning};

use store::Totals;
use store::count::count_variables;
use store_ising::to_ising;
use units::Form;

// The offset and the pair count of a finished model, and its variable count.
#[derive(Clone, Copy)]
pub struct Counted {
    pub totals: Totals,
    pub variables: usize,
}

// The model in the form that is asked for.
pub fn turn(
    form: Form,
    linear: &mut [i64],
    present: &mut [u8],
    keys: &[u32],
    weights: &mut [i64],
    t: Totals,
) -> Totals
    requires { Turning linear.old present.old keys.now weights.old t }
    ensures { (rs f : List ℕ) → tables result.offset linear.new present.new rs f keys.now weights.new result.count ≡ hold (in_form form (model_of (tables t.offset linear.old present.old rs f keys.now weights.old t.count))) (tables t.offset linear.old present.old rs f keys.now weights.old t.count) }
{
    match form {
        Form::Binary => t,
        Form::Ising => to_ising(linear, present, keys, weights, t),
    }
}

// The last steps: the form, and the variable count.
pub fn finish_model(
    form: Form,
    linear: &mut [i64],
    present: &mut [u8],
    rows: &[u8],
    keys: &[u32],
    weights: &mut [i64],
    t: Totals,
) -> Counted
    requires { Turning linear.old present.old keys.now weights.old t × (length rows.now ≡ length present.old) }
    ensures { ((f : List ℕ) → tables result.totals.offset linear.new present.new rows.now f keys.now weights.new result.totals.count ≡ hold (in_form form (model_of (tables t.offset linear.old present.old rows.now f keys.now weights.old t.count))) (tables t.offset linear.old present.old rows.now f keys.now weights.old t.count)) × (result.variables ≡ counted present.new rows.now) }
{
    let totals = turn(form, linear, present, keys, weights, t);
    let variables = count_variables(present, rows);
    Counted { totals, variables }
}
