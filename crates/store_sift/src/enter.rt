// Entering a value: the qubit's own linear entry, times the value, joins the offset; the entry and the row go. Pairs stay.
ghost use Rattle.std.specs.Prelude.{List, ◌≡◌};
ghost use Rattle.energy.specs.Model.{Entry};
ghost use Rattle.energy.specs.Once.{enter};
ghost use Rattle.store_sift.specs.Sifting.{model_by, MayEnter};

use store::Totals;
use store_fix::fix::enter;
use units::Qubit;

// Enters the value of `q`.
pub fn enter_value(
    linear: &mut [i64],
    present: &mut [u8],
    rows: &mut [u8],
    fixed: &mut [u8],
    t: Totals,
    q: Qubit,
    on: bool,
) -> Totals
    requires { MayEnter q.0 t linear.old present.old rows.old fixed.old }
    ensures { (result.count ≡ t.count) × ((s : List Entry) → model_by result.offset linear.new present.new rows.new fixed.new s ≡ enter q.0 on (model_by t.offset linear.old present.old rows.old fixed.old s)) }
{
    let given = enter(linear, present, rows, fixed, q, on);
    Totals {
        offset: t.offset + given,
        ..t
    }
}
