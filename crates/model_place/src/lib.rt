// The rows of all names are placed: their linear coefficients join the linear entries, and their pairs go to the log, which is settled once.
// The crate `model_rows` reads a name's row off the circuit and the tables of names.
#![tactic(auto)]

ghost use Rattle.std.specs.Prelude.{List, ◌≡◌, ℕ};
ghost use Rattle.numbering.specs.State.{names_of};
ghost use Rattle.store.specs.Tables.{tables, model_of, hold};
ghost use Rattle.model_rows.specs.Lent.{circuit_in, state_in, GoodIn};
ghost use Rattle.model_rows.specs.Found.{placed_by};
ghost use Rattle.model_place.specs.Blank.{Blank, CanPlace, Logged, pairs_of};

use model_rows::{Numbered, Placed, row_at};
use penalty::row;
use store::Totals;
use store_place::place::place;

// Places a row, if there is one.
pub fn place_one(
    linear: &mut [i64],
    present: &mut [u8],
    rows: &mut [u8],
    keys: &mut [u32],
    weights: &mut [i64],
    t: Totals,
    p: Option<Placed>,
) -> Totals
    requires { CanPlace linear.old present.old rows.old keys.old weights.old t p }
    ensures { (f : List ℕ) → tables result.offset linear.new present.new rows.new f keys.new weights.new result.count ≡ hold (placed_by p (model_of (tables t.offset linear.old present.old rows.old f keys.old weights.old t.count))) (tables t.offset linear.old present.old rows.old f keys.old weights.old t.count) }
{
    match p {
        Some(Placed { kind, wires }) => {
            place(linear, present, rows, keys, weights, t, wires, row(kind))
        }
        None => t,
    }
}

// Places the rows of all names, in their order, on blank tables.
pub fn place_all(
    numbered: Numbered,
    linear: &mut [i64],
    present: &mut [u8],
    rows: &mut [u8],
    keys: &mut [u32],
    weights: &mut [i64],
) -> Totals
    requires { GoodIn numbered × Blank (names_of (circuit_in numbered)) (pairs_of (circuit_in numbered)) linear.old present.old rows.old keys.old weights.old }
    ensures { Logged (circuit_in numbered.entry) (state_in numbered.entry) numbered.entry.next.0 result linear.new present.new rows.new keys.new weights.new }
{
    let mut t = Totals {
        offset: 0,
        count: 0,
    };
    for q in 2..usize::from(numbered.next.0) {
        let p = row_at(numbered, q);
        t = place_one(linear, present, rows, keys, weights, t, p);
    }
    t
}
