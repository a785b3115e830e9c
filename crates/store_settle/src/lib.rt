// Settling: the log of pairs becomes the pairs of the model. `log` sorts and merges it.
#![tactic(auto)]

ghost use Rattle.std.specs.Prelude.{List, ◌≡◌, ℕ, ℤ};
ghost use Rattle.store.specs.Tables.{tables, model_of, hold};
ghost use Rattle.store_place.specs.Logged.{settled};
ghost use Rattle.store_place.specs.Room.{Settling, Settleable};

use store::Totals;
use store_pairs::Pairs;

pub mod log;

// Settles the log with scratch as long as the pair tables.
pub fn settle(
    keys: &mut [u32],
    weights: &mut [i64],
    sk: &mut [u32],
    sw: &mut [i64],
    t: Totals,
) -> Totals
    requires { Settling keys.old weights.old sk.old sw.old t }
    ensures { (l : List ℤ) (h rs f : List ℕ) → tables result.offset l h rs f keys.new weights.new result.count ≡ hold (settled (model_of (tables t.offset l h rs f keys.old weights.old t.count))) (tables t.offset l h rs f keys.old weights.old t.count) }
{
    let mut pairs = Pairs { keys, weights };
    let mut scratch = Pairs {
        keys: sk,
        weights: sw,
    };
    let count = log::settle(&mut pairs, &mut scratch, t.count);
    Totals { count, ..t }
}

// Settles the log, with scratch of its own: 10G+3B pairs are at most 10,192.
pub fn settle_all(keys: &mut [u32], weights: &mut [i64], t: Totals) -> Totals
    requires { Settleable keys.old weights.old t }
    ensures { (l : List ℤ) (h rs f : List ℕ) → tables result.offset l h rs f keys.new weights.new result.count ≡ hold (settled (model_of (tables t.offset l h rs f keys.old weights.old t.count))) (tables t.offset l h rs f keys.old weights.old t.count) }
{
    let mut sk = [0u32; 10192];
    let mut sw = [0i64; 10192];
    let k = keys.len();
    settle(keys, weights, &mut sk[..k], &mut sw[..k], t)
}
