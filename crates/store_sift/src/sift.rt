// The one pass over the pairs. A pair with no fixed end stays; times the value of one end it joins the linear entry of the other; times both values it joins the offset.
ghost use Rattle.std.specs.Prelude.{List, ◌≡◌, ℕ, ◌+◌, ◌<◌, ◌≤◌, ℤ, pos, ◌+ℤ◌, length, drop, get_or};
ghost use Rattle.energy.specs.Model.{Entry, low, high};
ghost use Rattle.energy.specs.Once.{sift, sifted};
ghost use Rattle.store_pairs.specs.Tables.{entries_of, SameTables};
ghost use Rattle.store.specs.Tables.{tables, tables_with, model_of, hold};
ghost use Rattle.store_sift.specs.Sifting.{model_by, free_by, Giving, Turn, Sifting};

use store::Totals;
use store::linear::{add_linear, gated};
use store_pairs::Pairs;
use store_pairs::key::{high_of, low_of};

// Whether neither end of the pair is fixed.
fn both_free(fixed: &[u8], key: u32) -> bool
    requires { (low key < length fixed.now) × (high key < length fixed.now) }
    ensures { result ≡ free_by fixed.now key }
{
    fixed[low_of(key)] == 0 && fixed[high_of(key)] == 0
}

// Gives a pair with a fixed end away, and returns what the offset gains.
fn give_pair(fixed: &[u8], linear: &mut [i64], present: &mut [u8], key: u32, w: i64) -> i64
    requires { Giving fixed.now linear.old present.old key w }
    ensures { (o : ℤ) (rs : List ℕ) (s : List Entry) → model_by (o +ℤ result) linear.new present.new rs fixed.now s ≡ sift (key, w) (model_by o linear.old present.old rs fixed.now s) }
{
    let low = low_of(key);
    let high = high_of(key);
    let x = fixed[low];
    let y = fixed[high];
    let v = gated(y == 2, w);
    if x == 0 {
        add_linear(linear, present, low, v);
        return 0;
    }
    if y == 0 {
        let u = gated(x == 2, w);
        add_linear(linear, present, high, u);
        return 0;
    }
    gated(x == 2, v)
}

// The turn of the pair at `i`, when those that stay so far are the first `t.count`.
fn sift_one(
    fixed: &[u8],
    linear: &mut [i64],
    present: &mut [u8],
    pairs: &mut Pairs,
    i: usize,
    t: Totals,
) -> Totals
    requires { Turn fixed.now linear.old present.old pairs.old.keys.now pairs.old.weights.now i t }
    ensures by_index { (rs : List ℕ) → model_of (tables_with result.offset linear.new present.new rs fixed.now pairs.new result.count) ≡ sift (get_or pairs.old.keys.now i 0, get_or pairs.old.weights.now i (pos 0)) (model_of (tables_with t.offset linear.old present.old rs fixed.now pairs.old t.count)) }
    ensures count_bound { (result.count ≤ t.count + 1) × (drop (i + 1) (entries_of pairs.new) ≡ drop (i + 1) (entries_of pairs.old)) }
    ensures same { SameTables pairs.old pairs.new }
{
    let key = pairs.keys[i];
    if both_free(fixed, key) {
        pairs.copy_within(i, t.count);
        return Totals {
            count: t.count + 1,
            ..t
        };
    }
    let g = give_pair(fixed, linear, present, key, pairs.weights[i]);
    Totals {
        offset: t.offset + g,
        ..t
    }
}

// Each pair in turn.
fn sift_pairs(
    fixed: &[u8],
    linear: &mut [i64],
    present: &mut [u8],
    pairs: &mut Pairs,
    from: Totals,
) -> Totals
    requires { Sifting fixed.now linear.old present.old pairs.old.keys.now pairs.old.weights.now from }
    ensures tables { (rs : List ℕ) → tables_with result.offset linear.new present.new rs fixed.now pairs.new result.count ≡ hold (sifted (model_of (tables_with from.offset linear.old present.old rs fixed.now pairs.old from.count))) (tables_with from.offset linear.old present.old rs fixed.now pairs.old from.count) }
    ensures same { SameTables pairs.old pairs.new }
{
    let n = from.count;
    let mut t = Totals { count: 0, ..from };
    for i in 0..n {
        t = sift_one(fixed, linear, present, pairs, i, t);
    }
    pairs.clear(t.count, n);
    t
}

// The whole pass, on the tables as they are lent.
pub fn sift_all(
    fixed: &[u8],
    linear: &mut [i64],
    present: &mut [u8],
    keys: &mut [u32],
    weights: &mut [i64],
    from: Totals,
) -> Totals
    requires { Sifting fixed.now linear.old present.old keys.old weights.old from }
    ensures { (rs : List ℕ) → tables result.offset linear.new present.new rs fixed.now keys.new weights.new result.count ≡ hold (sifted (model_of (tables from.offset linear.old present.old rs fixed.now keys.old weights.old from.count))) (tables from.offset linear.old present.old rs fixed.now keys.old weights.old from.count) }
{
    let mut pairs = Pairs { keys, weights };
    sift_pairs(fixed, linear, present, &mut pairs, from)
}
