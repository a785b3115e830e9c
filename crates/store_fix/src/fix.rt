// Fixing a qubit: its pairs are deleted, and times its value they join the other qubits' linear entries; its own linear entry, times its value, joins the offset.
ghost use Rattle.std.specs.Prelude.{cond, ◌≡◌, ◌+◌, ◌^◌, ◌<◌, eqb, pos, nat_abs, length, take, set, get_or};
ghost use Rattle.energy.specs.Model.{Model, gated, give, without, fix};
ghost use Rattle.store_pairs.specs.Store.{over};
ghost use Rattle.store_pairs.specs.Tables.{entries_of, SameTables};
ghost use Rattle.store.specs.Tables.{tables, model_of, hold, with_linear, gained, marked, Ready};
ghost use Rattle.store_fix.specs.Fixing.{end, Taking};

use store::Totals;
use store::linear::{add_linear, gated};
use store_pairs::Pairs;
use store_pairs::key::{high_of, low_of};
use units::Qubit;

// The other qubit of the pair `key`, if one of its two is `q`.
fn end_of(key: u32, q: u16) -> Option<usize>
    ensures { result ≡ end q key }
{
    let low = low_of(key);
    let high = high_of(key);
    let q = usize::from(q);
    if low == q {
        Some(high)
    } else if high == q {
        Some(low)
    } else {
        None
    }
}

// The weight at `i`, times the value, joins the linear entry of the qubit `at`.
fn give_one(pairs: &Pairs, i: usize, linear: &mut [i64], present: &mut [u8], at: usize, on: bool)
    requires { (i < length pairs.now.keys.now) × (at < length linear.old) × (at < length present.old) × (nat_abs (get_or linear.old at (pos 0)) + nat_abs (get_or pairs.now.weights.now i (pos 0)) < 2 ^ 62) }
    ensures linear_after { linear.new ≡ gained at (gated on (get_or pairs.now.weights.now i (pos 0))) linear.old }
    ensures present_after { present.new ≡ marked at (gated on (get_or pairs.now.weights.now i (pos 0))) present.old }
{
    if on {
        add_linear(linear, present, at, pairs.weights[i]);
    }
}

// Deletes the pairs of `q` from the first `n`, gives their weights away, and returns how many pairs stay.
fn take_out(
    pairs: &mut Pairs,
    n: usize,
    q: u16,
    on: bool,
    linear: &mut [i64],
    present: &mut [u8],
) -> usize
    requires { Taking pairs.old.keys.now pairs.old.weights.now n linear.old present.old }
    ensures value { result ≡ length (without q (take n (entries_of pairs.old))) }
    ensures entries { entries_of pairs.new ≡ over (without q (take n (entries_of pairs.old))) n (entries_of pairs.old) }
    ensures m_after { (m : Model) → with_linear linear.new present.new m ≡ give q on (take n (entries_of pairs.old)) (with_linear linear.old present.old m) }
    ensures same { SameTables pairs.old pairs.new }
{
    let mut m = 0;
    for i in 0..n {
        match end_of(pairs.keys[i], q) {
            Some(at) => give_one(pairs, i, linear, present, at, on),
            None => {
                pairs.copy_within(i, m);
                m += 1;
            }
        }
    }
    pairs.clear(m, n);
    m
}

// What `fixed` holds for a value.
pub fn mark_of(on: bool) -> u8
    ensures { result ≡ cond on 2 1 }
{
    if on { 2 } else { 1 }
}

// Whether `q` is fixed already, to the other value.
pub fn contradicts(fixed: &[u8], q: Qubit, on: bool) -> bool
    requires { q.0 < length fixed.now }
    ensures { result ≡ eqb (get_or fixed.now q.0 0) (cond on 1 2) }
{
    fixed[usize::from(q.0)] == mark_of(!on)
}

// Enters the value of `q`: its own linear entry and its row go, and `fixed` says the value. Returns the entry times the value.
pub fn enter(
    linear: &mut [i64],
    present: &mut [u8],
    rows: &mut [u8],
    fixed: &mut [u8],
    q: Qubit,
    on: bool,
) -> i64
    requires { (q.0 < length linear.old) × (q.0 < length present.old) × (q.0 < length rows.old) × (q.0 < length fixed.old) }
    ensures value { result ≡ gated on (get_or linear.old q.0 (pos 0)) }
    ensures linear_after { linear.new ≡ set linear.old q.0 (pos 0) }
    ensures present_after { present.new ≡ set present.old q.0 0 }
    ensures rows_after { rows.new ≡ set rows.old q.0 0 }
    ensures fixed_after { fixed.new ≡ set fixed.old q.0 (cond on 2 1) }
{
    let at = usize::from(q.0);
    let own = gated(on, linear[at]);
    linear[at] = 0;
    present[at] = 0;
    rows[at] = 0;
    fixed[at] = mark_of(on);
    own
}

// Fixes `q` to a value.
pub fn fix_qubit(
    linear: &mut [i64],
    present: &mut [u8],
    rows: &mut [u8],
    fixed: &mut [u8],
    keys: &mut [u32],
    weights: &mut [i64],
    t: Totals,
    q: Qubit,
    on: bool,
) -> Totals
    requires { (q.0 < length linear.old) × Ready (length linear.old) keys.old weights.old (tables t.offset linear.old present.old rows.old fixed.old keys.old weights.old t.count) }
    ensures { tables result.offset linear.new present.new rows.new fixed.new keys.new weights.new result.count ≡ hold (fix q.0 on (model_of (tables t.offset linear.old present.old rows.old fixed.old keys.old weights.old t.count))) (tables t.offset linear.old present.old rows.old fixed.old keys.old weights.old t.count) }
{
    let mut pairs = Pairs { keys, weights };
    let count = take_out(&mut pairs, t.count, q.0, on, linear, present);
    let given = enter(linear, present, rows, fixed, q, on);
    Totals {
        offset: t.offset + given,
        count,
    }
}
