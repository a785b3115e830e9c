// The Ising form. Each pair stands once in the tables, and is turned once.
#![tactic(auto)]

ghost use Rattle.std.specs.Prelude.{List, map, ◌≡◌, ℕ, ◌^◌, ◌<◌, ◌≤◌, pos, length, take, set, get_or};
ghost use Rattle.laws.specs.Sum.{sum};
ghost use Rattle.energy.specs.Model.{Model, half, quarter, quarters, ends, ising, sizes};
ghost use Rattle.store_pairs.specs.Store.{zip, over};
ghost use Rattle.store.specs.Tables.{tables, model_of, hold, with_linear};
ghost use Rattle.store_ising.specs.Turning.{Turning, Ends, Quartering, join_ends};

use store::Totals;
use store::linear::join_linear;
use store_pairs::key::{high_of, low_of};

// The sum of coefficients.
fn sum_of(cs: &[i64]) -> i64
    requires { sizes cs.now ≤ 2 ^ 40 }
    ensures { result ≡ sum cs.now }
{
    let mut s: i64 = 0;
    for c in cs {
        s += *c;
    }
    s
}

// Each coefficient becomes its half.
fn halve_all(cs: &mut [i64])
    ensures { cs.new ≡ map half cs.old }
{
    for c in cs.iter_mut() {
        *c /= 2;
    }
}

// A number joins the linear entries of both qubits of a pair.
fn join_ends(linear: &mut [i64], present: &mut [u8], key: u32, c: i64)
    requires { Ends linear.old present.old key c }
    ensures { (m : Model) → with_linear linear.new present.new m ≡ join_ends (key, c) (with_linear linear.old present.old m) }
{
    join_linear(linear, present, low_of(key), c);
    join_linear(linear, present, high_of(key), c);
}

// Each of the first `n` pairs becomes its quarter, which joins both ends.
fn turn_pairs(keys: &[u32], weights: &mut [i64], n: usize, linear: &mut [i64], present: &mut [u8])
    requires { Quartering keys.now weights.old n linear.old present.old }
    ensures weights_after { zip keys.now weights.new ≡ over (quarters (take n (zip keys.now weights.old))) n (zip keys.now weights.old) }
    ensures m_after { (m : Model) → with_linear linear.new present.new m ≡ ends (quarters (take n (zip keys.now weights.old))) (with_linear linear.old present.old m) }
{
    // By index into `keys`: after a `zip` with `iter_mut`, no fact tells what was written.
    for (i, weight) in weights[..n].iter_mut().enumerate() {
        *weight /= 4;
        join_ends(linear, present, keys[i], *weight);
    }
}

// The model becomes its Ising form. Rows and fixed values are not looked at, and stay.
pub fn to_ising(
    linear: &mut [i64],
    present: &mut [u8],
    keys: &[u32],
    weights: &mut [i64],
    t: Totals,
) -> Totals
    requires { Turning linear.old present.old keys.now weights.old t }
    ensures { (rs f : List ℕ) → tables result.offset linear.new present.new rs f keys.now weights.new result.count ≡ hold (ising (model_of (tables t.offset linear.old present.old rs f keys.now weights.old t.count))) (tables t.offset linear.old present.old rs f keys.now weights.old t.count) }
{
    let n = t.count;
    let a = sum_of(linear);
    let b = sum_of(&weights[..n]);
    halve_all(linear);
    turn_pairs(keys, weights, n, linear, present);
    Totals {
        offset: t.offset + a / 2 + b / 4,
        ..t
    }
}
