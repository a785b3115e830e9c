// The energy of a setting. A setting is a table of values by qubit, of which 1 is true.
ghost use Rattle.std.specs.Prelude.{List, ◌≡◌, ℕ, ◌^◌, ◌<◌, ◌≤◌, nat_abs, length, take};
ghost use Rattle.units.specs.Halves.{energy_of};
ghost use Rattle.energy.specs.Model.{low, high, linear_by, pairs_by, energy_in, sizes};
ghost use Rattle.store_pairs.specs.Store.{zip};
ghost use Rattle.store.specs.Tables.{tables, model_of, setting_of};
ghost use Rattle.store.specs.Evaluating.{weight_in, joint_in, Pairs, Evaluating};

use crate::Totals;
use crate::linear::gated;
use store_pairs::key::{high_of, low_of};
use units::{Energy, Form, energy_of};

fn value_at(values: &[u8], q: usize) -> bool
    requires { q < length values.now }
    ensures { result ≡ setting_of values.now q }
{
    values[q] == 1
}

// A coefficient times a value: 0 or 1 in the one form, -1 or 1 in the other.
fn times(form: Form, on: bool, c: i64) -> i64
    requires { nat_abs c < 2 ^ 62 }
    ensures { result ≡ weight_in form on c }
{
    match form {
        Form::Binary => gated(on, c),
        Form::Ising => { if on { c } else { -c } }
    }
}

// The product of two values, as a value.
fn joint(form: Form, a: bool, b: bool) -> bool
    ensures { result ≡ joint_in form a b }
{
    match form {
        Form::Binary => a & b,
        Form::Ising => a == b,
    }
}

// The energy of the linear coefficients.
fn linear_energy(linear: &[i64], values: &[u8], form: Form) -> i64
    requires { (length values.now ≡ length linear.now) × (sizes linear.now ≤ 2 ^ 40) }
    ensures { result ≡ linear_by (weight_in form) (setting_of values.now) 0 linear.now }
{
    let mut e: i64 = 0;
    for (i, c) in linear.iter().enumerate() {
        let on = value_at(values, i);
        let x = times(form, on, *c);
        e += x;
    }
    e
}

// The product of the values of a pair's two qubits.
fn pair_value(key: u32, values: &[u8], form: Form) -> bool
    requires { (low key < length values.now) × (high key < length values.now) }
    ensures { result ≡ joint_in form (setting_of values.now (low key)) (setting_of values.now (high key)) }
{
    joint(
        form,
        value_at(values, low_of(key)),
        value_at(values, high_of(key)),
    )
}

// The energy of the first `n` pairs.
fn pair_energy(keys: &[u32], weights: &[i64], n: usize, values: &[u8], form: Form) -> i64
    requires { Pairs keys.now weights.now n values.now }
    ensures { result ≡ pairs_by (weight_in form) (joint_in form) (setting_of values.now) (take n (zip keys.now weights.now)) }
{
    let mut e: i64 = 0;
    for (key, weight) in keys[..n].iter().zip(&weights[..n]) {
        let on = pair_value(*key, values, form);
        let x = times(form, on, *weight);
        e += x;
    }
    e
}

// The energy of the model at a setting. Only the coefficients are looked at.
pub fn energy_at(
    linear: &[i64],
    keys: &[u32],
    weights: &[i64],
    t: Totals,
    values: &[u8],
    form: Form,
) -> Energy
    requires { Evaluating linear.now keys.now weights.now t values.now }
    ensures { (h rs f : List ℕ) → result ≡ energy_of (energy_in form (setting_of values.now) (model_of (tables t.offset linear.now h rs f keys.now weights.now t.count))) form }
{
    let a = linear_energy(linear, values, form);
    let b = pair_energy(keys, weights, t.count, values, form);
    let s = a + b;
    let e = t.offset + s;
    energy_of(e, form)
}
