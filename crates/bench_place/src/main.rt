// Times placing and settling at 10,190 pairs: 1,019 full adders at qubits in no order, fifty times. It writes how many pairs the model has.
#![tactic(auto)]

ghost use Rattle.std.specs.Prelude.{[], ◌≡◌, ◌*◌, ◌<◌, ◌≤◌, length};
ghost use Rattle.energy.specs.Model.{sizes, mass};
ghost use Rattle.penalty.specs.Rows.{Slot};
ghost use Rattle.store.specs.Tables.{tables, model_of};
ghost use Rattle.store_place.specs.Wiring.{slots_of};

use penalty::Kind;
use std::io;
use store::Totals;
use store_place::Wires;
use store_place::place::place;
use store_settle::settle;
use units::Qubit;

// A name below 3,065.
fn name(x: usize) -> Qubit
    ensures { result.0 < 3065 }
{
    Qubit((x % 3065) as u16)
}

// The qubits of the row `i`.
fn wires_of(i: usize) -> Wires
    requires { i < 2000 }
    ensures { (s : Slot) → slots_of result s < 3065 }
{
    Wires {
        x1: name(i * 7),
        x2: name(i * 11 + 1),
        x3: name(i * 13 + 2),
        z: name(i * 3 + 4),
        a: name(i * 3 + 2),
        k: name(i * 3 + 3),
    }
}

// Places `n` full adders.
fn place_rows(
    linear: &mut [i64],
    present: &mut [u8],
    rows: &mut [u8],
    keys: &mut [u32],
    weights: &mut [i64],
    n: usize,
) -> Totals
    requires { (length linear.old ≡ 3065) × (length present.old ≡ 3065) × (length rows.old ≡ 3065) × (length weights.old ≡ length keys.old) × (10 * n ≤ length keys.old) × (n ≤ 2000) × (sizes linear.old ≡ 0) }
    ensures { (result.count ≤ 10 * n) × (mass (model_of (tables result.offset linear.new present.new rows.new [] keys.new weights.new result.count)) ≤ 264 * n) }
{
    let mut t = Totals {
        offset: 0,
        count: 0,
    };
    for i in 0..n {
        let w = wires_of(i);
        let p = penalty::row(Kind::Full);
        t = place(linear, present, rows, keys, weights, t, w, p);
    }
    t
}

// One model from nothing.
fn build(
    linear: &mut [i64],
    present: &mut [u8],
    rows: &mut [u8],
    keys: &mut [u32],
    weights: &mut [i64],
    sk: &mut [u32],
    sw: &mut [i64],
) -> usize
    requires linear_len { (length linear.old ≡ 3065) × (length present.old ≡ 3065) × (length rows.old ≡ 3065) }
    requires keys_len { (length keys.old ≡ 10190) × (length weights.old ≡ 10190) × (length sk.old ≡ 10190) × (length sw.old ≡ 10190) }
{
    linear.fill(0);
    let t = place_rows(linear, present, rows, keys, weights, 1019);
    let u = settle(keys, weights, sk, sw, t);
    u.count
}

// Fifty times.
fn repeat(
    linear: &mut [i64],
    present: &mut [u8],
    rows: &mut [u8],
    keys: &mut [u32],
    weights: &mut [i64],
    sk: &mut [u32],
    sw: &mut [i64],
) -> usize
    requires linear_len { (length linear.old ≡ 3065) × (length present.old ≡ 3065) × (length rows.old ≡ 3065) }
    requires keys_len { (length keys.old ≡ 10190) × (length weights.old ≡ 10190) × (length sk.old ≡ 10190) × (length sw.old ≡ 10190) }
{
    let mut count = 0;
    for _ in 0..50 {
        count = build(linear, present, rows, keys, weights, sk, sw);
    }
    count
}

fn main(rt: HostRuntime) -> io::Result<()> {
    let mut linear = [0i64; 3065];
    let mut present = [0u8; 3065];
    let mut rows = [0u8; 3065];
    let mut keys = [0u32; 10190];
    let mut weights = [0i64; 10190];
    let mut sk = [0u32; 10190];
    let mut sw = [0i64; 10190];
    let count = repeat(
        &mut linear,
        &mut present,
        &mut rows,
        &mut keys,
        &mut weights,
        &mut sk,
        &mut sw,
    );
    println!(rt; "{count}")
}
