// Placing a penalty at its qubits: its linear coefficients join the linear entries, and its pairs go to the end of the log.
ghost use Rattle.std.specs.Prelude.{List, ◌≡◌, ℕ, ◌+◌, ◌≤◌, ℤ};
ghost use Rattle.penalty.specs.Rows.{singles, twos};
ghost use Rattle.energy.specs.Model.{Model, key_of, add_linears, sizes};
ghost use Rattle.store_pairs.specs.Tables.{entries_of, SameTables};
ghost use Rattle.store.specs.Tables.{tables, tables_with, model_of, with_linear, hold};
ghost use Rattle.store_place.specs.Wiring.{slots_of, firsts, seconds};
ghost use Rattle.store_place.specs.Logged.{log_pair, log_pairs, logged};
ghost use Rattle.store_place.specs.Room.{Pairing, Singles, Twos, Placing, Longer, filled_by, filled};

use crate::Wires;
use penalty::Penalty;
use store::Totals;
use store::linear::{add_linear, join_linear};
use store_pairs::Pairs;

// The key of two qubits, the lower first.
fn key_of(p: u16, q: u16) -> u32
    ensures { result ≡ key_of p q }
{
    u32::from(p.min(q)) * 65536 + u32::from(p.max(q))
}

// The qubits at the slots of a penalty's linear coefficients, and at the first and the second slot of its pairs, in the order of its arrays.
fn ones_of(w: Wires) -> [u16; 6]
    ensures { result ≡ firsts (slots_of w) singles }
{
    let Wires {
        x1,
        x2,
        x3,
        z,
        a,
        k,
    } = w;
    [x1.0, x2.0, x3.0, z.0, a.0, k.0]
}

fn firsts_of(w: Wires) -> [u16; 15]
    ensures { result ≡ firsts (slots_of w) twos }
{
    let Wires {
        x1,
        x2,
        x3,
        z,
        a,
        ..
    } = w;
    [
        x1.0, x1.0, x1.0, x1.0, x1.0, x2.0, x2.0, x2.0, x2.0, x3.0, x3.0, x3.0, z.0, z.0, a.0,
    ]
}

fn seconds_of(w: Wires) -> [u16; 15]
    ensures { result ≡ seconds (slots_of w) twos }
{
    let Wires {
        x2,
        x3,
        z,
        a,
        k,
        ..
    } = w;
    [
        x2.0, x3.0, z.0, a.0, k.0, x3.0, z.0, a.0, k.0, z.0, a.0, k.0, a.0, k.0, k.0,
    ]
}

// The number of a pair goes to the log's end, and both qubits have a row. Adding 0 makes no entry; a pair of equal qubits joins the linear entry.
fn add_pair(
    linear: &mut [i64],
    present: &mut [u8],
    rows: &mut [u8],
    pairs: &mut Pairs,
    n: usize,
    p: u16,
    q: u16,
    c: i64,
) -> usize
    requires { Pairing linear.old present.old rows.old pairs.old.keys.now pairs.old.weights.now n p q c }
    ensures result_after { (o : ℤ) (f : List ℕ) → model_of (tables_with o linear.new present.new rows.new f pairs.new result) ≡ log_pair p q c (model_of (tables_with o linear.old present.old rows.old f pairs.old n)) }
    ensures longer { Longer n result (filled_by c) (entries_of pairs.old) (entries_of pairs.new) }
    ensures same { SameTables pairs.old pairs.new }
{
    if c == 0 {
        return n;
    }
    let i = p as usize;
    if p == q {
        join_linear(linear, present, i, c);
        return n;
    }
    let j = q as usize;
    let key = key_of(p, q);
    rows[j] = 1;
    rows[i] = 1;
    pairs.append(n, key, c)
}

// Each linear coefficient of a penalty, in halves, joins the linear entry of the qubit at its slot.
fn place_linear(linear: &mut [i64], present: &mut [u8], w: Wires, cs: [i64; 6])
    requires { Singles linear.old present.old (slots_of w) cs }
    ensures m_after { (m : Model) → with_linear linear.new present.new m ≡ add_linears (slots_of w) singles cs (with_linear linear.old present.old m) }
    ensures linear_bound { sizes linear.new ≤ sizes linear.old + 72 }
{
    let qubits = ones_of(w);
    for (qubit, coefficient) in qubits.iter().zip(&cs) {
        add_linear(linear, present, *qubit as usize, coefficient + coefficient);
    }
}

// Each pair of a penalty, in halves, goes to the log's end.
fn place_pairs(
    linear: &mut [i64],
    present: &mut [u8],
    rows: &mut [u8],
    pairs: &mut Pairs,
    n: usize,
    w: Wires,
    cs: [i64; 15],
) -> usize
    requires { Twos linear.old present.old rows.old pairs.old.keys.now pairs.old.weights.now n (slots_of w) cs }
    ensures result_after { (o : ℤ) (f : List ℕ) → model_of (tables_with o linear.new present.new rows.new f pairs.new result) ≡ log_pairs (slots_of w) twos cs (model_of (tables_with o linear.old present.old rows.old f pairs.old n)) }
    ensures longer { Longer n result (filled cs) (entries_of pairs.old) (entries_of pairs.new) }
    ensures same { SameTables pairs.old pairs.new }
{
    let firsts = firsts_of(w);
    let seconds = seconds_of(w);
    let mut end = n;
    for ((first, second), coefficient) in firsts.iter().zip(&seconds).zip(&cs) {
        let halves = coefficient + coefficient;
        end = add_pair(linear, present, rows, pairs, end, *first, *second, halves);
    }
    end
}

// A penalty is placed at its qubits. `fixed` is not looked at, and stays.
pub fn place(
    linear: &mut [i64],
    present: &mut [u8],
    rows: &mut [u8],
    keys: &mut [u32],
    weights: &mut [i64],
    t: Totals,
    w: Wires,
    p: Penalty,
) -> Totals
    requires { Placing linear.old present.old rows.old keys.old weights.old t (slots_of w) p }
    ensures { (f : List ℕ) → tables result.offset linear.new present.new rows.new f keys.new weights.new result.count ≡ hold (logged (slots_of w) p (model_of (tables t.offset linear.old present.old rows.old f keys.old weights.old t.count))) (tables t.offset linear.old present.old rows.old f keys.old weights.old t.count) }
{
    let halves = p.offset + p.offset;
    let offset = t.offset + halves;
    place_linear(linear, present, w, p.linear);
    let mut pairs = Pairs { keys, weights };
    let count = place_pairs(linear, present, rows, &mut pairs, t.count, w, p.pairs);
    Totals { offset, count }
}
