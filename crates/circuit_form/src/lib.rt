// Check 3: the first record that breaks the form, in one pass. Each function's definition is in specs/Form.antt of the crate `circuit`, or in its specs/Passing.antt for what is kept of the records passed.
// Kinds are bare numbers: 01 names them by these, and the definitions compare them.
#![tactic(auto)]

ghost use Rattle.std.specs.Prelude.{◌≡◌, false, ◌+◌, ◌*◌, ◌≤◌, length};
ghost use Rattle.circuit.specs.Form.{order_of, order_at, used_fields, unused_set, first_broken};
ghost use Rattle.circuit.specs.Passing.{bad_in, run_after, breaks_by, after};

use circuit::{Passed, Run, Section};
use circuit_records::{byte1_at, field_at, kind_byte_at, nid_at, section_at};

// A section's place in the order; one past the last is the unknown kinds'. A number, since `order_of` of specs/Form.antt is one, and `misplaced` compares such places.
fn order_of(section: Section) -> u8
    ensures { result ≡ order_of section }
{
    match section {
        Section::Gates => 0,
        Section::ListBits => 1,
        Section::BadStates => 2,
        Section::Constraints => 3,
        Section::InputBits => 4,
        Section::Unknown => 5,
    }
}

// The place of record n's section in the order.
#[tactic(auto, unfolding(circuit::specs::Form::order_at))]
pub fn order_at(c: &[u8], n: usize) -> u8
    requires { 16 * (n + 1) ≤ length c.now }
    ensures { result ≡ order_at c.now n }
{
    order_of(section_at(c, n))
}

// How many of a, b, c each kind uses, from a on.
const USED: [u8; 24] = [
    0, 0, 0, 1, 2, 2, 2, 2, 1, 2, 1, 3, 2, 2, 0, 0, 0, 0, 0, 0, 2, 1, 1, 2,
];

#[tactic(auto, unfolding(circuit::specs::Form::used_fields))]
pub fn used_fields(kind: u8) -> u8
    ensures { result ≡ used_fields kind }
{
    USED.get(kind as usize).copied().unwrap_or(0)
}

// An unused part of record n is not 0.
#[tactic(auto, unfolding(circuit::specs::Form::unused_set))]
fn unused_set(c: &[u8], n: usize) -> bool
    requires { 16 * (n + 1) ≤ length c.now }
    ensures { result ≡ unused_set c.now n }
{
    let kind = kind_byte_at(c, n);
    let used = used_fields(kind);
    !(kind == 12 || kind == 13 || kind == 22) && byte1_at(c, n) != 0
        || used <= 0 && field_at(c, n, 0) != 0
        || used <= 1 && field_at(c, n, 1) != 0
        || used <= 2 && field_at(c, n, 2) != 0
        || !(kind == 21 || kind == 23) && nid_at(c, n) != 0
}

// Number k does not follow the numbers passed.
fn bad_in(run: Run, k: u16) -> bool
    ensures { result ≡ bad_in run k }
{
    let at = k as usize;
    let last = at + 1 == run.begun;
    !(at == run.begun || last) || 63 < at || last && 64 <= run.bits
}

// Number k is passed.
fn run_after(run: Run, k: u16) -> Run
    requires { bad_in run k ≡ false }
    ensures { result ≡ run_after run k }
{
    if k as usize == run.begun {
        Run {
            begun: run.begun + 1,
            bits: 1,
        }
    } else {
        Run {
            bits: run.bits + 1,
            ..run
        }
    }
}

// Record n breaks the form after what has passed.
#[tactic(auto, unfolding(circuit::specs::Passing::breaks_by))]
fn breaks_by(c: &[u8], n: usize, p: Passed) -> bool
    requires { 16 * (n + 1) ≤ length c.now }
    ensures { result ≡ breaks_by c.now n p }
{
    let kind = kind_byte_at(c, n);
    let order = order_at(c, n);
    let number = field_at(c, n, 0);
    order == 5
        || order < p.order
        || unused_set(c, n)
        || kind == 20 && bad_in(p.lists, number)
        || kind == 23 && bad_in(p.inputs, number)
        || kind == 22 && 1 < byte1_at(c, n)
        || kind == 23 && number as usize + 1 == p.inputs.begun && p.nid != nid_at(c, n)
}

// Record n is passed.
fn after(c: &[u8], n: usize, p: Passed) -> Passed
    requires { (16 * (n + 1) ≤ length c.now) × (breaks_by c.now n p ≡ false) }
    ensures { result ≡ after c.now n p }
{
    let order = order_at(c, n);
    let number = field_at(c, n, 0);
    match kind_byte_at(c, n) {
        20 => Passed {
            order,
            lists: run_after(p.lists, number),
            ..p
        },
        23 => Passed {
            order,
            inputs: run_after(p.inputs, number),
            nid: nid_at(c, n),
            ..p
        },
        _ => Passed { order, ..p },
    }
}

// The first record that breaks the form.
pub fn first_broken(c: &[u8]) -> Option<usize>
    ensures { result ≡ first_broken c.now }
{
    let mut p = Passed {
        order: 0,
        lists: Run { begun: 0, bits: 0 },
        inputs: Run { begun: 0, bits: 0 },
        nid: 0,
    };
    for n in 0..c.len() / 16 {
        if breaks_by(c, n, p) {
            return Some(n);
        }
        p = after(c, n, p);
    }
    None
}
