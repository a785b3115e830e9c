// Check 4: the first record that names a gate which is not earlier, or which is none. See specs/Earlier.antt of the crate `circuit`.
// Kinds are bare numbers: 01 names them by these, and the definitions compare them.
ghost use Rattle.std.specs.Prelude.{◌≡◌, ◌+◌, ◌*◌, ◌≤◌, length, None};
ghost use Rattle.circuit.specs.File.{count_of};
ghost use Rattle.circuit.specs.Form.{first_broken};
ghost use Rattle.circuit.specs.Earlier.{named_by, not_below, late, first_late};
ghost use Rattle.circuit.specs.Tops.{tops_of};

use circuit_form::used_fields;
use circuit_lists::top_of;
use circuit_records::{field_at, kind_byte_at};

// Gate n names a gate that is not below it. By `|` and `&`: with `||` each way out asks for an answer of its own.
fn late_gate(c: &[u8], n: usize, tops: &[usize; 64]) -> bool
    requires { (16 * (n + 1) ≤ length c.now) × (first_broken c.now ≡ None) × (tops.now ≡ tops_of c.now) }
    ensures { result ≡ not_below n (named_by c.now n) }
{
    let kind = kind_byte_at(c, n);
    let x = field_at(c, n, 0);
    let y = field_at(c, n, 1);
    let z = field_at(c, n, 2);
    if 12 <= kind {
        let first = top_of(tops, x);
        let second = top_of(tops, y);
        return (n < first) | (n < second);
    }
    let used = used_fields(kind);
    ((0 < used) & (n <= x as usize))
        | ((1 < used) & (n <= y as usize))
        | ((2 < used) & (n <= z as usize))
}

#[tactic(auto, unfolding(circuit::specs::Earlier::late))]
fn is_late(c: &[u8], n: usize, gates: usize, tops: &[usize; 64]) -> bool
    requires { (16 * (n + 1) ≤ length c.now) × (first_broken c.now ≡ None) × (gates ≡ count_of c.now 0 13) × (tops.now ≡ tops_of c.now) }
    ensures { result ≡ late c.now n }
{
    let kind = kind_byte_at(c, n);
    kind <= 13 && late_gate(c, n, tops)
        || (kind == 20 || kind == 23) && gates <= field_at(c, n, 1) as usize
        || (kind == 21 || kind == 22) && gates <= field_at(c, n, 0) as usize
}

pub fn first_late(c: &[u8], gates: usize, tops: &[usize; 64]) -> Option<usize>
    requires { (first_broken c.now ≡ None) × (gates ≡ count_of c.now 0 13) × (tops.now ≡ tops_of c.now) }
    ensures { result ≡ first_late c.now }
{
    for n in 0..c.len() / 16 {
        if is_late(c, n, gates, tops) {
            return Some(n);
        }
    }
    None
}
