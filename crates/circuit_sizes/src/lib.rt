// How many records, lists and inputs there are, and the limits of checks 2 and 7. See specs/Check.antt of the crate `circuit`.
// Kinds are bare numbers: 01 names them by these, and the definitions compare them.
#![tactic(auto)]

ghost use Rattle.std.specs.Prelude.{◌≡◌, false};
ghost use Rattle.circuit.specs.File.{records, count_of};
ghost use Rattle.circuit.specs.Meaning.{numbers_to, how_many};
ghost use Rattle.circuit.specs.Check.{counts_of, too_many, no_room};

use circuit::Counts;
use circuit_records::{field_at, kind_byte_at};

// How many records are of the kinds from low to high.
fn count_kinds(c: &[u8], low: u8, high: u8) -> usize
    ensures { result ≡ count_of c.now low high }
{
    let mut count = 0;
    for n in 0..c.len() / 16 {
        let kind = kind_byte_at(c, n);
        if low <= kind && kind <= high {
            count += 1;
        }
    }
    count
}

// How many lists (kind 20) or inputs (kind 23) there are: one more than the last number.
fn how_many(c: &[u8], kind: u8) -> usize
    ensures { result ≡ how_many (numbers_to c.now kind (records c.now)) }
{
    let mut count = 0;
    for n in 0..c.len() / 16 {
        if kind_byte_at(c, n) == kind {
            count = field_at(c, n, 0) as usize + 1;
        }
    }
    count
}

#[tactic(auto, unfolding(circuit::specs::Check::counts_of))]
pub fn counts_of(c: &[u8]) -> Counts
    ensures { result ≡ counts_of c.now }
{
    Counts {
        gates: count_kinds(c, 0, 13),
        list_bits: count_kinds(c, 20, 20),
        lists: how_many(c, 20),
        bad_states: count_kinds(c, 21, 21),
        constraints: count_kinds(c, 22, 22),
        input_bits: count_kinds(c, 23, 23),
        inputs: how_many(c, 23),
    }
}

pub fn too_many(k: Counts) -> bool
    ensures { result ≡ too_many k }
{
    1000 < k.gates
        || 4096 < k.list_bits
        || 64 < k.bad_states
        || 256 < k.constraints
        || 1000 < k.input_bits
}

pub fn no_room(k: Counts, gates: usize, qubits: usize, pairs: usize) -> bool
    requires { too_many k ≡ false }
    ensures { result ≡ no_room k gates qubits pairs }
{
    let g = k.gates;
    let b = k.bad_states;
    gates < g || qubits < 3 * g + b + 1 || pairs < 10 * g + 3 * b
}
