// The checks 1 to 7, in number order, each over the whole input: the crates `circuit_sizes` 2, 6 and 7, `circuit_form` 3, and `circuit_references` 4 and 5.
// What each function answers is a definition of the crate `circuit`: see its specs/Check.antt.
#![tactic(auto)]

ghost use Rattle.std.specs.Prelude.{◌≡◌, false};
ghost use Rattle.circuit.specs.Starts.{Regular};
ghost use Rattle.circuit.specs.Check.{counts_of, too_many, roomed, named, checked};

use circuit::{Counts, Record, Refusal};
use circuit_form::first_broken;
use circuit_lists::list_tops;
use circuit_references::earlier::first_late;
use circuit_references::partner::first_wrong;
use circuit_sizes::{counts_of, no_room, too_many};

// Checks 6 and 7.
fn check_room(k: Counts, gates: usize, qubits: usize, pairs: usize) -> Result<Counts, Refusal>
    requires { too_many k ≡ false }
    ensures { result ≡ roomed k gates qubits pairs }
{
    if k.bad_states == 0 {
        return Err(Refusal::NoBadState);
    }
    if no_room(k, gates, qubits, pairs) {
        return Err(Refusal::Room);
    }
    Ok(k)
}

// Checks 4 to 7.
fn check_names(
    c: &[u8],
    k: Counts,
    gates: usize,
    qubits: usize,
    pairs: usize,
) -> Result<Counts, Refusal>
    requires { Regular c.now × (k ≡ counts_of c.now) × (too_many k ≡ false) }
    ensures { result ≡ named c.now gates qubits pairs }
{
    let tops = list_tops(c);
    if let Some(n) = first_late(c, k.gates, &tops) {
        return Err(Refusal::NotEarlier(Record(n)));
    }
    if let Some(n) = first_wrong(c, &tops) {
        return Err(Refusal::Partner(Record(n)));
    }
    check_room(k, gates, qubits, pairs)
}

// All seven: the counts of a circuit file that the tables can hold, or the refusal.
pub fn check(c: &[u8], gates: usize, qubits: usize, pairs: usize) -> Result<Counts, Refusal>
    ensures { result ≡ checked c.now gates qubits pairs }
{
    if c.len() % 16 != 0 {
        return Err(Refusal::Length);
    }
    let k = counts_of(c);
    if too_many(k) {
        return Err(Refusal::TooMany);
    }
    if let Some(n) = first_broken(c) {
        return Err(Refusal::Form(Record(n)));
    }
    check_names(c, k, gates, qubits, pairs)
}
