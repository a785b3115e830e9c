// The parts of an accepted circuit: bad states and inputs, each tied to the circuit that the bytes mean. See specs/Parts.antt of the crate `circuit`.
ghost use Rattle.std.specs.Prelude.{◌≡◌, ◌<◌, length, get_or};
ghost use Rattle.units.specs.Name.{gate};
ghost use Rattle.circuit.specs.Meaning.{circuit_of};
ghost use Rattle.circuit.specs.Check.{counts_of};
ghost use Rattle.circuit.specs.Starts.{Regular, starts_of};
ghost use Rattle.circuit.specs.Parts.{bad_of, input_of_circuit};

use circuit::Counts;
use circuit_records::{field_at, nid_at};
use units::Gate;

// The gate of bad state k.
pub fn bad_gate(c: &[u8], n: Counts, k: usize) -> Gate
    requires { Regular c.now × (n ≡ counts_of c.now) × (k < n.bad_states) }
    ensures { result ≡ gate (bad_of (circuit_of c.now) k).gate }
{
    let first = n.gates + n.list_bits;
    Gate(field_at(c, first + k, 0))
}

// The nid of bad state k.
pub fn bad_nid(c: &[u8], n: Counts, k: usize) -> u64
    requires { Regular c.now × (n ≡ counts_of c.now) × (k < n.bad_states) }
    ensures { result ≡ (bad_of (circuit_of c.now) k).nid }
{
    let first = n.gates + n.list_bits;
    nid_at(c, first + k)
}

// The nid of input k.
pub fn input_nid(c: &[u8], starts: &[u16; 65], k: usize) -> u64
    requires { Regular c.now × (starts.now ≡ starts_of c.now 23) × (k < length (circuit_of c.now).inputs) }
    ensures { result ≡ (input_of_circuit (circuit_of c.now) k).nid }
{
    let from = starts[k] as usize;
    nid_at(c, from)
}

// The gate of bit j of input k.
pub fn input_gate(c: &[u8], starts: &[u16; 65], k: usize, j: usize) -> Gate
    requires { Regular c.now × (starts.now ≡ starts_of c.now 23) × (k < length (circuit_of c.now).inputs) × (j < length (input_of_circuit (circuit_of c.now) k).bits) }
    ensures { result ≡ gate (get_or (input_of_circuit (circuit_of c.now) k).bits j 0) }
{
    let from = starts[k] as usize;
    Gate(field_at(c, from + j, 1))
}
