// The lists, and the inputs: where each one's bits stand, and the largest gate of each list, each found once in one pass. See specs/Starts.antt and specs/Tops.antt of the crate `circuit`.
// Kinds are bare numbers: 01 names them by these, and the definitions compare them.
#![tactic(auto)]

ghost use Rattle.std.specs.Prelude.{◌≡◌, None};
ghost use Rattle.circuit.specs.File.{count_of};
ghost use Rattle.circuit.specs.Form.{first_broken};
ghost use Rattle.circuit.specs.Starts.{starts_of, Regular, Ends};
ghost use Rattle.circuit.specs.Tops.{tops_of, top_at};

use circuit_records::{field_at, kind_byte_at};

pub mod parts;

// The record at which each number of one kind starts, 20 for lists and 23 for inputs, where `end` is past the last of their bits.
fn starts_of(c: &[u8], kind: u8, end: usize) -> [u16; 65]
    requires { Ends c.now kind end }
    ensures { result ≡ starts_of c.now kind }
{
    let mut starts = [end as u16; 65];
    let mut next = 0;
    for n in 0..c.len() / 16 {
        let k = field_at(c, n, 0) as usize;
        if kind_byte_at(c, n) == kind && k == next {
            starts[next] = n as u16;
            next += 1;
        }
    }
    starts
}

// List k has its bits in the records from entry k to entry k + 1.
pub fn list_starts(c: &[u8], gates: usize, list_bits: usize) -> [u16; 65]
    requires { Regular c.now × (gates ≡ count_of c.now 0 13) × (list_bits ≡ count_of c.now 20 20) }
    ensures { result ≡ starts_of c.now 20 }
{
    starts_of(c, 20, gates + list_bits)
}

// Input k has its bits in the records from entry k to entry k + 1.
pub fn input_starts(c: &[u8]) -> [u16; 65]
    requires { Regular c.now }
    ensures { result ≡ starts_of c.now 23 }
{
    starts_of(c, 23, c.len() / 16)
}

// One more than the largest gate of each list, and 0 for a list that has no bits.
pub fn list_tops(c: &[u8]) -> [usize; 64]
    requires { first_broken c.now ≡ None }
    ensures { result ≡ tops_of c.now }
{
    let mut tops = [0usize; 64];
    for n in 0..c.len() / 16 {
        if kind_byte_at(c, n) == 20 {
            let k = field_at(c, n, 0) as usize;
            let gate = field_at(c, n, 1) as usize;
            tops[k] = tops[k].max(gate + 1);
        }
    }
    tops
}

// The same of list k alone, whatever its number.
pub fn top_of(tops: &[usize; 64], k: u16) -> usize
    ensures { result ≡ top_at tops.now k }
{
    tops.get(k as usize).copied().unwrap_or(0)
}
