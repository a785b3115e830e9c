// Check 5: the first record whose adder, list or input gate is not what it has to be. See specs/Partner.antt of the crate `circuit`.
// Kinds are bare numbers: 01 names them by these, and the definitions compare them.
ghost use Rattle.std.specs.Prelude.{◌≡◌, ◌||◌, ◌+◌, ◌<◌};
ghost use Rattle.circuit.specs.File.{records};
ghost use Rattle.circuit.specs.Partner.{wrong_adder, empty_list, wrong_input, first_wrong};
ghost use Rattle.circuit.specs.Tops.{tops_of};
ghost use Rattle.circuit.specs.Marks.{Timely, Marks};

use circuit_lists::top_of;
use circuit_records::{field_at, kind_byte_at};

// Gate n is a carry whose adder is not of its kind, or a division that names a list without bits. By `|` and `&`: with `||` each way out asks for an answer of its own.
fn wrong_gate(c: &[u8], n: usize, tops: &[usize; 64]) -> bool
    requires { Timely c.now × (n < records c.now) × (tops.now ≡ tops_of c.now) }
    ensures { result ≡ (wrong_adder c.now n || empty_list c.now n) }
{
    let kind = kind_byte_at(c, n);
    let x = field_at(c, n, 0);
    let y = field_at(c, n, 1);
    if (kind == 8) | (kind == 10) {
        let adder = kind_byte_at(c, x as usize);
        return adder != kind + 1;
    }
    let first = top_of(tops, x);
    let second = top_of(tops, y);
    ((kind == 12) | (kind == 13)) & ((first == 0) | (second == 0))
}

// Record n is an input bit whose gate is not InputBit or is marked.
fn wrong_input(c: &[u8], n: usize, marks: &[u8; 1000]) -> bool
    requires { Timely c.now × (n < records c.now) × Marks c.now n marks.now }
    ensures { result ≡ wrong_input c.now n }
{
    let kind = kind_byte_at(c, n);
    if kind == 23 {
        let g = field_at(c, n, 1) as usize;
        return kind_byte_at(c, g) != 2 || marks[g] != 0;
    }
    false
}

// Marks the gate of record n, if it is an input bit.
fn mark(c: &[u8], n: usize, marks: &mut [u8; 1000])
    requires { Timely c.now × (n < records c.now) × Marks c.now n marks.old }
    ensures { Marks c.now (n + 1) marks.new }
{
    let kind = kind_byte_at(c, n);
    if kind == 23 {
        let g = field_at(c, n, 1) as usize;
        marks[g] = 1;
    }
}

pub fn first_wrong(c: &[u8], tops: &[usize; 64]) -> Option<usize>
    requires { Timely c.now × (tops.now ≡ tops_of c.now) }
    ensures { result ≡ first_wrong c.now }
{
    let mut marks = [0; 1000];
    for n in 0..c.len() / 16 {
        let gate = wrong_gate(c, n, tops);
        let input = wrong_input(c, n, &marks);
        if gate | input {
            return Some(n);
        }
        mark(c, n, &mut marks);
    }
    None
}
