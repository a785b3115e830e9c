// Reading a record of 16 bytes: byte 0 kind, byte 1 index or value, then a, b, c of two bytes each, then nid of eight bytes, little endian.
#![tactic(auto)]

ghost use Rattle.std.specs.Prelude.{◌≡◌, ◌+◌, ◌*◌, ◌≤◌, ◌<◌, length};
ghost use Rattle.circuit.specs.File.{half, word, field, kind_byte, kind_at, section_at, byte1, nid_at};

use circuit::{GateKind, Section};

// The number of two bytes, low byte first.
pub fn half_at(c: &[u8], at: usize) -> u16
    requires { at + 2 ≤ length c.now }
    ensures { result ≡ half c.now at }
{
    u16::from_le_bytes([c[at], c[at + 1]])
}

// The number of four bytes, low byte first.
pub fn word_at(c: &[u8], at: usize) -> u32
    requires { at + 4 ≤ length c.now }
    ensures { result ≡ word c.now at }
{
    u32::from_le_bytes([c[at], c[at + 1], c[at + 2], c[at + 3]])
}

// Byte 0 of record n: the number of its kind.
#[tactic(auto, unfolding(circuit::specs::File::kind_byte))]
pub fn kind_byte_at(c: &[u8], n: usize) -> u8
    requires { 16 * (n + 1) ≤ length c.now }
    ensures { result ≡ kind_byte c.now n }
{
    c[16 * n]
}

// Byte 1 of record n: a division's index, or a constraint's value.
#[tactic(auto, unfolding(circuit::specs::File::byte1))]
pub fn byte1_at(c: &[u8], n: usize) -> u8
    requires { 16 * (n + 1) ≤ length c.now }
    ensures { result ≡ byte1 c.now n }
{
    c[16 * n + 1]
}

// Field i of record n: a, b, c are the fields 0, 1, 2.
#[tactic(auto, unfolding(circuit::specs::File::field))]
pub fn field_at(c: &[u8], n: usize, i: usize) -> u16
    requires { (16 * (n + 1) ≤ length c.now) × (i < 3) }
    ensures { result ≡ field c.now n i }
{
    half_at(c, 16 * n + 2 + 2 * i)
}

// The nid of record n.
#[tactic(auto, unfolding(circuit::specs::File::nid_at))]
pub fn nid_at(c: &[u8], n: usize) -> u64
    requires { 16 * (n + 1) ≤ length c.now }
    ensures { result ≡ nid_at c.now n }
{
    let at = 16 * n + 8;
    u64::from_le_bytes([
        c[at],
        c[at + 1],
        c[at + 2],
        c[at + 3],
        c[at + 4],
        c[at + 5],
        c[at + 6],
        c[at + 7],
    ])
}

// The section that record n belongs to.
#[tactic(auto, unfolding(circuit::specs::File::section_at))]
pub fn section_at(c: &[u8], n: usize) -> Section
    requires { 16 * (n + 1) ≤ length c.now }
    ensures { result ≡ section_at c.now n }
{
    kind_byte_at(c, n).into()
}

// The gate that record n is; of a record that is no gate, ConstFalse.
#[tactic(auto, unfolding(circuit::specs::File::kind_at))]
pub fn kind_at(c: &[u8], n: usize) -> GateKind
    requires { 16 * (n + 1) ≤ length c.now }
    ensures { result ≡ kind_at c.now n }
{
    kind_byte_at(c, n).into()
}
