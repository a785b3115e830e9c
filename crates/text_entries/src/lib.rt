// The lines of the model text, and their words.
#![tactic(auto)]

ghost use Rattle.std.specs.Prelude.{cond, [], ◌∷◌, ◌++◌, ◌≡◌, ◌-◌, ◌≤◌, ◌<◌, length, get_or};
ghost use Rattle.text.specs.Paste.{Printed, Room};
ghost use Rattle.text.specs.Text.{entry_text, pair_text, bad_text, qubit_text, end_text, value_byte, fixed_byte, fixed_by, shown, word, comma};

use text::write::{put, put_decimal, put_halves, put_lead};

// A number and a count of halves: the count and the offset, or a linear entry.
pub fn put_entry(buf: &mut [u8], at: usize, n: u64, h: i64) -> usize
    requires { Room at (entry_text n h) }
    ensures { Printed (entry_text n h) buf.old at buf.new result }
{
    let next = put_lead(buf, at, n);
    let last = put_halves(buf, next, h);
    put(buf, last, b'\n')
}

// A pair, the lower name first. The key is taken apart here, since this crate stands above `text` alone and none of the store's.
pub fn put_pair(buf: &mut [u8], at: usize, key: u32, w: i64) -> usize
    requires { Room at (pair_text (key, w)) }
    ensures { Printed (pair_text (key, w)) buf.old at buf.new result }
{
    let low = key / 65536;
    let high = key % 65536;
    let next = put_lead(buf, at, low as u64);
    put_entry(buf, next, high as u64, w)
}

// The byte of a qubit's fixed value.
fn fixed_byte(fixed: &[u8], name: usize) -> u8
    requires { name < length fixed.now }
    ensures { result ≡ fixed_byte (fixed_by (get_or fixed.now name 0)) }
{
    match fixed[name] {
        1 => b'0',
        2 => b'1',
        _ => b'-',
    }
}

// The byte of an input bit's fixed value, by its gate's entry in the table of qubits.
fn value_byte(fixed: &[u8], q: u16) -> u8
    requires { q ≤ length fixed.now }
    ensures { result ≡ value_byte (shown fixed.now q) }
{
    match q.checked_sub(1) {
        Some(name) => fixed_byte(fixed, name as usize),
        None => b'0',
    }
}

// An input bit's qubit.
fn put_qubit(buf: &mut [u8], at: usize, fixed: &[u8], q: u16) -> usize
    requires { Room at (qubit_text (shown fixed.now q)) }
    ensures { Printed (qubit_text (shown fixed.now q)) buf.old at buf.new result }
{
    match q.checked_sub(1) {
        Some(name) => put_decimal(buf, at, name as u64),
        None => put(buf, at, b'?'),
    }
}

// What a bad state's line has after its qubit.
fn put_end(buf: &mut [u8], at: usize, fixed: &[u8], name: usize) -> usize
    requires { (name < length fixed.now) × Room at (end_text (fixed_by (get_or fixed.now name 0))) }
    ensures { Printed (end_text (fixed_by (get_or fixed.now name 0))) buf.old at buf.new result }
{
    let b = fixed_byte(fixed, name);
    if b == b'-' {
        put(buf, at, b'\n')
    } else {
        let next = put(buf, at, b' ');
        let last = put(buf, next, b);
        put(buf, last, b'\n')
    }
}

// A bad state's line, by its nid and its gate's entry in the table of qubits.
pub fn put_bad(buf: &mut [u8], at: usize, nid: u64, fixed: &[u8], q: u16) -> usize
    requires { (0 < q) × (q ≤ length fixed.now) × Room at (bad_text (record { nid = nid; name = q - 1; value = fixed_by (get_or fixed.now (q - 1) 0) })) }
    ensures { Printed (bad_text (record { nid = nid; name = q - 1; value = fixed_by (get_or fixed.now (q - 1) 0) })) buf.old at buf.new result }
{
    let name = q - 1;
    let next = put_lead(buf, at, nid);
    let last = put_decimal(buf, next, name as u64);
    put_end(buf, last, fixed, name as usize)
}

// An input bit's word: its qubit or its fixed value.
fn put_shown(buf: &mut [u8], at: usize, fixed: &[u8], q: u16, values: bool) -> usize
    requires { (q ≤ length fixed.now) × Room at (word values (shown fixed.now q)) }
    ensures { Printed (word values (shown fixed.now q)) buf.old at buf.new result }
{
    if values {
        let b = value_byte(fixed, q);
        put(buf, at, b)
    } else {
        put_qubit(buf, at, fixed, q)
    }
}

// The same, with a comma after it where more follow.
pub fn put_word(buf: &mut [u8], at: usize, fixed: &[u8], q: u16, values: bool, more: bool) -> usize
    requires { (q ≤ length fixed.now) × Room at (word values (shown fixed.now q) ++ cond more (comma ∷ []) []) }
    ensures { Printed (word values (shown fixed.now q) ++ cond more (comma ∷ []) []) buf.old at buf.new result }
{
    let next = put_shown(buf, at, fixed, q, values);
    if more { put(buf, next, b',') } else { next }
}
