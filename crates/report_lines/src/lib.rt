// The lines of a run, each into a lent buffer. What a line says is a definition of specs/; a byte past the buffer's end is counted and not stored.
#![tactic(auto)]

ghost use Rattle.std.specs.Prelude.{◌+◌, ◌*◌, ◌^◌, ◌≤◌, ◌<◌, length};
ghost use Rattle.text.specs.Paste.{Printed, Room};
ghost use Rattle.text.specs.Text.{lines};
ghost use Rattle.report_lines.specs.Report.{form_word, energy_line, bad_line, hit_line};

use text::write::{put, put_bytes, put_decimal, put_halves, put_signed};
use units::{Energy, Form};

// The word for a form.
fn put_form(buf: &mut [u8], at: usize, form: Form) -> usize
    requires { Room at (form_word form) }
    ensures { Printed (form_word form) buf.old at buf.new result }
{
    match form {
        Form::Binary => put_bytes(buf, at, b"binary"),
        Form::Ising => put_bytes(buf, at, b"ising"),
    }
}

// The energy with its form, and its count of halves.
pub fn put_energy(buf: &mut [u8], at: usize, e: Energy) -> usize
    requires { at + 66 < 2 ^ 64 }
    ensures printed { Printed (energy_line e) buf.old at buf.new result }
    ensures upper_bound { result ≤ at + 66 }
{
    let energy = put_bytes(buf, at, b"energy ");
    let gap = put_halves(buf, energy, e.halves);
    let word = put(buf, gap, b' ');
    let count = put_form(buf, word, e.form);
    let number = put_bytes(buf, count, b" halves ");
    let end = put_signed(buf, number, e.halves);
    put(buf, end, b'\n')
}

// A bad state that was true.
fn put_bad(buf: &mut [u8], at: usize, nid: u64) -> usize
    requires { at + 25 < 2 ^ 64 }
    ensures printed { Printed (bad_line nid) buf.old at buf.new result }
    ensures upper_bound { result ≤ at + 25 }
{
    let number = put_bytes(buf, at, b"bad ");
    let end = put_decimal(buf, number, nid);
    put(buf, end, b'\n')
}

// All of them, in their order.
pub fn put_bads(buf: &mut [u8], at: usize, nids: &[u64]) -> usize
    requires { at + 25 * length nids.now < 2 ^ 64 }
    ensures printed { Printed (lines bad_line nids.now) buf.old at buf.new result }
    ensures upper_bound { result ≤ at + 25 * length nids.now }
{
    let mut next = at;
    for nid in nids {
        next = put_bad(buf, next, *nid);
    }
    next
}

// The verdict.
pub fn put_hit(buf: &mut [u8], at: usize, hit: bool) -> usize
    requires { Room at (hit_line hit) }
    ensures { Printed (hit_line hit) buf.old at buf.new result }
{
    if hit {
        put_bytes(buf, at, b"hit yes\n")
    } else {
        put_bytes(buf, at, b"hit no\n")
    }
}
