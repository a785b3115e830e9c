// The parts of the text, a loop each.
ghost use mathlib.Core.List.{map, zip};
ghost use Rattle.std.specs.Prelude.{◌≡◌, ◌≤◌, ◌<◌, length};
ghost use Rattle.circuit.specs.Check.{counts_of};
ghost use Rattle.circuit.specs.Starts.{starts_of};
ghost use Rattle.circuit.specs.Parts.{input_of_circuit};
ghost use Rattle.text_print.specs.Lent.{circuit_in, inputs_in, bads_in, ReadableIn};
ghost use Rattle.text.specs.Paste.{Printed, Room};
ghost use Rattle.text.specs.Text.{lines, commas, word, shown_at, input_text, input_line, bad_text, linear_text, pair_text, entries};
ghost use Rattle.text.specs.Ready.{BadsNamed};

use crate::finished::Sheet;
use circuit_lists::parts::{bad_gate, bad_nid, input_gate, input_nid};
use text::write::{put, put_lead};
use text_entries::{put_bad, put_entry, put_pair, put_word};

// The linear entries of the qubits, by name.
pub fn put_linear(buf: &mut [u8], at: usize, has: &[u8], linear: &[i64]) -> usize
    requires { (length has.now ≤ length linear.now) × Room at (lines linear_text (entries 0 has.now linear.now)) }
    ensures { Printed (lines linear_text (entries 0 has.now linear.now)) buf.old at buf.new result }
{
    let mut next = at;
    for q in 0..has.len() {
        if has[q] == 1 {
            next = put_entry(buf, next, q as u64, linear[q]);
        }
    }
    next
}

// The pairs, in their order.
pub fn put_pairs(buf: &mut [u8], at: usize, keys: &[u32], weights: &[i64]) -> usize
    requires { Room at (lines pair_text (zip keys.now weights.now)) }
    ensures { Printed (lines pair_text (zip keys.now weights.now)) buf.old at buf.new result }
{
    let mut next = at;
    for (key, weight) in keys.iter().zip(weights) {
        next = put_pair(buf, next, *key, *weight);
    }
    next
}

// The bad states, in their order.
pub fn put_bads(buf: &mut [u8], at: usize, s: Sheet) -> usize
    requires { ReadableIn s × (s.counts ≡ counts_of s.circuit.now) × BadsNamed s.qubits.now (circuit_in s).bads × Room at (lines bad_text (bads_in s)) }
    ensures { Printed (lines bad_text (bads_in s.entry)) buf.old at buf.new result }
{
    let mut next = at;
    for k in 0..s.counts.bad_states {
        let gate = bad_gate(s.circuit, s.counts, k);
        let nid = bad_nid(s.circuit, s.counts, k);
        let q = s.qubits[gate.0 as usize];
        next = put_bad(buf, next, nid, s.fixed, q);
    }
    next
}

// The words of the m bits of input k: their qubits, or their fixed values.
fn put_words(buf: &mut [u8], at: usize, s: Sheet, k: usize, m: usize, values: bool) -> usize
    requires { ReadableIn s × (s.starts.now ≡ starts_of s.circuit.now 23) × (k < length (circuit_in s).inputs) × (m ≡ length (input_of_circuit (circuit_in s) k).bits) × Room at (commas (word values) (map (shown_at s.qubits.now s.fixed.now) (input_of_circuit (circuit_in s) k).bits)) }
    ensures { Printed (commas (word values) (map (shown_at s.entry.qubits.now s.entry.fixed.now) (input_of_circuit (circuit_in s.entry) k).bits)) buf.old at buf.new result }
{
    let mut next = at;
    for j in 0..m {
        let gate = input_gate(s.circuit, s.starts, k, j);
        let q = s.qubits[gate.0 as usize];
        next = put_word(buf, next, s.fixed, q, values, j + 1 < m);
    }
    next
}

// The line of input k, which has m bits.
fn put_input(buf: &mut [u8], at: usize, s: Sheet, k: usize, m: usize) -> usize
    requires { ReadableIn s × (s.starts.now ≡ starts_of s.circuit.now 23) × (k < length (circuit_in s).inputs) × (m ≡ length (input_of_circuit (circuit_in s) k).bits) × Room at (input_text (input_line s.qubits.now s.fixed.now (input_of_circuit (circuit_in s) k))) }
    ensures { Printed (input_text (input_line s.entry.qubits.now s.entry.fixed.now (input_of_circuit (circuit_in s.entry) k))) buf.old at buf.new result }
{
    let nid = input_nid(s.circuit, s.starts, k);
    let words = put_lead(buf, at, nid);
    let gap = put_words(buf, words, s, k, m, false);
    let values = put(buf, gap, b' ');
    let end = put_words(buf, values, s, k, m, true);
    put(buf, end, b'\n')
}

// The inputs, in their order.
pub fn put_inputs(buf: &mut [u8], at: usize, s: Sheet) -> usize
    requires { ReadableIn s × (s.starts.now ≡ starts_of s.circuit.now 23) × (s.counts.inputs ≡ length (circuit_in s).inputs) × Room at (lines input_text (inputs_in s)) }
    ensures { Printed (lines input_text (inputs_in s.entry)) buf.old at buf.new result }
{
    let mut next = at;
    for k in 0..s.counts.inputs {
        let bits = (s.starts[k + 1] - s.starts[k]) as usize;
        next = put_input(buf, next, s, k, bits);
    }
    next
}
