// Printing the model text from finished tables into a lent buffer: the crate `text_entries` has the lines, `section` the parts of the text.
// Each function prints a text that a definition of the crate `text` gives, from a place on, and answers the place after it.
#![tactic(auto)]

ghost use mathlib.Core.List.{zip};
ghost use Rattle.std.specs.Prelude.{◌≡◌, ◌≤◌, length, take};
ghost use Rattle.circuit.specs.Check.{counts_of};
ghost use Rattle.circuit.specs.Starts.{starts_of};
ghost use Rattle.text_print.specs.Lent.{circuit_in, inputs_in, bads_in, ReadableIn, PrintableIn, text_of};
ghost use Rattle.text.specs.Paste.{Printed, Room};
ghost use Rattle.text.specs.Text.{entries, circuit_text, entries_text};
ghost use Rattle.text.specs.Ready.{BadsNamed};

use finished::Sheet;
use section::{put_bads, put_inputs, put_linear, put_pairs};
use text::write::put;
use text_entries::put_entry;

pub mod finished;
pub mod section;

// The inputs and the bad states, with a blank line after each.
fn put_circuit(buf: &mut [u8], at: usize, s: Sheet) -> usize
    requires { ReadableIn s × (s.counts ≡ counts_of s.circuit.now) × (s.starts.now ≡ starts_of s.circuit.now 23) × BadsNamed s.qubits.now (circuit_in s).bads × Room at (circuit_text (inputs_in s) (bads_in s)) }
    ensures { Printed (circuit_text (inputs_in s.entry) (bads_in s.entry)) buf.old at buf.new result }
{
    let blank = put_inputs(buf, at, s);
    let next = put(buf, blank, b'\n');
    let end = put_bads(buf, next, s);
    put(buf, end, b'\n')
}

// The linear entries of the names, a blank line, and the pairs.
fn put_entries(buf: &mut [u8], at: usize, s: Sheet) -> usize
    requires { ((s.names ≤ length s.has.now) × (s.names ≤ length s.linear.now) × (s.pairs ≤ length s.keys.now) × (s.pairs ≤ length s.weights.now)) × Room at (entries_text (entries 0 (take s.names s.has.now) (take s.names s.linear.now)) (take s.pairs (zip s.keys.now s.weights.now))) }
    ensures { Printed (entries_text (entries 0 (take s.entry.names s.entry.has.now) (take s.entry.names s.entry.linear.now)) (take s.entry.pairs (zip s.entry.keys.now s.entry.weights.now))) buf.old at buf.new result }
{
    let blank = put_linear(buf, at, &s.has[..s.names], &s.linear[..s.names]);
    let next = put(buf, blank, b'\n');
    put_pairs(buf, next, &s.keys[..s.pairs], &s.weights[..s.pairs])
}

// The text of a finished model. Into an empty part it tells the length.
pub fn print_model(s: Sheet, buf: &mut [u8]) -> usize
    requires { PrintableIn s }
    ensures { Printed (text_of s.entry) buf.old 0 buf.new result }
{
    let blank = put_entry(buf, 0, s.variables, s.offset);
    let next = put(buf, blank, b'\n');
    let last = put_circuit(buf, next, s);
    put_entries(buf, last, s)
}
