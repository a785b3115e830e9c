// The text of what a build left, into a lent buffer; or the build's refusal, or 17.
#![tactic(auto)]

ghost use mathlib.Core.List.{[]};
ghost use Rattle.std.specs.Prelude.{◌≡◌, length};
ghost use Rattle.qubot_left.specs.Built.{lent};
ghost use Rattle.text_print.specs.Lent.{PrintableIn, text_of};
ghost use Rattle.text_left.specs.Left.{Left, LeftBy};
ghost use Rattle.text_left.specs.Dumped.{text_in, written_to, printed_by};

use circuit::Refusal;
use circuit_lists::input_starts;
use circuit_sizes::counts_of;
use qubot_left::Finished;
use text_print::finished::Sheet;
use text_print::print_model;

// How long the text is: printed into nothing.
fn text_length(s: Sheet) -> usize
    requires { PrintableIn s }
    ensures { result ≡ length (text_of s.entry) }
{
    let mut none = [0u8; 1];
    print_model(s, &mut none[..0])
}

// Prints what a build left, where the buffer has room for the text. Answers how long the text is.
fn print_left(
    circuit: &[u8],
    f: Finished,
    qubits: &[u16],
    linear: &[i64],
    has: &[u8],
    fixed: &[u8],
    keys: &[u32],
    weights: &[i64],
    buf: &mut [u8],
) -> Result<usize, Refusal>
    requires { Left circuit.now (lent qubits.now [] [] linear.now has.now [] fixed.now keys.now weights.now) f }
    ensures { (buf.new, result) ≡ written_to (text_in circuit.now (lent qubits.now [] [] linear.now has.now [] fixed.now keys.now weights.now) f) buf.old }
{
    let counts = counts_of(circuit);
    let starts = input_starts(circuit);
    let names = 3 * counts.gates + counts.bad_states + 1;
    let sheet = Sheet {
        circuit,
        counts,
        starts: &starts,
        qubits,
        names,
        fixed,
        has,
        linear,
        pairs: f.pairs,
        keys,
        weights,
        offset: f.offset,
        variables: f.variables as u64,
    };
    let length = text_length(sheet);
    if buf.len() < length {
        return Err(Refusal::ShortText);
    }
    print_model(sheet, buf);
    Ok(length)
}

// Prints what a build left, or gives its refusal.
pub fn print_built(
    circuit: &[u8],
    built: Result<Finished, Refusal>,
    qubits: &[u16],
    linear: &[i64],
    has: &[u8],
    fixed: &[u8],
    keys: &[u32],
    weights: &[i64],
    buf: &mut [u8],
) -> Result<usize, Refusal>
    requires { LeftBy circuit.now (lent qubits.now [] [] linear.now has.now [] fixed.now keys.now weights.now) built }
    ensures { (buf.new, result) ≡ printed_by circuit.now buf.old (lent qubits.now [] [] linear.now has.now [] fixed.now keys.now weights.now) built }
{
    print_left(
        circuit, built?, qubits, linear, has, fixed, keys, weights, buf,
    )
}
