// Giving the inputs: each bit of a value to its qubit; refusals 12 and 13.
#![tactic(auto)]

ghost use Rattle.std.specs.Prelude.{◌≡◌, ◌<◌, length};
ghost use Rattle.circuit.specs.Meaning.{circuit_of};
ghost use Rattle.run_values.specs.Need.{went};
ghost use Rattle.run_give.specs.Give.{low_bit, halved, give_bits, give_all};
ghost use Rattle.run_rules.specs.Layout.{named};
ghost use Rattle.run_give.specs.Asked.{Slots, set_bit, GiveAsked, InputsAsked};

use circuit_records::field_at;
use run_operands::part_of;
use run_rules::{NumberedCircuit, Part};
use run_values::Stop;
use units::Gate;

// Whether the lowest bit of v is set: not where v is negative, since the remainder has v's sign.
pub fn low_bit(v: i64) -> bool
    ensures { result ≡ low_bit v }
{
    v % 2 == 1
}

// v halved toward zero.
pub fn half_of(v: i64) -> i64
    ensures { result ≡ halved v }
{
    v / 2
}

// One bit is given to gate g's qubit.
fn set_bit(qubits: &[u16], values: &mut [u8], g: u16, b: bool) -> Result<(), Stop>
    requires { Slots qubits.now (length values.old) × (g < length qubits.now) }
    ensures { went result values.new ≡ set_bit qubits.now g b values.old }
{
    let entry = qubits[usize::from(g)];
    if entry == 0 {
        return Err(Stop::NoQubit(Gate(g)));
    }
    values[usize::from(entry - 1)] = u8::from(b);
    Ok(())
}

// The bits of input k, which have these records.
fn give_bits(
    on: &NumberedCircuit,
    values: &mut [u8],
    part: Part,
    k: u16,
    v: i64,
) -> Result<(), Stop>
    requires { GiveAsked on.now.circuit.now on.now.qubits.now (length values.old) part.from part.bits }
    ensures { went result values.new ≡ give_bits on.now.qubits.now k (named on.now.circuit.now part.from part.bits) v values.old }
{
    let mut left = v;
    for n in part.from..part.from + part.bits {
        let g = field_at(on.circuit, n, 1);
        set_bit(on.qubits, values, g, low_bit(left))?;
        left = half_of(left);
    }
    if left == 0 {
        Ok(())
    } else {
        Err(Stop::NotUsedUp(k))
    }
}

// All inputs, in order; `input_starts` says where they stand in the file.
pub fn give_all(
    on: &NumberedCircuit,
    input_starts: &[u16],
    values: &mut [u8],
    inputs: &[i64],
) -> Result<(), Stop>
    requires { InputsAsked on.now.circuit.now input_starts.now on.now.qubits.now (length values.old) inputs.now }
    ensures { went result values.new ≡ give_all on.now.qubits.now 0 (circuit_of on.now.circuit.now).inputs inputs.now values.old }
{
    for (i, &v) in inputs.iter().enumerate() {
        let k = i as u16;
        give_bits(on, values, part_of(input_starts, k), k, v)?;
    }
    Ok(())
}
