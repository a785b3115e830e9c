// The value of a rule once its operands' values are found.
ghost use Rattle.std.specs.Prelude.{◌≡◌, map, ◌+◌, ◌*◌, ◌≤◌, ◌<◌, length};
ghost use Rattle.run_values.specs.Need.{is_true, bit_of, number, went};
ghost use Rattle.run_rules.specs.Layout.{named};
ghost use Rattle.run_rules.specs.Code.{name_in};
ghost use Rattle.run_values.specs.Code.{divided_by, value_in, settled, PartsAsked};

use crate::Stop;
use circuit_records::field_at;
use run_operands::act_of;
use run_rules::apply::value_by;
use run_rules::find::qubit_of;
use run_rules::{Act, NumberedCircuit, Operands, Part, Rule};
use units::Qubit;

// Whether the value of q is 1.
pub fn truth(values: &[u8], q: Qubit) -> bool
    ensures { result ≡ is_true values.now q.0 }
{
    values.get(usize::from(q.0)) == Some(&1)
}

// The number that the bits of a list make, lowest first.
pub fn list_value(on: &NumberedCircuit, values: &[u8], list: Part) -> u64
    requires { (16 * (list.from + list.bits) ≤ length on.now.circuit.now) × (list.bits ≤ 64) }
    ensures { result ≡ number values.now (map (name_in on.now.qubits.now) (named on.now.circuit.now list.from list.bits)) }
{
    let mut sum: u64 = 0;
    for i in (list.from..list.from + list.bits).rev() {
        let q = qubit_of(on.qubits, field_at(on.circuit, i, 1));
        sum = u64::from(truth(values, q)) + 2 * sum;
    }
    sum
}

// Bit number `index` of n; there are 64.
pub fn bit_at(n: u64, index: u8) -> bool
    ensures { result ≡ bit_of index n }
{
    index < 64 && (n >> index) % 2 == 1
}

// A bit of the remainder or the quotient, for the qubit q.
fn divide(rest: bool, index: u8, n: u64, d: u64, q: Qubit) -> Result<bool, Stop>
    ensures { result ≡ divided_by rest index n d q }
{
    if d == 0 {
        return Err(Stop::ZeroDivisor(q));
    }
    Ok(bit_at(if rest { n % d } else { n / d }, index))
}

// The value of q by its rule, which has these operands.
#[tactic(auto, unfolding(crate::specs::Code::value_in))]
fn value_in(
    on: &NumberedCircuit,
    rule: Rule,
    o: Operands,
    values: &[u8],
    q: Qubit,
) -> Result<bool, Stop>
    requires { PartsAsked (length on.now.circuit.now) o }
    ensures { result ≡ value_in rule o on.now.circuit.now on.now.qubits.now values.now q }
{
    match act_of(rule) {
        Act::Plain => Ok(value_by(
            rule,
            truth(values, o.few.x1),
            truth(values, o.few.x2),
            truth(values, o.few.x3),
        )),
        Act::Quotient { index, .. } => {
            let n = list_value(on, values, o.first);
            let d = list_value(on, values, o.second);
            divide(false, index, n, d, q)
        }
        Act::Remainder { index, .. } => {
            let n = list_value(on, values, o.first);
            let d = list_value(on, values, o.second);
            divide(true, index, n, d, q)
        }
        Act::Nothing => Err(Stop::NotGiven(q)),
    }
}

// The value of q by its rule is remembered.
pub fn settle(
    on: &NumberedCircuit,
    rule: Rule,
    o: Operands,
    values: &mut [u8],
    q: Qubit,
) -> Result<(), Stop>
    requires { PartsAsked (length on.now.circuit.now) o × (q.0 < length values.old) }
    ensures { went result values.new ≡ settled (value_in rule o on.now.circuit.now on.now.qubits.now values.old q) q.0 values.old }
{
    let value = value_in(on, rule, o, values, q)?;
    values[usize::from(q.0)] = u8::from(value);
    Ok(())
}
