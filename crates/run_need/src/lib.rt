// The value of a qubit that is needed: the given one or one found before, else the fixed one, else its rule's, followed through its operands.
#![tactic(auto)]

ghost use Rattle.std.specs.Prelude.{◌≡◌};
ghost use Rattle.run_values.specs.Need.{went, need_of};
ghost use Rattle.run_values.specs.Asking.{net_in, follow_of, AskedIn};
ghost use Rattle.run_values.specs.Code.{fixed_bit};

use run_operands::{count_of, operand_at, operands_of};
use run_rules::NumberedCircuit;
use run_rules::find::rule_at;
use run_values::Stop;
use run_values::settle::settle;
use units::Qubit;

// The value that an entry of the table of fixed values stands for.
fn fixed_byte(f: u8) -> u8
    ensures { result ≡ fixed_bit f }
{
    u8::from(f == 2)
}

// The value of q is found, and stands in the table afterwards.
#[cycle(follow_need)]
pub fn need(on: &NumberedCircuit, values: &mut [u8], q: Qubit) -> Result<(), Stop>
    requires { AskedIn on.now values.old q.0 }
    ensures { went result values.new ≡ need_of (net_in on.now) q.0 values.old }
{
    let at = usize::from(q.0);
    let v = values[at];
    if v == 2 {
        let f = on.fixed[at];
        if f == 0 {
            return follow(on, values, q);
        }
        values[at] = fixed_byte(f);
    }
    Ok(())
}

// The value of q by its rule.
#[cycle(follow_need)]
pub fn follow(on: &NumberedCircuit, values: &mut [u8], q: Qubit) -> Result<(), Stop>
    requires { AskedIn on.now values.old q.0 }
    ensures { went result values.new ≡ follow_of (net_in on.now) q.0 values.old }
{
    let rule = rule_at(on, q);
    let o = operands_of(rule, on.starts);
    for i in 0..count_of(o) {
        need(on, values, operand_at(on, o, i))?;
    }
    settle(on, rule, o, values, q)
}
