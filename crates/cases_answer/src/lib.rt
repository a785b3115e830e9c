// The answer of a case, into a lent buffer.
#![tactic(auto)]

ghost use Rattle.std.specs.Prelude.{◌≤◌, max, length};
ghost use Rattle.text.specs.Paste.{Printed};
ghost use Rattle.run_meaning.specs.Ran.{done};
ghost use Rattle.cases_answer.specs.Answer.{model_answer, run_says, run_answer, answer_of, whole_of};
ghost use Rattle.cases.specs.Values.{given_of};

use cases::heads::read_values;
use cases::lines::put_case;
use cases::values::put_values;
use cases::{Asked, Job, LIMIT};
use circuit::Refusal;
use report::{print_refusal, print_run};
use run::fresh::run_fresh;
use run_outcome::Run;
use text_dump::fresh::dump_fresh;
use units::Form;

// The text of a circuit's model, or its refusal's line. Answers how long it is.
pub fn put_model(circuit: &[u8], form: Form, buf: &mut [u8]) -> usize
    ensures printed { Printed (model_answer circuit.now form (length buf.old)) buf.old 0 buf.new result }
    ensures upper_bound { result ≤ max 32 (length buf.new) }
{
    match dump_fresh(circuit, form, buf) {
        Err(r) => print_refusal(r, buf),
        Ok(n) => n,
    }
}

// The lines of a run, and after a run that was made the values of the model's names.
fn put_run(r: Run, values: &[u8], buf: &mut [u8]) -> usize
    requires { length values.now ≤ 3065 }
    ensures printed { Printed (run_says (done r values.now)) buf.old 0 buf.new result }
    ensures upper_bound { result ≤ 7811 }
{
    let outcome = r.outcome;
    let end = print_run(r, buf);
    match outcome {
        Ok(_) => put_values(buf, end, values),
        Err(_) => end,
    }
}

// The lines of a run and the values found, or its refusal's line. Answers how long they are.
pub fn put_ran(circuit: &[u8], form: Form, inputs: &[i64], buf: &mut [u8]) -> usize
    ensures printed { Printed (run_answer circuit.now form inputs.now) buf.old 0 buf.new result }
    ensures upper_bound { result ≤ 7811 }
{
    // no value: those of the model's names become values in a run, and later ones stay
    let mut values = [3u8; 3065];
    let r = run_fresh(circuit, form, inputs, &mut values);
    put_run(r, &values, buf)
}

// A run with the first values of any bytes.
fn put_given(circuit: &[u8], form: Form, given: &[u8], count: usize, buf: &mut [u8]) -> usize
    ensures printed { Printed (run_answer circuit.now form (given_of given.now count)) buf.old 0 buf.new result }
    ensures upper_bound { result ≤ 7811 }
{
    let mut inputs = [0i64; 65];
    let n = count.min(65);
    read_values(given, n, &mut inputs);
    put_ran(circuit, form, &inputs[..n], buf)
}

// The answer of a case, from the bytes behind its head: the circuit is the first, and the values come next. Answers how long it is.
pub fn put_answer(asked: Asked, rest: &[u8], buf: &mut [u8]) -> usize
    ensures printed { Printed (answer_of asked rest.now (length buf.old)) buf.old 0 buf.new result }
    ensures upper_bound { result ≤ max 7811 (length buf.new) }
{
    let length = asked.length as usize;
    if LIMIT < length {
        return print_refusal(Refusal::TooMany, buf);
    }
    let (circuit, given) = rest.split_at(length.min(rest.len()));
    match asked.job {
        Job::Model => put_model(circuit, asked.form, buf),
        Job::Run => put_given(circuit, asked.form, given, asked.values as usize, buf),
    }
}

// The line `case K`, and the answer behind it. Answers how long both are.
pub fn put_whole(number: u64, asked: Asked, rest: &[u8], buf: &mut [u8]) -> usize
    ensures printed { Printed (whole_of number asked rest.now (length buf.old)) buf.old 0 buf.new result }
    ensures upper_bound { result ≤ max 7837 (length buf.new) }
{
    let line = put_case(number, buf);
    let from = line.min(buf.len());
    let n = put_answer(asked, rest, &mut buf[from..]);
    line + n
}
