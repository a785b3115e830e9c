// The head of a case, and the values behind its circuit.
ghost use Rattle.std.specs.Prelude.{◌≡◌, ◌*◌, ◌≤◌, length};
ghost use Rattle.cases.specs.Head.{form_of, head_of};
ghost use Rattle.cases.specs.Values.{values_of, values_into};

use crate::numbers::value_at;
use crate::{Asked, Job};
use circuit_records::{half_at, word_at};
use units::Form;

// By its byte. `Form` is another crate's, so no `From` for it can stand here.
fn form_of(b: u8) -> Form
    ensures { result ≡ form_of b }
{
    match b {
        1 => Form::Ising,
        _ => Form::Binary,
    }
}

// The head that stands at the front of any bytes: form, job, count of values, length of the circuit. None where it is malformed.
pub fn head_of(s: &[u8]) -> Option<Asked>
    ensures { result ≡ head_of s.now }
{
    if s.len() < 8 {
        return None;
    }
    let form = s[0];
    let job = s[1];
    if 1 < form {
        return None;
    }
    if 1 < job {
        return None;
    }
    Some(Asked {
        form: form_of(form),
        job: Job::from(job),
        values: half_at(s, 2),
        length: word_at(s, 4),
    })
}

// The first values of a part, as many as the table has entries.
fn fill_values(s: &[u8], inputs: &mut [i64])
    requires { 8 * length inputs.old ≤ length s.now }
    ensures { inputs.new ≡ values_of s.now (length inputs.old) }
{
    for (i, input) in inputs.iter_mut().enumerate() {
        *input = value_at(s, 8 * i);
    }
}

// The first n values of any bytes, into any table: as many as the bytes and the table have.
pub fn read_values(s: &[u8], n: usize, inputs: &mut [i64])
    ensures { inputs.new ≡ values_into s.now n inputs.old }
{
    let here = (s.len() / 8).min(inputs.len());
    let count = n.min(here);
    fill_values(s, &mut inputs[..count]);
}
