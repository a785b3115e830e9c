// Answers a stream of cases from standard input, for replay and comparison. A case is its form (0 binary, 1 Ising), its job (0 model, 1 run), the count of
// values (2 bytes), the length of the circuit (4 bytes), the circuit, and 8 bytes for each value, all little endian. For each it writes `case K`, from 0, and
// then what the model or run program writes, with no limit of 4,096 bytes; after a run also `values` and the value bytes of the model's names. A circuit longer
// than any that passes check 2 is read past and answered `refused 2 0`. A stream that ends inside a case, or a form or a job over 1, ends with the line `malformed`.
#![tactic(auto)]

mod reading;

ghost use Rattle.std.specs.Prelude.{◌≤◌, length};

use cases::Asked;
use cases::heads::head_of;
use cases_answer::put_whole;
use program_input::read_full;
use program_output::write_front;
use reading::read_case;
use std::io;

// The line that ends a stream out of form.
fn write_malformed(rt: &HostRuntime) {
    write_front(rt, b"malformed\n");
}

// Reads and answers what follows a head. Answers whether the stream goes on: not where the answer cannot be written.
fn answer_case(
    rt: &HostRuntime,
    number: u64,
    asked: Asked,
    input: &mut [u8],
    out: &mut [u8],
) -> io::Result<bool>
    requires { 7837 ≤ length out.old }
{
    if read_case(rt, asked, input)? {
        let n = put_whole(number, asked, input, out);
        return Ok(write_front(rt, &out[..n]));
    }
    write_malformed(rt);
    Ok(false)
}

// One case more, or the end: a stream may end before a head.
fn answer_next(rt: &HostRuntime, number: u64, input: &mut [u8], out: &mut [u8]) -> io::Result<bool>
    requires { 7837 ≤ length out.old }
{
    let mut bytes = [0u8; 8];
    let mut stdin = rt.stdin();
    let n = read_full(&mut stdin, &mut bytes)?;
    if n == 0 {
        return Ok(false);
    }
    let Some(asked) = head_of(&bytes[..n]) else {
        write_malformed(rt);
        return Ok(false);
    };
    answer_case(rt, number, asked, input, out)
}

// All cases of the stream. Nothing says that a stream ends, so the cases are counted.
fn answer_all(rt: &HostRuntime, input: &mut [u8], out: &mut [u8]) -> io::Result<()>
    requires { 7837 ≤ length out.old }
{
    for number in 0..u64::MAX {
        if !answer_next(rt, number, input, out)? {
            break;
        }
    }
    Ok(())
}

// The input has room for the longest case that is answered, 102,656 bytes of circuit and 65,535 values; the output for the longest answer: a model's text has at
// most 3,065 linear entries of 16 bytes, 10,192 pairs of 21, 1,000 input bits of 7 in 64 lines with 23 bytes more, 64 bad states of 28 and a first line of 17,
// about 273,000 bytes; a run's lines have less than 8,000.
fn main(rt: HostRuntime) -> io::Result<()> {
    let mut input = [0u8; 626936];
    let mut output = [0u8; 300000];
    answer_all(&rt, &mut input, &mut output)
}
