// The two run programs, but for the form: a circuit file and the values of its inputs as arguments, and the run's lines, or its refusal, to standard output.
// What cannot be read is said in a line on standard error, and then nothing is written to standard output.
#![tactic(auto)]

ghost use Rattle.std.specs.Prelude.{IfOk, IfSome, ◌≤◌, length};

use circuit::Refusal;
use decimals::read_value;
use program_input::read_full;
use program_output::{write_failure, write_refusal, write_run};
use run::fresh::run_fresh;
use std::env::{Env, FillError};
use std::fs::File;
use std::io::{Error, ErrorKind};
use std::{io, str};
use units::Form;

// Runs a circuit.
fn run_circuit(rt: &HostRuntime, circuit: &[u8], form: Form, inputs: &[i64]) {
    let mut values = [0u8; 3065];
    let r = run_fresh(circuit, form, inputs, &mut values);
    write_run(rt, r);
}

// Reads until the file ends or the buffer is full. A path is text to the library.
fn read_path(rt: &HostRuntime, path: &[u8], buf: &mut [u8]) -> io::Result<usize>
    ensures { IfOk result (λ n. n ≤ length buf.new) }
{
    let Ok(name) = str::from_utf8(path) else {
        return Err(Error::from(ErrorKind::InvalidFilename));
    };
    let mut file = File::open(rt, name)?;
    read_full(&mut file, buf)
}

// Reads a file. None where it cannot be read.
fn read_file(rt: &HostRuntime, path: &[u8], buf: &mut [u8]) -> Option<usize>
    ensures { IfSome result (λ n. n ≤ length buf.new) }
{
    match read_path(rt, path, buf) {
        Ok(n) => Some(n),
        Err(error) => {
            // where standard error cannot be written, nothing is left to say it on
            let _said = write_failure(rt, path, error).is_ok();
            None
        }
    }
}

// Says a line, or a part of one, on standard error.
fn say(rt: &HostRuntime, text: &[u8]) {
    let _said = rt.stderr().write_all(text).is_ok();
}

// Reads the file that the first argument names. None where it cannot be read.
fn read_circuit(rt: &HostRuntime, buf: &mut [u8]) -> Option<usize>
    ensures { IfSome result (λ n. n ≤ length buf.new) }
{
    let mut path = [0u8; 4096];
    match rt.arg(1, &mut path) {
        Ok(n) => read_file(rt, &path[..n], buf),
        Err(_) => {
            say(rt, b"circuit file: File name too long\n");
            None
        }
    }
}

// The value that argument i says. None where it says none.
fn read_argument(rt: &HostRuntime, i: usize) -> Option<i64> {
    let mut text = [0u8; 4096];
    let Ok(n) = rt.arg(i, &mut text) else {
        say(rt, b"value of over 4096 bytes\n");
        return None;
    };
    let value = read_value(&text[..n]);
    if value.is_none() {
        say(rt, b"value '");
        say(rt, &text[..n]);
        say(rt, b"': not a whole number of 64 bits\n");
    }
    value
}

// Reads the values, from the second argument on, and keeps as many as there is room for. Answers whether each argument says one.
fn read_values(rt: &HostRuntime, count: usize, inputs: &mut [i64]) -> bool {
    for i in 2..count {
        let Some(value) = read_argument(rt, i) else {
            return false;
        };
        if let Some(input) = inputs.get_mut(i - 2) {
            *input = value;
        }
    }
    true
}

// Runs the circuit of the first argument. "At most 102,656 bytes" is what the limits of check 2 come to; more is 2, place 0, before check 1, as the scope has it for the model programs.
fn run_file(rt: &HostRuntime, form: Form, inputs: &[i64]) {
    let mut circuit = [0u8; 102657];
    let Some(n) = read_circuit(rt, &mut circuit) else {
        return;
    };
    if n > 102656 {
        write_refusal(rt, Refusal::TooMany);
    } else {
        run_circuit(rt, &circuit[..n], form, inputs);
    }
}

// Whether the command line has an argument i.
fn has_argument(rt: &HostRuntime, i: usize) -> bool {
    let mut text = [0u8; 4096];
    !matches!(rt.arg(i, &mut text), Err(FillError::NotPresent))
}

// How many words the command line has, the program's name among them.
fn count_arguments(rt: &HostRuntime) -> usize {
    for i in 0..usize::MAX {
        if !has_argument(rt, i) {
            return i;
        }
    }
    usize::MAX
}

// The program, but for the form.
pub fn run_arguments(rt: &HostRuntime, form: Form) {
    let count = count_arguments(rt);
    if count < 2 {
        say(rt, b"usage: CIRCUIT [VALUE...]\n");
        return;
    }
    let mut inputs = [0i64; 65];
    if !read_values(rt, count, &mut inputs) {
        return;
    }
    // no circuit has more than 64 inputs, so 65 values are another count than any circuit's, as are more
    let n = (count - 2).min(65);
    run_file(rt, form, &inputs[..n]);
}
