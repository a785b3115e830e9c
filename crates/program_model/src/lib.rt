// The two model programs, but for the form: a circuit from standard input, and its model's text, or its refusal, to standard output.
#![tactic(auto)]

use circuit::Refusal;
use program_input::read_full;
use program_output::{write_front, write_refusal};
use std::io;
use text_dump::fresh::dump_fresh;
use units::Form;

// The model of a circuit, by way of a buffer.
fn print_model(rt: &HostRuntime, circuit: &[u8], form: Form, text: &mut [u8]) {
    match dump_fresh(circuit, form, text) {
        Err(r) => write_refusal(rt, r),
        Ok(n) => {
            write_front(rt, &text[..n]);
        }
    }
}

// Reads the circuit. "At most 4,096 bytes; more is 2, place 0, before check 1."
pub fn print_from_input(rt: &HostRuntime, form: Form) -> io::Result<()> {
    let mut input = [0u8; 4097];
    let mut stdin = rt.stdin();
    let n = read_full(&mut stdin, &mut input)?;
    if n > 4096 {
        write_refusal(rt, Refusal::TooMany);
        return Ok(());
    }
    let mut text = [0u8; 65536];
    print_model(rt, &input[..n], form, &mut text);
    Ok(())
}
