// What the programs write to standard output. Where it cannot be written, a line on standard error says why.
#![tactic(auto)]

use circuit::Refusal;
use report::{print_refusal, print_run};
use run_outcome::Run;
use std::io;
use std::io::Error;

// What the system says of an error, without its number.
fn said_of(text: &str) -> &str {
    match text.split_once(" (os error ") {
        Some((said, _)) => said,
        None => text,
    }
}

// A line on standard error: what failed, as the caller names it, a colon and what the system says of it.
pub fn write_failure(rt: &HostRuntime, what: &[u8], error: Error) -> io::Result<()> {
    rt.stderr().write_all(what)?;
    let text = format!(in rt.alloc(); "{error}")?;
    let said = said_of(text.as_str());
    eprintln!(rt; ": {said}")
}

// A text. Answers whether it was written.
pub fn write_front(rt: &HostRuntime, text: &[u8]) -> bool {
    match rt.write_all(text) {
        Ok(()) => true,
        Err(error) => {
            // where standard error cannot be written either, nothing is left to say it on
            let _said = write_failure(rt, b"standard output", error).is_ok();
            false
        }
    }
}

// The line of a refusal.
pub fn write_refusal(rt: &HostRuntime, r: Refusal) {
    let mut text = [0u8; 32];
    let n = print_refusal(r, &mut text);
    write_front(rt, &text[..n]);
}

// The lines of a run.
pub fn write_run(rt: &HostRuntime, r: Run) {
    let mut text = [0u8; 1674];
    let n = print_run(r, &mut text);
    write_front(rt, &text[..n]);
}
