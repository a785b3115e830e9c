// Runs the cases of standard input through the checks 1 to 7, and writes each answer: `name: refused N P`, or `name: accepted G B`.
// A case is a line: a name and a colon; the lengths of the three tables; how many bytes stand past the records; then groups of nine
// numbers, each a stretch of records: kind, byte 1, a, b, c, nid, how many, after how many records a rises by one (0: never), and by how much b rises each time.
#![tactic(auto)]

mod build;
mod decimal;

use build::{Group, fill};
use circuit_check::check;
use decimal::{find, is_digit, number, step};
use program_input::read_full;
use program_output::write_refusal;
use std::io;

// A group, and the place after it.
#[derive(Clone, Copy)]
struct Read {
    group: Group,
    next: usize,
}

fn group_at(s: &[u8], at: usize) -> Read {
    let kind = number(s, at);
    let one = number(s, kind.next);
    let a = number(s, one.next);
    let b = number(s, a.next);
    let c = number(s, b.next);
    let nid = number(s, c.next);
    let count = number(s, nid.next);
    let every = number(s, count.next);
    let rise = number(s, every.next);
    Read {
        group: Group {
            kind: kind.value,
            one: one.value,
            a: a.value,
            b: b.value,
            c: c.value,
            nid: nid.value,
            count: count.value,
            every: every.value,
            rise: rise.value,
        },
        next: rise.next,
    }
}

// Makes the records of a case, in at most 16 groups. Returns how many.
fn make(s: &[u8], at: usize, bytes: &mut [u8]) -> usize {
    let mut records: usize = 0;
    let mut next = at;
    for _ in 0..16 {
        if !is_digit(s, next) {
            break;
        }
        let read = group_at(s, next);
        records = fill(bytes, records, read.group);
        next = read.next;
    }
    records
}

fn answer(rt: &HostRuntime, c: &[u8], gates: usize, qubits: usize, pairs: usize) -> io::Result<()> {
    print!(rt; " ")?;
    match check(c, gates, qubits, pairs) {
        Err(r) => {
            write_refusal(rt, r);
            Ok(())
        }
        Ok(n) => {
            let gates = n.gates;
            let bads = n.bad_states;
            println!(rt; "accepted {gates} {bads}")
        }
    }
}

// Runs the case that starts at `at`. Returns the start of the next line.
fn run(rt: &HostRuntime, s: &[u8], at: usize, bytes: &mut [u8]) -> io::Result<usize> {
    let colon = find(s, at, b':');
    if let Some(name) = s.get(at..=colon) {
        rt.write_all(name)?;
    }
    let gates = number(s, step(step(colon)));
    let qubits = number(s, gates.next);
    let pairs = number(s, qubits.next);
    let extra = number(s, pairs.next);
    let records = make(s, extra.next, bytes);
    let len = 16 * (records % 8192) + extra.value % 16;
    if let Some(c) = bytes.get(..len) {
        answer(rt, c, gates.value, qubits.value, pairs.value)?;
    }
    Ok(step(find(s, at, b'\n')))
}

// Runs at most 200 cases.
fn run_all(rt: &HostRuntime, s: &[u8], bytes: &mut [u8]) -> io::Result<()> {
    let mut at: usize = 0;
    for _ in 0..200 {
        if at >= s.len() {
            break;
        }
        at = run(rt, s, at, bytes)?;
    }
    Ok(())
}

fn main(rt: HostRuntime) -> io::Result<()> {
    let mut bytes = [0u8; 131072];
    let mut input = [0u8; 32768];
    let mut stdin = rt.stdin();
    let n = read_full(&mut stdin, &mut input)?;
    run_all(&rt, &input[..n], &mut bytes)
}
