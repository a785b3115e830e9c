// Standard input. What is read no contract can say.
ghost use Rattle.std.specs.Prelude.{◌≡◌, true, ◌+◌, ◌*◌, ◌≤◌, length, IfOk};
ghost use Rattle.cases_answer.specs.Answer.{limit};

use cases::{Asked, LIMIT};
use program_input::read_full;
use std::io;

// Reads n bytes, or as many as there are or as the buffer has room for. Answers how many.
fn read_some(rt: &HostRuntime, buf: &mut [u8], n: usize) -> io::Result<usize>
    ensures { IfOk result (λ got. (got ≤ n) × (got ≤ length buf.new)) }
{
    let mut stdin = rt.stdin();
    let room = n.min(buf.len());
    read_full(&mut stdin, &mut buf[..room])
}

// Passes over n bytes. Answers whether there were as many. Each read passes as many as it gives, so a `for` would have nothing to go over.
fn skip(rt: &HostRuntime, buf: &mut [u8], n: usize) -> io::Result<bool> {
    let mut left = n;
    while 0 < left {
        let got = read_some(rt, buf, left)?;
        if got == 0 {
            return Ok(false);
        }
        left -= got;
    }
    Ok(true)
}

// Reads the circuit and the values of a case, or passes over them where the circuit is too long. Answers whether there were as many bytes: then they stand within
// the buffer, but for those passed over.
pub fn read_case(rt: &HostRuntime, asked: Asked, buf: &mut [u8]) -> io::Result<bool>
    ensures { IfOk result (λ whole. whole ≡ true → asked.length ≤ limit → asked.length + 8 * asked.values ≤ length buf.new) }
{
    let length = asked.length as usize;
    let n = length + 8 * asked.values as usize;
    if LIMIT < length {
        return skip(rt, buf, n);
    }
    let got = read_some(rt, buf, n)?;
    Ok(got == n)
}
