// What the programs read. No contract can say which bytes a reader gives, but how many it can.
#![tactic(auto)]

ghost use Rattle.std.specs.Prelude.{IfOk, ◌≤◌, length};

use std::io;
use std::io::Read;

// Reads until the buffer is full or the input ends. Answers how many bytes stand at the buffer's start. The library's `read_exact` fails where the input ends
// first, its `read_to_end` takes a Vec, and a `for` would have nothing to go over: each read gives as many bytes as it likes.
pub fn read_full<R: Read>(from: &mut R, buf: &mut [u8]) -> io::Result<usize>
    ensures { IfOk result (λ n. n ≤ length buf.new) }
{
    let mut done = 0;
    while done < buf.len() {
        let n = from.read(&mut buf[done..])?;
        if n == 0 {
            return Ok(done);
        }
        done += n;
    }
    Ok(done)
}
