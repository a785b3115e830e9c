// Times the checks 1 to 7: checks the file on standard input a thousand times, and writes in how many of them it was accepted. Each time the tables are said to
// be longer by one, so that no two calls are the same.
#![tactic(auto)]

ghost use Rattle.std.specs.Prelude.{◌≤◌};

use circuit_check::check;
use program_input::read_full;
use std::io;

// 1 where the file is accepted.
fn accepted(c: &[u8], gates: usize) -> usize
    ensures { result ≤ 1 }
{
    usize::from(check(c, gates, 3065, 10192).is_ok())
}

fn repeat(c: &[u8]) -> usize {
    let mut count = 0;
    for gates in 1000..2000 {
        count += accepted(c, gates);
    }
    count
}

fn main(rt: HostRuntime) -> io::Result<()> {
    let mut input = [0u8; 102656];
    let mut stdin = rt.stdin();
    let n = read_full(&mut stdin, &mut input)?;
    let count = repeat(&input[..n]);
    println!(rt; "{count}")
}
