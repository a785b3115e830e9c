// The line that begins an answer, into a lent buffer: a byte past its end is counted and not stored.
ghost use Rattle.std.specs.Prelude.{◌≤◌};
ghost use Rattle.text.specs.Paste.{Printed};
ghost use Rattle.cases.specs.Lines.{case_text};

use text::write::{put, put_bytes, put_decimal};

// The line that begins an answer.
pub fn put_case(number: u64, buf: &mut [u8]) -> usize
    ensures printed { Printed (case_text number) buf.old 0 buf.new result }
    ensures upper_bound { result ≤ 26 }
{
    let next = put_bytes(buf, 0, b"case ");
    let end = put_decimal(buf, next, number);
    put(buf, end, b'\n')
}
