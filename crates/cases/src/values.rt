// The line of a run's values.
ghost use Rattle.std.specs.Prelude.{◌≡◌, ◌+◌, ◌*◌, ◌^◌, ◌≤◌, ◌<◌, leb, length};
ghost use Rattle.std.specs.List.{take_while};
ghost use Rattle.text.specs.Paste.{Printed};
ghost use Rattle.text.specs.Text.{lines};
ghost use Rattle.cases.specs.Lines.{value_text, values_line, named};

use text::write::{put, put_bytes};

// How many values stand before the first byte that is none.
fn names_in(values: &[u8]) -> usize
    ensures { result ≡ length (take_while (λ v. leb v 2) values.now) }
{
    values.iter().take_while(|value| **value <= 2).count()
}

// A value and the space before it.
fn put_value(buf: &mut [u8], at: usize, value: u8) -> usize
    requires { at + 2 < 2 ^ 64 }
    ensures { Printed (value_text value) buf.old at buf.new result }
{
    let next = put(buf, at, b' ');
    put(buf, next, 48 + value % 10)
}

// Values, one after another.
fn put_each(buf: &mut [u8], at: usize, values: &[u8]) -> usize
    requires { at + 2 * length values.now < 2 ^ 64 }
    ensures printed { Printed (lines value_text values.now) buf.old at buf.new result }
    ensures value { result ≡ at + 2 * length values.now }
{
    let mut next = at;
    for value in values {
        next = put_value(buf, next, *value);
    }
    next
}

// The line of the values of the model's names.
pub fn put_values(buf: &mut [u8], at: usize, values: &[u8]) -> usize
    requires { at + 2 * length values.now + 7 < 2 ^ 64 }
    ensures printed { Printed (values_line (named values.now)) buf.old at buf.new result }
    ensures upper_bound { result ≤ at + 2 * length values.now + 7 }
{
    let n = names_in(values);
    let first = put_bytes(buf, at, b"values");
    let end = put_each(buf, first, &values[..n]);
    put(buf, end, b'\n')
}
