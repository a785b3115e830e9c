// Reading a value as a user writes it, as Rust's `i64::from_str` does: an optional sign, then digits. What is read is a definition of specs/.
#![tactic(auto)]

ghost use Rattle.std.specs.Prelude.{◌≡◌, ◌≤◌};
ghost use Rattle.decimals.specs.Value.{digits_up_to, positive_of, negative_of, value_of};

// One or more digits that say a number up to `most`. A digit is taken in only where the number stays within it, so no sum wraps.
fn read_digits(s: &[u8], most: u64) -> Option<u64>
    requires { 9 ≤ most }
    ensures { result ≡ digits_up_to most s.now }
{
    if s.is_empty() {
        return None;
    }
    let mut n = 0;
    for b in s {
        let d = u64::from(b.checked_sub(b'0')?);
        if d > 9 {
            return None;
        }
        if n > (most - d) / 10 {
            return None;
        }
        n = n * 10 + d;
    }
    Some(n)
}

// What follows no sign, or `+`.
fn read_positive(s: &[u8]) -> Option<i64>
    ensures { result ≡ positive_of s.now }
{
    let n = read_digits(s, 9223372036854775807)?;
    Some(n as i64)
}

// What follows `-`. 2^63 is no i64, but 0 less 2^63 is one.
fn read_negative(s: &[u8]) -> Option<i64>
    ensures { result ≡ negative_of s.now }
{
    let n = read_digits(s, 9223372036854775808)?;
    0i64.checked_sub_unsigned(n)
}

// A value: any bytes.
pub fn read_value(s: &[u8]) -> Option<i64>
    ensures { result ≡ value_of s.now }
{
    let (&first, rest) = s.split_first()?;
    if first == b'-' {
        read_negative(rest)
    } else if first == b'+' {
        read_positive(rest)
    } else {
        read_positive(s)
    }
}
