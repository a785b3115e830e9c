// The writer, and numbers. A byte past the buffer's end is counted and not stored, so printing into an empty part tells the length.
ghost use Rattle.std.specs.Prelude.{[], ◌∷◌};
ghost use Rattle.text.specs.Paste.{Printed, Room};
ghost use Rattle.text.specs.Decimal.{decimal};
ghost use Rattle.text.specs.Signed.{sign, signed_text};
ghost use Rattle.text.specs.Halves.{half_text, halves_text};
ghost use Rattle.text.specs.Text.{lead_text};

// One byte.
pub fn put(buf: &mut [u8], at: usize, b: u8) -> usize
    requires { Room at (b ∷ []) }
    ensures { Printed (b ∷ []) buf.old at buf.new result }
{
    if at < buf.len() {
        buf[at] = b;
    }
    at + 1
}

// The bytes of a word.
pub fn put_bytes(buf: &mut [u8], at: usize, s: &[u8]) -> usize
    requires { Room at s.now }
    ensures { Printed s.now buf.old at buf.new result }
{
    let mut next = at;
    for b in s {
        next = put(buf, next, *b);
    }
    next
}

// A number in decimal.
pub fn put_decimal(buf: &mut [u8], at: usize, n: u64) -> usize
    requires { Room at (decimal n) }
    ensures { Printed (decimal n) buf.old at buf.new result }
{
    if n < 10 {
        put(buf, at, 48 + n as u8)
    } else {
        let next = put_decimal(buf, at, n / 10);
        put(buf, next, 48 + (n % 10) as u8)
    }
}

// A number that leads a line, and a space.
pub fn put_lead(buf: &mut [u8], at: usize, n: u64) -> usize
    requires { Room at (lead_text n) }
    ensures { Printed (lead_text n) buf.old at buf.new result }
{
    let next = put_decimal(buf, at, n);
    put(buf, next, b' ')
}

// n halves.
fn put_half(buf: &mut [u8], at: usize, n: u64) -> usize
    requires { Room at (half_text n) }
    ensures { Printed (half_text n) buf.old at buf.new result }
{
    let next = put_decimal(buf, at, n / 2);
    if n % 2 == 1 {
        let last = put(buf, next, b'.');
        put(buf, last, b'5')
    } else {
        next
    }
}

// The sign of a number below 0.
fn put_sign(buf: &mut [u8], at: usize, z: i64) -> usize
    requires { Room at (sign z) }
    ensures { Printed (sign z) buf.old at buf.new result }
{
    if z < 0 { put(buf, at, b'-') } else { at }
}

// A signed count of halves.
pub fn put_halves(buf: &mut [u8], at: usize, h: i64) -> usize
    requires { Room at (halves_text h) }
    ensures { Printed (halves_text h) buf.old at buf.new result }
{
    let next = put_sign(buf, at, h);
    put_half(buf, next, h.unsigned_abs())
}

// A signed number in decimal.
pub fn put_signed(buf: &mut [u8], at: usize, z: i64) -> usize
    requires { Room at (signed_text z) }
    ensures { Printed (signed_text z) buf.old at buf.new result }
{
    let next = put_sign(buf, at, z);
    put_decimal(buf, next, z.unsigned_abs())
}
