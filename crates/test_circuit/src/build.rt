// Records made from numbers.
ghost use Rattle.std.specs.Prelude.{◌≡◌, ◌+◌, ◌%◌, ◌<◌};

// A stretch of records of one kind.
#[derive(Clone, Copy)]
pub struct Group {
    pub kind: usize,
    pub one: usize,
    pub a: usize,
    pub b: usize,
    pub c: usize,
    pub nid: usize,
    pub count: usize,
    pub every: usize,
    pub rise: usize,
}

fn put_byte(bytes: &mut [u8], at: usize, value: usize) {
    if let Some(byte) = bytes.get_mut(at) {
        *byte = (value % 256) as u8;
    }
}

fn put_half(bytes: &mut [u8], at: usize, value: usize)
    requires { at < 1000000 }
{
    put_byte(bytes, at, value);
    put_byte(bytes, at + 1, value / 256);
}

fn put(bytes: &mut [u8], n: usize, g: Group, a: usize, b: usize) {
    let at = 16 * (n % 8192);
    put_byte(bytes, at, g.kind);
    put_byte(bytes, at + 1, g.one);
    put_half(bytes, at + 2, a);
    put_half(bytes, at + 4, b);
    put_half(bytes, at + 6, g.c);
    put_half(bytes, at + 8, g.nid);
    put_half(bytes, at + 10, 0);
    put_half(bytes, at + 12, 0);
    put_half(bytes, at + 14, 0);
}

// A number of records.
fn small(n: usize) -> usize
    ensures { result ≡ n % 8192 }
{
    n % 8192
}

// a of the i-th record of a group.
fn rising(a: usize, i: usize, every: usize) -> usize {
    let low = a % 65536;
    if every == 0 {
        return low;
    }
    let more = i / every;
    low + small(more)
}

// b of the next record of a group.
fn stepped(b: usize, rise: usize) -> usize {
    (b % 65536 + rise % 256) % 65536
}

// Makes the records of a group from record n on. Returns the place after them.
pub fn fill(bytes: &mut [u8], n: usize, g: Group) -> usize
    ensures { result ≡ n % 8192 + g.count % 8192 }
{
    let first = small(n);
    let count = small(g.count);
    let mut b = g.b;
    for i in 0..count {
        put(bytes, first + i, g, rising(g.a, i, g.every), b);
        b = stepped(b, g.rise);
    }
    first + count
}
