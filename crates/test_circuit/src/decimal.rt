// Decimal numbers, read.
ghost use Rattle.std.specs.Prelude.{◌≡◌, true, cond, ◌≢◌, ℕ, ◌+◌, ◌<◌, ◌≤◌, ltb, length, get_or};

// A number that was read, and the place after it and the space that follows.
#[derive(Clone, Copy)]
pub struct Parsed {
    pub value: usize,
    pub next: usize,
}

// The next place, within what a file can have.
pub fn step(at: usize) -> usize
    ensures { result ≡ cond (ltb at 1000000) (at + 1) at }
{
    if at < 1000000 { at + 1 } else { at }
}

pub fn is_digit(s: &[u8], at: usize) -> bool
    ensures { result ≡ true → at < length s.now }
{
    s.get(at).is_some_and(|b| b.is_ascii_digit())
}

fn grown(value: usize, digit: u8) -> usize
    ensures { result < 1000000 }
{
    (value % 100000) * 10 + ((digit % 48) % 10) as usize
}

// The number whose digits stand from `at` on: of a longer one the last six digits.
pub fn number(s: &[u8], at: usize) -> Parsed
    ensures { result.value < 1000000 }
{
    let mut value = 0;
    for i in at..s.len() {
        if !s[i].is_ascii_digit() {
            return Parsed {
                value,
                next: step(i),
            };
        }
        value = grown(value, s[i]);
    }
    Parsed {
        value,
        next: step(at.max(s.len())),
    }
}

// The first place from `at` on that has the byte, or the end. A loop: with `position`, what is ensured of the places before the first was not found alone, and here one
// line of an invariant is enough.
pub fn find(s: &[u8], at: usize, byte: u8) -> usize
    ensures lower_bound { (at ≤ result) × ((k : ℕ) → at ≤ k → k < result → get_or s.now k 0 ≢ byte) }
    ensures result_value { (result < length s.now → get_or s.now result 0 ≡ byte) × (at ≤ length s.now → result ≤ length s.now) }
{
    for i in at..s.len() {
        if s[i] == byte {
            return i;
        }
    }
    at.max(s.len())
}
