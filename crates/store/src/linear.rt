// One linear entry, and a coefficient times a value.
ghost use Rattle.std.specs.Prelude.{◌≡◌, ◌+◌, ◌^◌, ◌<◌, pos, nat_abs, ◌+ℤ◌, length, set, get_or};
ghost use Rattle.energy.specs.Model.{gated};
ghost use Rattle.store.specs.Tables.{gained, marked};

// A coefficient times a value of 0 or 1.
pub fn gated(on: bool, c: i64) -> i64
    ensures { result ≡ gated on c }
{
    if on { c } else { 0 }
}

// The linear entry of `q` gains `c`, and is made where it is missing.
pub fn join_linear(linear: &mut [i64], present: &mut [u8], q: usize, c: i64)
    requires { (q < length linear.old) × (q < length present.old) × (nat_abs (get_or linear.old q (pos 0)) + nat_abs c < 2 ^ 62) }
    ensures linear_after { linear.new ≡ set linear.old q (get_or linear.old q (pos 0) +ℤ c) }
    ensures present_after { present.new ≡ set present.old q 1 }
{
    linear[q] += c;
    present[q] = 1;
}

// The same, but adding 0 makes no entry.
pub fn add_linear(linear: &mut [i64], present: &mut [u8], q: usize, c: i64)
    requires { (q < length linear.old) × (q < length present.old) × (nat_abs (get_or linear.old q (pos 0)) + nat_abs c < 2 ^ 62) }
    ensures linear_after { linear.new ≡ gained q c linear.old }
    ensures present_after { present.new ≡ marked q c present.old }
{
    if c != 0 {
        join_linear(linear, present, q, c);
    }
}
