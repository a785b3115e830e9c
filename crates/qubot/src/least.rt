// The least of six lengths.
ghost use Rattle.std.specs.Prelude.{◌≡◌, min};

use units::lesser;

pub fn least_of(a: usize, b: usize, c: usize, d: usize, e: usize, f: usize) -> usize
    ensures { result ≡ min (min (min a b) (min c d)) (min e f) }
{
    lesser(lesser(lesser(a, b), lesser(c, d)), lesser(e, f))
}
