// The key of a pair of qubits, low * 65536 + high, taken apart.
ghost use Rattle.std.specs.Prelude.{◌≡◌};
ghost use Rattle.energy.specs.Model.{low, high};

// The pair's lower qubit.
pub fn low_of(key: u32) -> usize
    ensures { result ≡ low key }
{
    (key / 65536) as usize
}

// The pair's higher qubit.
pub fn high_of(key: u32) -> usize
    ensures { result ≡ high key }
{
    (key % 65536) as usize
}
