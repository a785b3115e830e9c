ghost use Rattle.std.specs.Prelude.{◌<◌, ℕ, slice_index};

use circuit::Counts;

// What the text of a model is printed from: of `fixed`, `has` and `linear` the first `names` entries are the model's, and of `keys` and `weights` the first `pairs`.
#[derive(Clone, Copy)]
pub struct Sheet<'a> {
    pub circuit: &'a [u8],
    pub counts: Counts,
    pub starts: &'a [u16; 65],
    pub qubits: &'a [u16],
    pub names: usize,
    pub fixed: &'a [u8],
    pub has: &'a [u8],
    pub linear: &'a [i64],
    pub pairs: usize,
    pub keys: &'a [u32],
    pub weights: &'a [i64],
    pub offset: i64,
    pub variables: u64,
    // True of every slice, so nothing is excluded: a number within it fits its type, and past its end it is 0. Of a slice in a struct the check does not know it.
    ghost byte_each: { (i : ℕ) → slice_index circuit.now i < 256 },
    ghost qubit_each: { (g : ℕ) → slice_index qubits.now g < 65536 },
    ghost key_each: { (k : ℕ) → slice_index keys.now k < 4294967296 },
}
