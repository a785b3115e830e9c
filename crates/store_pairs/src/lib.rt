// Pairs of qubits with their weights, in two lent tables side by side: `keys`, where a pair's key is low * 65536 + high, and `weights`.
// Contributions are appended as a log; the crate `store_settle` makes the pairs of the model from it. `specs/Store.antt` says what the tables mean.
#![tactic(auto)]

ghost use Rattle.std.specs.Prelude.{◌≡◌, length};

pub mod entry;
pub mod key;
pub mod log;

// The two tables, one as long as the other.
#[derive(Drop)]
pub struct Pairs<'a> {
    pub keys: &'a mut [u32],
    pub weights: &'a mut [i64],
    pub ghost even: { length weights.now ≡ length keys.now },
}
