// What a run answers: the energy with its form and the verdict, or a refusal; and the true bad states.
#![tactic(auto)]

use circuit::Refusal;
use units::Energy;

// The answer of a run. Its outcome is the energy and the verdict, or why there is none; the true bad states are the first `count` of `nids`, in file order.
#[derive(Clone, Copy)]
pub struct Run {
    pub outcome: Result<(Energy, bool), Refusal>,
    pub nids: [u64; 64],
    pub count: usize,
}
