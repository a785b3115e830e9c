// The value of a qubit from those that its rule reads, put into the table; 14 and 15.
#![tactic(auto)]

ghost use Rattle.std.specs.Prelude.{◌≡◌};
ghost use Rattle.run_values.specs.Code.{refusal_of};

use circuit::{Input, Refusal};
use units::{Gate, Qubit};

pub mod settle;

// Why a run stops while values are given and found: 12 to 15.
#[derive(Clone, Copy)]
pub enum Stop {
    NoQubit(Gate),
    NotUsedUp(u16),
    ZeroDivisor(Qubit),
    NotGiven(Qubit),
}

impl From<Stop> for Refusal {
    ghost from_gives = { λ x r. r ≡ refusal_of x };

    fn from(x: Stop) -> Refusal {
        match x {
            Stop::NoQubit(g) => Refusal::NoQubit(g),
            Stop::NotUsedUp(k) => Refusal::NotUsedUp(Input(k)),
            Stop::ZeroDivisor(q) => Refusal::DivisorZero(q),
            Stop::NotGiven(q) => Refusal::NotGiven(q),
        }
    }
}
