// 01's number and place of each refusal, as specs/Refusals.antt has them.
ghost use Rattle.std.specs.Prelude.{◌≡◌};
ghost use Rattle.circuit.specs.Refusals.{number_of, place_of};

use crate::Refusal;

impl Refusal {
    pub fn number(self) -> usize
        ensures { result ≡ number_of self }
    {
        match self {
            Refusal::Length => 1,
            Refusal::TooMany => 2,
            Refusal::Form(_) => 3,
            Refusal::NotEarlier(_) => 4,
            Refusal::Partner(_) => 5,
            Refusal::NoBadState => 6,
            Refusal::Room => 7,
            Refusal::HasQubit(_) => 8,
            Refusal::FixedTwice(_) => 9,
            Refusal::FewValues => 10,
            Refusal::OtherCount => 11,
            Refusal::NoQubit(_) => 12,
            Refusal::NotUsedUp(_) => 13,
            Refusal::DivisorZero(_) => 14,
            Refusal::NotGiven(_) => 15,
            Refusal::ShortText => 17,
        }
    }

    pub fn place(self) -> usize
        ensures { result ≡ place_of self }
    {
        match self {
            Refusal::Form(p) | Refusal::NotEarlier(p) | Refusal::Partner(p) => p.0,
            Refusal::HasQubit(g) | Refusal::NoQubit(g) => g.0 as usize,
            Refusal::FixedTwice(q) | Refusal::DivisorZero(q) | Refusal::NotGiven(q) => q.0 as usize,
            Refusal::NotUsedUp(i) => i.0 as usize,
            Refusal::Length
            | Refusal::TooMany
            | Refusal::NoBadState
            | Refusal::Room
            | Refusal::FewValues
            | Refusal::OtherCount
            | Refusal::ShortText => 0,
        }
    }
}
