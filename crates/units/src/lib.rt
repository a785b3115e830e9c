// What the numbers of this project count. An energy travels with its form, as one record of the float, its signed count of halves and the form; a gate's
// number and a qubit's name are two types, and the one is never accepted for the other.
// Everywhere else in the project, in tables and in contracts, a coefficient or an energy is a whole count of halves, in the 0/1 form and in the Ising form alike.
#![tactic(auto)]

ghost use Rattle.std.specs.Prelude.{◌≡◌, min, pos};
ghost use Rattle.laws.specs.Equal.{eq_z};
ghost use Rattle.units.specs.Halves.{halves_of, energy_of};
ghost use Rattle.units.specs.Name.{constant, first_new};

// The form of a model: a false qubit counts 0 in the one and -1 in the other.
#[derive(Clone, Copy)]
pub enum Form {
    Binary,
    Ising,
}

// A gate's number: the place of its record in the file.
#[derive(Clone, Copy)]
pub struct Gate(pub u16);

// A qubit's name.
#[derive(Clone, Copy)]
pub struct Qubit(pub u16);

impl Qubit {
    pub const FALSE: Qubit = Qubit(0);

    pub const TRUE: Qubit = Qubit(1);

    pub const FIRST_NEW: Qubit = Qubit(2);

    // The qubit of a constant.
    pub fn of_bool(b: bool) -> Qubit
        ensures { result ≡ constant b }
    {
        if b { Qubit::TRUE } else { Qubit::FALSE }
    }

    // The first name that is no constant's.
    pub fn first_new() -> Qubit
        ensures { result ≡ first_new }
    {
        Qubit::FIRST_NEW
    }
}

// An energy, always with its form.
#[derive(Clone, Copy)]
pub struct Energy {
    pub value: f64,
    pub halves: i64,
    pub form: Form,
}

// h halves as a float.
pub fn f64_of_halves(h: i64) -> f64
    ensures { result ≡ halves_of h }
{
    std::num::nearest_i64_to_f64(h) * 0.5
}

// The energy of h halves in a form.
pub fn energy_of(h: i64, form: Form) -> Energy
    ensures { result ≡ energy_of h form }
{
    Energy {
        value: f64_of_halves(h),
        halves: h,
        form,
    }
}

// "A run is a hit when the energy is 0": told by the count, never by the float.
pub fn is_hit(e: Energy) -> bool
    ensures { result ≡ eq_z e.halves (pos 0) }
{
    e.halves == 0
}

// The lesser of two counts.
pub fn lesser(a: usize, b: usize) -> usize
    ensures { result ≡ min a b }
{
    a.min(b)
}
