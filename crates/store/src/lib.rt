// The tables of the coefficient store, one entry of them, the variable count and the energy of a setting.
// All coefficients are counts of halves. The tables are lent: by qubit `linear`, `present` (1 where there is a linear entry), `rows` (1 where there is a row) and
// `fixed` (0 not fixed, 1 false, 2 true), and the two pair tables `keys` and `weights`, of which the first `count` entries are in use.
// The offset and the count go by value, as `Totals`. `specs/Tables.antt` says which model the tables hold.
#![tactic(auto)]

pub mod count;
pub mod evaluate;
pub mod linear;

#[derive(Clone, Copy)]
pub struct Totals {
    pub offset: i64,
    pub count: usize,
}
