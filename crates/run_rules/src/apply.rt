// The value of a rule that is no division, from the values of its operands.
ghost use Rattle.std.specs.Prelude.{◌≡◌, not, cond};
ghost use Rattle.std.specs.Bool.{beq};
ghost use Rattle.penalty.specs.Rule.{majority as majority_of};
ghost use Rattle.run_rules.specs.Code.{value_by};

use crate::Rule;

// The carry of a full adder.
fn majority(p: bool, q: bool, r: bool) -> bool
    ensures { result ≡ majority_of p q r }
{
    if p { q || r } else { q && r }
}

// The aux of a full adder: p where p and q agree, else not r.
fn aux(p: bool, q: bool, r: bool) -> bool
    ensures { result ≡ cond (beq p q) p (not r) }
{
    if p == q { p } else { !r }
}

// The value of a rule that is no division, from its operands' values.
pub fn value_by(rule: Rule, p: bool, q: bool, r: bool) -> bool
    ensures { result ≡ value_by rule p q r }
{
    match rule {
        Rule::Not(_) => !p,
        Rule::And(..) | Rule::CarryHalfAdder(..) => p && q,
        Rule::Nand(..) => !(p && q),
        Rule::Matriarch1(..) => !p && q,
        Rule::Or(..) => p || q,
        Rule::AuxHalfAdder(..) => p && !q,
        Rule::AuxFullAdder(..) => aux(p, q, r),
        Rule::CarryFullAdder(..) => majority(p, q, r),
        Rule::ResultHalfAdder(..) => p != q,
        Rule::ResultFullAdder(..) => (p != q) != r,
        Rule::Quotient { .. } | Rule::Remainder { .. } | Rule::Invalid => false,
    }
}
