// Tables with one value in each entry.
#![tactic(auto)]

ghost use Rattle.std.specs.Prelude.{◌≡◌, pos, length, replicate};

// The library's `fill` at bytes, with one clause in place of its five: callers' proofs cite it.
pub fn fill_u8(t: &mut [u8], x: u8)
    ensures { t.new ≡ replicate (length t.old) x }
{
    t.fill(x);
}

// The tables of names.
pub fn clear_names(qubits: &mut [u16], origins: &mut [u16], roles: &mut [u8])
    ensures { (qubits.new ≡ replicate (length qubits.old) 0) × (origins.new ≡ replicate (length origins.old) 0) × (roles.new ≡ replicate (length roles.old) 0) }
{
    qubits.fill(0);
    origins.fill(0);
    fill_u8(roles, 0);
}

// The tables of the model.
pub fn clear_model(
    linear: &mut [i64],
    present: &mut [u8],
    rows: &mut [u8],
    fixed: &mut [u8],
    keys: &mut [u32],
    weights: &mut [i64],
)
    ensures { (linear.new ≡ replicate (length linear.old) (pos 0)) × (present.new ≡ replicate (length present.old) 0) × (rows.new ≡ replicate (length rows.old) 0) × (fixed.new ≡ replicate (length fixed.old) 0) × (keys.new ≡ replicate (length keys.old) 0) × (weights.new ≡ replicate (length weights.old) (pos 0)) }
{
    linear.fill(0);
    fill_u8(present, 0);
    fill_u8(rows, 0);
    fill_u8(fixed, 0);
    keys.fill(0);
    weights.fill(0);
}
