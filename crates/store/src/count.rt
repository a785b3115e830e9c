// The variable count: the qubits with a linear entry or a row.
ghost use Rattle.std.specs.Prelude.{◌≡◌, length};
ghost use Rattle.energy.specs.Model.{counted};

pub fn count_variables(present: &[u8], rows: &[u8]) -> usize
    requires { length rows.now ≡ length present.now }
    ensures { result ≡ counted present.now rows.now }
{
    let mut n = 0;
    for (has_linear, has_row) in present.iter().zip(rows) {
        if *has_linear == 1 || *has_row == 1 {
            n += 1;
        }
    }
    n
}
