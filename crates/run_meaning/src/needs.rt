// What a run needs, in order: linear entries by name; rows by name, each with its higher neighbours by name; bad states.
ghost use Rattle.std.specs.Prelude.{◌≡◌, ◌++◌, length};
ghost use Rattle.circuit.specs.Meaning.{circuit_of};
ghost use Rattle.run_values.specs.Need.{went, each, need_of};
ghost use Rattle.run_meaning.specs.Ran.{marked, with_higher, bad_qubits};
ghost use Rattle.run_values.specs.Asking.{state_in, net_in, NeedsIn};
ghost use Rattle.run_meaning.specs.Layout.{Flags, Stacked};

use circuit_records::field_at;
use run_need::need;
use run_rules::NumberedCircuit;
use run_rules::find::qubit_of;
use run_values::Stop;
use store_pairs::key::{high_of, low_of};
use units::Qubit;

// The linear entries.
pub fn need_linear(on: &NumberedCircuit, values: &mut [u8], flags: &[u8]) -> Result<(), Stop>
    requires { NeedsIn on.now values.old × Flags on.now.names flags.now }
    ensures { went result values.new ≡ each (need_of (net_in on.now)) (marked 0 flags.now) values.old }
{
    for (q, flag) in flags.iter().enumerate() {
        if *flag == 1 {
            need(on, values, Qubit(q as u16))?;
        }
    }
    Ok(())
}

// The rows, each with its higher neighbours: `keys` are those of the pairs.
pub fn need_rows(
    on: &NumberedCircuit,
    values: &mut [u8],
    rows: &[u8],
    keys: &[u32],
) -> Result<(), Stop>
    requires { NeedsIn on.now values.old × Flags on.now.names rows.now × Stacked on.now.names rows.now 0 keys.now }
    ensures { went result values.new ≡ each (need_of (net_in on.now)) (with_higher keys.now (marked 0 rows.now)) values.old }
{
    let mut k = 0;
    for (q, row) in rows.iter().enumerate() {
        if *row == 1 {
            need(on, values, Qubit(q as u16))?;
            // A walk with two fronts: keys rise by the lower qubit, so those of this row come next.
            while k < keys.len() && low_of(keys[k]) == q {
                need(on, values, Qubit(high_of(keys[k]) as u16))?;
                k += 1;
            }
        }
    }
    Ok(())
}

// The bad states, of which there are `total`.
pub fn need_bads(on: &NumberedCircuit, values: &mut [u8], total: usize) -> Result<(), Stop>
    requires { NeedsIn on.now values.old × (total ≡ length (circuit_of on.now.circuit.now).bads) }
    ensures { went result values.new ≡ each (need_of (net_in on.now)) (bad_qubits (circuit_of on.now.circuit.now) (state_in on.now)) values.old }
{
    for n in on.bads..on.bads + total {
        let gate = field_at(on.circuit, n, 0);
        need(on, values, qubit_of(on.qubits, gate))?;
    }
    Ok(())
}

// All that is needed, in order.
pub fn need_all(
    on: &NumberedCircuit,
    values: &mut [u8],
    flags: &[u8],
    rows: &[u8],
    keys: &[u32],
    total: usize,
) -> Result<(), Stop>
    requires { NeedsIn on.now values.old × (total ≡ length (circuit_of on.now.circuit.now).bads) × Flags on.now.names flags.now × Flags on.now.names rows.now × Stacked on.now.names rows.now 0 keys.now }
    ensures { went result values.new ≡ each (need_of (net_in on.now)) (marked 0 flags.now ++ (with_higher keys.now (marked 0 rows.now) ++ bad_qubits (circuit_of on.now.circuit.now) (state_in on.now))) values.old }
{
    need_linear(on, values, flags)?;
    need_rows(on, values, rows, keys)?;
    need_bads(on, values, total)
}
