// The lines of an answer, into a lent buffer: what the programs print. What is printed is a definition of the crate `report_lines`; a byte past the buffer's end is counted
// and not stored, and no answer has more than 1,674 bytes.
#![tactic(auto)]

ghost use Rattle.std.specs.Prelude.{◌++◌, ◌≤◌, length};
ghost use Rattle.text.specs.Paste.{Printed};
ghost use Rattle.text.specs.Text.{lines};
ghost use Rattle.report_lines.specs.Report.{refusal_line, energy_line, bad_line, hit_line, run_lines};

use circuit::Refusal;
use report_lines::{put_bads, put_energy, put_hit};
use run_outcome::Run;
use text::write::{put, put_bytes, put_decimal, put_lead};
use units::Energy;

// The line of a refusal.
pub fn print_refusal(r: Refusal, buf: &mut [u8]) -> usize
    ensures printed { Printed (refusal_line r) buf.old 0 buf.new result }
    ensures upper_bound { result ≤ 32 }
{
    let number = r.number();
    let place = r.place();
    let first = put_bytes(buf, 0, b"refused ");
    let second = put_lead(buf, first, number as u64);
    let end = put_decimal(buf, second, place as u64);
    put(buf, end, b'\n')
}

// The lines of a run that was made, with the nids of its true bad states.
fn print_ran(e: Energy, hit: bool, nids: &[u64], buf: &mut [u8]) -> usize
    requires { length nids.now ≤ 64 }
    ensures printed { Printed (energy_line e ++ (lines bad_line nids.now ++ hit_line hit)) buf.old 0 buf.new result }
    ensures upper_bound { result ≤ 1674 }
{
    let first = put_energy(buf, 0, e);
    let last = put_bads(buf, first, nids);
    put_hit(buf, last, hit)
}

// The lines of a run: any answer, any buffer.
pub fn print_run(r: Run, buf: &mut [u8]) -> usize
    ensures printed { Printed (run_lines r) buf.old 0 buf.new result }
    ensures upper_bound { result ≤ 1674 }
{
    let count = r.count.min(64);
    match r.outcome {
        Ok((e, hit)) => print_ran(e, hit, &r.nids[..count], buf),
        Err(x) => print_refusal(x, buf),
    }
}
