// A circuit from standard input, and the text of its model in the Ising form.
#![tactic(auto)]

use std::io;
use units::Form;

fn main(rt: HostRuntime) -> io::Result<()> {
    program_model::print_from_input(&rt, Form::Ising)
}
