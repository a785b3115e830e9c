// A circuit file and the values of its inputs as arguments, and the run's energy, its true bad states and the verdict, by the model in the Ising form.
#![tactic(auto)]

use units::Form;

fn main(rt: HostRuntime) {
    program_run::run_arguments(&rt, Form::Ising);
}
