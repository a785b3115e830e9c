// The form of a stream of cases: what the head of a case asks for, the values behind its circuit, and the lines of an answer that no other program prints. What each function
// answers is a definition of specs/, for every byte string and every buffer.
#![tactic(auto)]

ghost use Rattle.std.specs.Prelude.{◌≡◌};
ghost use Rattle.cases.specs.Head.{job_of};

pub mod heads;
pub mod lines;
pub mod numbers;
pub mod values;

use units::Form;

// The longest circuit that can pass check 2: 1,000 gates, 4,096 list bits, 64 bad states, 256 constraints and 1,000 input bits of 16 bytes each.
pub const LIMIT: usize = 102656;

// What a case asks for.
#[derive(Clone, Copy)]
pub enum Job {
    Model,
    Run,
}

// By its byte in a head.
impl From<u8> for Job {
    ghost from_gives = { λ b j. j ≡ job_of b };

    fn from(b: u8) -> Job {
        match b {
            1 => Job::Run,
            _ => Job::Model,
        }
    }
}

// What follows a head: so many bytes of circuit, and so many values.
#[derive(Clone, Copy)]
pub struct Asked {
    pub form: Form,
    pub job: Job,
    pub values: u16,
    pub length: u32,
}
