// The answer of a build that passed the checks, from what became of the tables.
ghost use Rattle.std.specs.Prelude.{◌≡◌, Ok};
ghost use Rattle.qubot_left.specs.Parts.{answer_of};

use crate::Finished;
use circuit::{Counts, Refusal};
use model_finish::Counted;
use qubot_fill::Filled;
use units::Form;

// The answer for a finished model.
fn done(form: Form, k: Counts, x: Filled) -> Result<Finished, Refusal>
    ensures { result ≡ answer_of form k (Ok x) }
{
    let Counted { totals, variables } = x.counted;
    Ok(Finished {
        form,
        names: usize::from(x.next.0),
        pairs: totals.count,
        offset: totals.offset,
        variables,
        bads: k.bad_states,
        inputs: k.inputs,
    })
}

pub fn answer_of(
    form: Form,
    k: Counts,
    filled: Result<Filled, Refusal>,
) -> Result<Finished, Refusal>
    ensures { result ≡ answer_of form k filled }
{
    done(form, k, filled?)
}
