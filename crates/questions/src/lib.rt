// A question: the check of a model, and of a formula with the model's p.
#![tactic(auto)]

mod asked;

ghost use Rattle.questions.specs.Asking.{Asking};

pub use asked::Asked;
use refusal::Fault;
use transitions::{AcceptedModel, AcceptedRows};

// The model first, then the formula with the model's p: both as they were accepted, or the first fault.
pub fn question<'a>(m: &'a [u8], f: &'a [u8]) -> Result<Asked<'a>, Fault>
    ensures { Asking m.now f.now result }
{
    let counts = model::check(m)?;
    let rows = formula::check(f, counts.propositions)?;
    let model = AcceptedModel {
        bytes: m,
        states: counts.states,
        propositions: counts.propositions,
        transitions: counts.transitions,
    };
    let formula = AcceptedRows {
        bytes: f,
        rows,
        propositions: counts.propositions,
    };
    Ok(Asked { model, formula })
}
