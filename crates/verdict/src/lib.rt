// The whole question: a model, a formula, a state and a budget; yes, no, or a refusal. What is asked of all states at once is passed on.
#![tactic(auto)]

ghost use Rattle.std.specs.Prelude.{◌≡◌};
ghost use Rattle.settling.specs.Answer.{read_asked, answer_of, bytes_of, values_of};
ghost use Rattle.states.specs.Promise.{Promise};

use refusal::Fault;
pub use settling::{AllStates, Answer, Verdict, length, verdict_in, verdict_number};
pub use states::{graph, nodes, settle};

// The verdict on one state.
pub fn decide(
    m: &[u8],
    f: &[u8],
    state: u32,
    budget: u32,
    bytes: &mut [u8],
    values: &mut [u64],
) -> Result<Answer, Fault>
    ensures value { result ≡ answer_of (read_asked m.now f.now state bytes.old values.old) state budget }
    ensures bytes_after { bytes.new ≡ bytes_of (read_asked m.now f.now state bytes.old values.old) bytes.old }
    ensures values_after { values.new ≡ values_of (read_asked m.now f.now state bytes.old values.old) budget values.old }
    ensures promise { Promise m.now f.now state budget bytes.old values.old bytes.new
        values.new result }
{
    let asked = questions::question(m, f)?;
    if asked.model.states <= state {
        return Err(refusal::NAME);
    }
    match settling::settle_question(asked, budget, bytes, values)? {
        AllStates::Settled {
            count,
            length,
            first,
            ..
        } => {
            let node = (first + state) as usize;
            let verdict = if values[node] == 0 {
                Verdict::Yes
            } else {
                Verdict::No
            };
            Ok(Answer::Decided {
                verdict,
                count,
                length,
            })
        }
        AllStates::Spent { count, length } => Ok(Answer::Spent { count, length }),
    }
}
