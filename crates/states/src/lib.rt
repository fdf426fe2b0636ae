// The whole question for all states: the number of nodes, the graph alone, and the answers from one settled room.
#![tactic(auto)]

ghost use Rattle.std.specs.Prelude.{◌≡◌};
ghost use Rattle.questions.specs.Question.{read_question, nodes_of};
ghost use Rattle.settling.specs.Answer.{read_built, read_settled, all_of, built_alone, bytes_of, values_of};
ghost use Rattle.states.specs.Promise.{PromiseAll, PromiseGraph};

use refusal::Fault;
use settling::AllStates;

// The number of nodes of the graph of a question, a budget in which it always settles; 0 where the model or the formula is refused.
pub fn nodes(m: &[u8], f: &[u8]) -> u32
    ensures { result ≡ nodes_of (read_question m.now f.now) }
{
    match questions::question(m, f) {
        Ok(asked) => build::count_nodes(asked.model.states, asked.formula),
        Err(_) => 0,
    }
}

// The graph of a question alone, and its length: model, formula with the model's p, SIZE, then ROOM. No graph has more than 4,096 nodes, so
// 8,192 values are always enough for two rounds.
pub fn graph(m: &[u8], f: &[u8], room: &mut [u8]) -> Result<usize, Fault>
    ensures value { result ≡ built_alone (read_built m.now f.now room.old) }
    ensures room_after { room.new ≡ bytes_of (read_built m.now f.now room.old) room.old }
    ensures promise_graph { PromiseGraph m.now f.now room.old room.new result }
{
    let asked = questions::question(m, f)?;
    build::build(asked.model, asked.formula, 8192, room)
}

// All states' answers from one settled room: the number of state a's node is 0 exactly when a satisfies the formula.
pub fn settle(
    m: &[u8],
    f: &[u8],
    budget: u32,
    bytes: &mut [u8],
    values: &mut [u64],
) -> Result<AllStates, Fault>
    ensures value { result ≡ all_of (read_settled m.now f.now bytes.old values.old) budget }
    ensures bytes_after { bytes.new ≡ bytes_of (read_settled m.now f.now bytes.old values.old) bytes.old }
    ensures values_after { values.new ≡ values_of (read_settled m.now f.now bytes.old values.old) budget values.old }
    ensures promise_all { PromiseAll m.now f.now budget bytes.old values.old bytes.new values.new result }
{
    let asked = questions::question(m, f)?;
    settling::settle_question(asked, budget, bytes, values)
}
