// What a question answers, and the graph of an accepted one built and settled.
#![tactic(auto)]

ghost use Rattle.std.specs.Prelude.{◌≡◌, ℕ};
ghost use Rattle.turns.specs.Outcome.{ended_count};
ghost use Rattle.questions.specs.Asking.{question_of};
ghost use Rattle.settling.specs.Answer.{verdict_number, ending_number, ending_count, ending_length, ending_within, states_number, states_count, states_length, states_within, answer_verdict, roomed, all_of, bytes_of, values_of};

use graph::Graph;
use questions::Asked;
use refusal::Fault;
use rounds::Outcome;
use turns::Ended;
use wire::Width;

// Yes or no.
#[derive(Clone, Copy, Debug, PartialEq, Eq)]
pub enum Verdict {
    Yes,
    No,
}

// What a question about a state comes to where nothing is refused: a verdict, with the count of rounds and the length of the graph; or the
// budget spent, with both.
#[derive(Clone, Copy, Debug, PartialEq, Eq)]
pub enum Answer {
    Decided {
        verdict: Verdict,
        count: u32,
        length: usize,
    },
    Spent {
        count: u32,
        length: usize,
    },
}

// All states at once, where nothing is refused: settled, with the count of rounds, the length of the graph, the node of state 0, and how many
// states; or the budget spent.
#[derive(Clone, Copy, Debug, PartialEq, Eq)]
pub enum AllStates {
    Settled {
        count: u32,
        length: usize,
        first: u32,
        states: u32,
    },
    Spent {
        count: u32,
        length: usize,
    },
}

// The number of a verdict; 0 where there is none.
pub fn verdict_number(verdict: Option<Verdict>) -> u8
    ensures { result ≡ verdict_number verdict }
{
    match verdict {
        None => 0,
        Some(Verdict::Yes) => 1,
        Some(Verdict::No) => 2,
    }
}

// The verdict of an answer; none with a refusal and with a spent budget.
pub fn verdict_in(answer: &Result<Answer, Fault>) -> Option<Verdict>
    ensures { result ≡ answer_verdict answer.now }
{
    match *answer {
        Ok(Answer::Decided { verdict, .. }) => Some(verdict),
        _ => None,
    }
}

impl Ended for Answer {
    ghost number = { ending_number };

    ghost count = { ending_count };

    ghost within = { ending_within };

    fn number(&self) -> u8 {
        match self {
            Answer::Decided { .. } => 0,
            Answer::Spent { .. } => 1,
        }
    }

    fn count(&self) -> u32 {
        match *self {
            Answer::Decided { count, .. } | Answer::Spent { count, .. } => count,
        }
    }
}

impl Ended for AllStates {
    ghost number = { states_number };

    ghost count = { states_count };

    ghost within = { states_within };

    fn number(&self) -> u8 {
        match self {
            AllStates::Settled { .. } => 0,
            AllStates::Spent { .. } => 1,
        }
    }

    fn count(&self) -> u32 {
        match *self {
            AllStates::Settled { count, .. } | AllStates::Spent { count, .. } => count,
        }
    }
}

// What comes of a graph that was built, and stands in its room.
pub trait OnGraph {
    // The returned length of the graph.
    ghost returned: { Self → ℕ };

    fn length(&self) -> usize
        ensures { result ≡ returned self.now };
}

impl OnGraph for Answer {
    ghost returned = { ending_length };

    fn length(&self) -> usize {
        match *self {
            Answer::Decided { length, .. } | Answer::Spent { length, .. } => length,
        }
    }
}

impl OnGraph for AllStates {
    ghost returned = { states_length };

    fn length(&self) -> usize {
        match *self {
            AllStates::Settled { length, .. } | AllStates::Spent { length, .. } => length,
        }
    }
}

// The returned length of the graph: none with a refusal.
pub fn length<G: OnGraph>(answer: &Result<G, Fault>) -> usize
    ensures { result ≡ ended_count G.returned answer.now }
{
    match answer {
        Ok(end) => end.length(),
        Err(_) => 0,
    }
}

// Builds the graph of an accepted question and settles it, once for all states. What was built is not checked again: its header tells
// the counts, and the rounds themselves refuse nothing.
pub fn settle_question(
    asked: Asked,
    budget: u32,
    bytes: &mut [u8],
    values: &mut [u64],
) -> Result<AllStates, Fault>
    ensures value { result ≡ all_of (roomed (question_of asked.entry) bytes.old values.old) budget }
    ensures bytes_after { bytes.new ≡ bytes_of (roomed (question_of asked.entry) bytes.old values.old) bytes.old }
    ensures values_after { values.new ≡ values_of (roomed (question_of asked.entry) bytes.old values.old) budget values.old }
{
    let room = values.len();
    let length = build::build(asked.model, asked.formula, room, bytes)?;
    let states = asked.model.states;
    let first = states * (asked.formula.rows - 1);
    let message = &bytes[..length];
    let nodes = wire::number_at(message, graph::NODES_AT, Width::Two) as usize;
    let hypers = wire::number_at(message, graph::HYPERS_AT, Width::Four);
    let covers = wire::number_at(message, graph::COVERS_AT, Width::Two);
    let g = Graph {
        bytes: message,
        nodes,
        hypers,
        covers,
    };
    match rounds::run(g, budget, values) {
        Outcome::Settled(count) => Ok(AllStates::Settled {
            count,
            length,
            first,
            states,
        }),
        Outcome::Spent(count) => Ok(AllStates::Spent { count, length }),
    }
}
