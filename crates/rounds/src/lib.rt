// The rounds on a graph message, in a lent room of values.
#![tactic(auto)]

ghost use Rattle.std.specs.Prelude.{◌≡◌, ◌+◌, ◌≤◌, length};
ghost use Rattle.graph.specs.Viewed.{graph_of};
ghost use Rattle.turns.specs.Outcome.{outcome_count, ended, filled, read_rounds, outcome_of, rounds_room};
ghost use Rattle.rounds.specs.Promise.{Promise};

use graph::{Graph, Hypers, Records};
use refusal::Fault;
pub use turns::Outcome;

// The rounds of a graph that is ready, until one changes nothing or the budget is spent: a leaf, for a caller that has the check's facts.
// Round 1 needs no target, and round 2 takes every record in; many questions settle there, so what is noted is noted only after them.
pub fn run(g: Graph, budget: u32, room: &mut [u64]) -> Outcome
    requires { g.nodes + g.nodes ≤ length room.old }
    ensures value { result ≡ ended (graph_of g.entry) budget }
    ensures room_after { room.new ≡ filled (graph_of g.entry) (outcome_count result) room.old }
{
    let n = g.nodes;
    halves::clear(n + n, room);
    let hypers = Hypers {
        bytes: g.bytes,
        nodes: n,
        count: g.hypers,
    };
    let middle = scans::first_round(hypers, room);
    if halves::same(n, 0, n, room) {
        return Outcome::Settled(0);
    }
    if budget == 0 {
        return Outcome::Spent(0);
    }
    halves::raise(n, room);
    let records = Records {
        bytes: g.bytes,
        nodes: n,
        hypers: g.hypers,
        covers: g.covers,
        middle,
    };
    let covers = records.cover_edges();
    scans::next_round(covers, g.hypers, graph::HEADER, 0, g.covers, room);
    if halves::same(n, 0, n, room) {
        return Outcome::Settled(1);
    }
    if links::fit(n, g.hypers, g.covers, middle, 4096) {
        return chained::run_linked(records, budget, room);
    }
    marked::run_on(records, budget, room)
}

// The rounds on a message: first the graph, then the room, then the budget.
pub fn solve(message: &[u8], budget: u32, room: &mut [u64]) -> Result<Outcome, Fault>
    ensures answer { result ≡ outcome_of (read_rounds message.now room.old) budget }
    ensures room { room.new ≡ rounds_room (read_rounds message.now room.old) budget room.old }
    ensures promise { Promise message.now budget room.old room.new result }
{
    let counts = graph::check(message)?;
    let nodes = counts.nodes as usize;
    if room.len() < nodes + nodes {
        return Err(refusal::ROOM);
    }
    let g = Graph {
        bytes: message,
        nodes,
        hypers: counts.hypers,
        covers: counts.covers,
    };
    Ok(run(g, budget, room))
}
