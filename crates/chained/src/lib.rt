// Rounds on a graph that is small enough: a round takes in the records on the chains of the changed nodes.
#![tactic(auto)]

ghost use Rattle.std.specs.Prelude.{◌≡◌, ◌+◌, ◌≤◌, length};
ghost use Rattle.graph.specs.Viewed.{decoded_of};
ghost use Rattle.links.specs.Links.{Fits};
ghost use Rattle.turns.specs.Turns.{AtRound};
ghost use Rattle.turns.specs.Outcome.{outcome_count, ended, filled};

use graph::Records;
use links::{Lists, Place};
use turns::Outcome;

// The rounds from 1 and 2 on, in lists that are so long; the nodes that change are listed in two, by turns, and how many they are is handed
// on by value: beside a list it would be memory that each round waits for. Each length has registers of its own: inlined, they shared those
// of one function, and cover edges took 1.2 of the time.
#[inline(never)]
fn run_in_lists<const M: usize>(g: Records, budget: u32, room: &mut [u64]) -> Outcome
    requires short { M ≤ 65535 }
    requires fits { Fits g.nodes g.hypers g.covers g.middle M }
    requires both_halves { g.nodes + g.nodes ≤ length room.old }
    requires at_round { AtRound (decoded_of g) budget 1 room.old room.old }
    ensures value { result ≡ ended (decoded_of g.entry) budget }
    ensures room_after { room.new ≡ filled (decoded_of g.entry) (outcome_count result) room.old }
{
    let mut lists = Lists {
        heads: [0; M],
        places: [Place::NONE; M],
    };
    lists.link_all(g.scanned());
    let mut these = [0; M];
    let mut those = [0; M];
    let mut many = changes::list_changed(g.nodes, &mut these, room);
    let mut now = &mut these;
    let mut next = &mut those;
    let mut round: u32 = 1;
    loop {
        if many == 0 {
            break Outcome::Settled(round);
        }
        if round == budget {
            break Outcome::Spent(round);
        }
        let listed = &now[..many];
        changes::raise_changed(g.nodes, listed, room);
        many = chains::take_listed(g.scanned(), &lists.heads, &lists.places, listed, next, room);
        (now, next) = (next, now);
        round += 1;
    }
}

// From rounds 1 and 2 on, as `marked::run_on`, for a graph that is small enough: a round takes in the records of the nodes that changed,
// and no others. Short lists take less time to clear: on a graph of some tens of nodes clearing longer ones takes up to a tenth of the call.
pub fn run_linked(g: Records, budget: u32, room: &mut [u64]) -> Outcome
    requires fits { Fits g.nodes g.hypers g.covers g.middle 4096 }
    requires both_halves { g.nodes + g.nodes ≤ length room.old }
    requires at_round { AtRound (decoded_of g) budget 1 room.old room.old }
    ensures value { result ≡ ended (decoded_of g.entry) budget }
    ensures room_after { room.new ≡ filled (decoded_of g.entry) (outcome_count result) room.old }
{
    if links::fit(g.nodes, g.hypers, g.covers, g.middle, 256) {
        return run_in_lists::<256>(g, budget, room);
    }
    if links::fit(g.nodes, g.hypers, g.covers, g.middle, 1024) {
        return run_in_lists::<1024>(g, budget, room);
    }
    run_in_lists::<4096>(g, budget, room)
}
