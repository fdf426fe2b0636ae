// Rounds on a graph of any size: a round takes in the records between those that the changed nodes mark.
#![tactic(auto)]

ghost use Rattle.std.specs.Prelude.{◌≡◌, ◌+◌, ◌≤◌, length};
ghost use Rattle.graph.specs.Viewed.{decoded_of};
ghost use Rattle.halves.specs.Room.{Same};
ghost use Rattle.marked.specs.Took.{Within, Either, Stands, Took};
ghost use Rattle.turns.specs.Turns.{AtRound};
ghost use Rattle.turns.specs.Outcome.{outcome_count, ended, filled};

use graph::Records;
use notes::{Marks, Notes, Span};
use turns::Outcome;

// Takes the records that are marked into the second half from the first.
fn take_range(g: Records, m: Marks, room: &mut [u64]) -> Span
    requires n_in_bounds { g.nodes + g.nodes ≤ length room.old }
    requires stands { Stands g m }
    ensures { Took g.entry (Within m.first m.last) (Within m.low m.high) room.old room.new result }
{
    let k = m.last.saturating_sub(m.first);
    let hypers = g.hyperedges();
    let covers = g.cover_edges();
    let past = scans::next_round(covers, k, m.at, m.low, m.high, room);
    let from = sources::hypers_from(hypers, m.first, m.last, m.at);
    let to = sources::hypers_to(hypers, m.first, m.last, past);
    let covers_from = sources::covers_from(covers, m.low, m.high);
    let covers_to = sources::covers_to(covers, m.low, m.high);
    let lo = from.min(covers_from);
    let hi = to.max(covers_to);
    Span::whole(lo, lo.max(hi))
}

// Takes in the records that are marked, and the long ones; all at once where the ones stand among the others.
fn take_both(g: Records, m: Marks, longs: Marks, room: &mut [u64]) -> Span
    requires n_in_bounds { g.nodes + g.nodes ≤ length room.old }
    requires stands { Stands g m }
    requires longs_stand { Stands g longs }
    ensures { Took g.entry (Either (Within m.first m.last) (Within longs.first longs.last)) (Within m.low m.high) room.old room.new result }
{
    if m.first < longs.last && longs.first < m.last {
        return take_range(g, m.more(longs), room);
    }
    let near = take_range(g, m, room);
    let far = take_range(g, longs, room);
    near.join(far)
}

// From a round and the next on, until a round changes nothing or the budget is spent. The next round is worked out in the second half; then
// the first is brought up to it. Why skipping is exact: a record whose targets stayed in the last round gives what it gave before, which
// its source has already, since rounds fall; so only records of changed targets are worked out, and only their sources are compared. The notes
// have a frame of their own: inlined, they would lie on the stack below the lists of a small graph, which has no notes.
#[inline(never)]
fn run_noted(g: Records, round: u32, budget: u32, room: &mut [u64]) -> Outcome
    requires n_in_bounds { g.nodes + g.nodes ≤ length room.old }
    requires at_round { AtRound (decoded_of g) budget round room.old room.old }
    ensures value { result ≡ ended (decoded_of g.entry) budget }
    ensures room_after { room.new ≡ filled (decoded_of g.entry) (outcome_count result) room.old }
{
    let mut noted = Notes {
        slots: [Marks::NONE; notes::SLOTS],
    };
    let longs = noted.note_hypers(g.hyperedges());
    noted.note_covers(g.cover_edges());
    let all = noted.all();
    let mut i = round;
    let mut span = Span::whole(0, g.nodes);
    loop {
        if span.unchanged(g.nodes, room) {
            break Outcome::Settled(i);
        }
        if i == budget {
            break Outcome::Spent(i);
        }
        let m = noted.advance(g.nodes, span, all, room);
        span = take_both(g, m, longs, room);
        i += 1;
    }
}

// Whether many nodes changed in the last round: of every eighth node more than one in 64. The next round then takes in most records
// anyway. The answer decides only how rounds are worked out.
fn many_changed(n: usize, room: &[u64]) -> bool
    requires { n + n ≤ length room.now }
{
    let mut many: usize = 0;
    for v in (0..n).step_by(8) {
        if room[v] != room[n + v] {
            many += 1;
        }
    }
    n / 512 < many
}

// From rounds 1 and 2 on, which differ, until a round changes nothing or the budget is spent. As long as many nodes change every record is
// taken in; what a node reaches is noted only after that: to note it takes longer than some rounds, and many questions settle in these.
pub fn run_on(g: Records, budget: u32, room: &mut [u64]) -> Outcome
    requires n_in_bounds { g.nodes + g.nodes ≤ length room.old }
    requires at_round { AtRound (decoded_of g) budget 1 room.old room.old }
    requires not_same { ¬ Same g.nodes room.old }
    ensures value { result ≡ ended (decoded_of g.entry) budget }
    ensures room_after { room.new ≡ filled (decoded_of g.entry) (outcome_count result) room.old }
{
    let mut round: u32 = 1;
    while many_changed(g.nodes, room) {
        if round == budget {
            return Outcome::Spent(round);
        }
        halves::raise(g.nodes, room);
        scans::next_round(g.cover_edges(), g.hypers, graph::HEADER, 0, g.covers, room);
        round += 1;
        if halves::same(g.nodes, 0, g.nodes, room) {
            return Outcome::Settled(round);
        }
    }
    run_noted(g, round, budget, room)
}
