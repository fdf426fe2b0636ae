// A round along the chains of the nodes that changed: the records that they lead to are taken in, and no others.
#![tactic(auto)]

ghost use Rattle.std.specs.Prelude.{◌≡◌, ℕ, ◌+◌, ◌<◌, ◌≤◌, List, length, get_or};
ghost use Rattle.wire.specs.Bytes.{number};
ghost use Rattle.rules.specs.Graph as rules;
ghost use Rattle.halves.specs.Room.{Same};
ghost use Rattle.links.specs.Links.{Index};
ghost use Rattle.changes.specs.Listed.{Listed};
ghost use Rattle.chains.specs.Taken.{RecordOk, given_at, RecordIn, Taken, Further, TakenAll};

use changes::Changed;
use graph::Scanned;
use links::{Lists, Place};
use value::{Bound, Value};
use wire::Width;

// What the record at a position gives its source, by the numbers of a round: the cover edges stand from `middle` on. The number of the
// target is read before the bound: behind it a compiler would take the bound's bytes apart.
fn given(g: Scanned, at: usize, x: &[u64]) -> Value
    requires record_ok { RecordOk g.bytes.now g.nodes g.middle at }
    requires numbers { g.nodes ≤ length x.now }
    ensures { result.0 ≡ given_at g.entry.bytes.now g.entry.nodes g.entry.middle at x.now }
{
    if at < g.middle {
        let count = wire::number_at(g.bytes, at + graph::TARGET_COUNT_AT, Width::Two);
        targets::worst(g.bytes, g.nodes, x, count, at + graph::HYPER)
    } else {
        let target = wire::number_at(g.bytes, at + graph::COVER_TARGET_AT, Width::Two) as usize;
        let value = x[target];
        let bound = Bound::coded(wire::number_at(g.bytes, at + graph::COVER_BOUND_AT, Width::Four));
        if Value(value).within(bound) {
            return Value(0);
        }
        Value::INFINITE
    }
}

// Takes in the record at a position, and lists its source, behind `many` nodes, where the record is the first to change it. How many are
// listed is handed on by value: in the list's struct it would be memory that the next node's place waits for.
fn take_source(
    g: Scanned,
    at: usize,
    source: usize,
    many: usize,
    nodes: &mut [u16],
    room: &mut [u64],
) -> usize
    requires record_ok { RecordOk g.bytes.now g.nodes g.middle at }
    requires both_halves { g.nodes + g.nodes ≤ length room.old }
    requires source_named { (source < g.nodes) × (source ≡ number 2 g.bytes.now at) }
    requires small { g.nodes ≤ 65535 }
    requires listed { Listed g.nodes g.nodes many room.old nodes.old }
    ensures record_in { RecordIn g.entry.bytes.now g.entry.nodes g.entry.middle at room.old room.new }
    ensures listed { Listed g.entry.nodes g.entry.nodes result room.new nodes.new }
{
    let value = given(g, at, &room[0..g.nodes]);
    let other = g.nodes + source;
    let was = room[other];
    if was <= value.0 {
        return many;
    }
    let this = room[source];
    room[other] = value.0;
    if was != this {
        return many;
    }
    nodes[many] = source as u16;
    many + 1
}

// Takes in the records on the chain of a node, and lists the nodes that they change, behind `many`. A link is widened before
// the step back to its place, which is then part of the address: in 16 bits it is an instruction more, for which each place waits.
fn take_linked(
    g: Scanned,
    heads: &[u16],
    places: &[Place],
    v: usize,
    many: usize,
    nodes: &mut [u16],
    room: &mut [u64],
) -> usize
    requires both_halves { g.nodes + g.nodes ≤ length room.old }
    requires index { Index g.bytes.now g.nodes g.hypers g.covers g.middle (length places.now) heads.now places.now }
    requires named { (v < g.nodes) × (g.nodes ≤ 65535) }
    requires listed { Listed g.nodes g.nodes many room.old nodes.old }
    ensures listed { Listed g.entry.nodes g.entry.nodes result room.new nodes.new }
    ensures further { (b₀ : List ℕ) (p : rules.Graph) → g.entry.nodes + g.entry.nodes ≤ length b₀
        → Taken g.entry.bytes.now g.entry.nodes g.entry.hypers g.entry.covers g.entry.middle b₀ room.old p
        → Further g.entry.bytes.now g.entry.nodes g.entry.hypers g.entry.covers g.entry.middle places.now (get_or heads.now v 0) b₀ room.new p }
{
    let mut listed = many;
    let mut link = heads[v] as usize;
    while 0 < link {
        let place = places[link - 1];
        listed = take_source(
            g,
            place.spot as usize,
            place.source as usize,
            listed,
            nodes,
            room,
        );
        link = place.link as usize;
    }
    listed
}

// Takes in the records that have one of the nodes that are listed as a target, and lists the nodes that they change in another list, in
// which none is listed yet. Gives how many they are. Inlined, always: a round may take in one record, and with a call it took a quarter
// longer.
#[inline(always)]
pub fn take_listed(
    g: Scanned,
    heads: &[u16],
    places: &[Place],
    now: &[u16],
    next: &mut [u16],
    room: &mut [u64],
) -> usize
    requires both_halves { g.nodes + g.nodes ≤ length room.old }
    requires index { Index g.bytes.now g.nodes g.hypers g.covers g.middle (length places.now) heads.now places.now }
    requires room_for_all { (g.nodes ≤ 65535) × (g.nodes ≤ length next.old) }
    requires named { (length now.now ≤ g.nodes) × ((k : ℕ) → k < length now.now → get_or now.now k 0 < g.nodes) }
    requires same { Same g.nodes room.old }
    ensures listed { Listed g.entry.nodes g.entry.nodes result room.new next.new }
    ensures taken_all { TakenAll g.entry.bytes.now g.entry.nodes g.entry.hypers g.entry.covers g.entry.middle (length now.now) now.now
        heads.now places.now room.old room.new }
{
    let mut many = 0;
    for i in 0..now.len() {
        let v = now[i] as usize;
        many = take_linked(g, heads, places, v, many, next, room);
    }
    many
}

// The same in lists of one length.
pub fn take_changed<const M: usize, const K: usize>(
    g: Scanned,
    lists: &Lists<M>,
    now: &Changed<K>,
    next: &mut Changed<K>,
    room: &mut [u64],
)
    requires both_halves { g.nodes + g.nodes ≤ length room.old }
    requires index { Index g.bytes.now g.nodes g.hypers g.covers g.middle M lists.now.heads lists.now.places }
    requires room_for_all { (g.nodes ≤ M) × (g.nodes ≤ K) × (g.nodes ≤ length now.now.nodes) × (g.nodes ≤ length next.old.nodes) }
    requires named { (now.now.many ≤ g.nodes) × ((k : ℕ) → k < now.now.many → get_or now.now.nodes k 0 < g.nodes) }
    requires same { Same g.nodes room.old }
    ensures listed { Listed g.entry.nodes g.entry.nodes next.new.many room.new next.new.nodes }
    ensures taken_all { TakenAll g.entry.bytes.now g.entry.nodes g.entry.hypers g.entry.covers g.entry.middle now.now.many now.now.nodes
        lists.now.heads lists.now.places room.old room.new }
{
    next.many = take_listed(
        g,
        &lists.heads,
        &lists.places,
        now.listed(),
        &mut next.nodes,
        room,
    );
}
