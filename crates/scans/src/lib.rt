// A round, record by record: from the one half of the room into the other.
#![tactic(auto)]

ghost use Rattle.std.specs.Prelude.{◌≡◌, true, cond, ℕ, ◌+◌, ◌-◌, ◌*◌, ◌<◌, ◌≤◌, min, length, get_or};
ghost use Rattle.wire.specs.Bytes.{number};
ghost use Rattle.wire.specs.Layout.{items, end, Sound};
ghost use Rattle.value.specs.Stored.{stored, infinite};
ghost use Rattle.rules.specs.Rounds as rules;
ghost use Rattle.graph.specs.Format.{graph_header, target_count_at, cover_width};
ghost use Rattle.graph.specs.Layouts.{hyper_layout, cover_layout, HyperOk};
ghost use Rattle.halves.specs.Held.{held};
ghost use Rattle.halves.specs.Room.{half};
ghost use Rattle.scans.specs.Scan.{lowered, hyper_in, Done, part_of};

use graph::{Covers, Hypers};
use value::{Bound, Value};
use wire::Width;

// From so many targets on a hyperedge has a loop of its own.
const LONG: u32 = 8;

// Lowers the next number of the source of the hyperedge at a position to a value, where that is less.
fn lower(s: &[u8], n: usize, at: usize, value: Value, room: &mut [u64])
    requires hyper_ok { HyperOk s.now n at }
    requires n_in_bounds { n + n ≤ length room.old }
    ensures { room.new ≡ lowered s.now n at value.0 room.old }
{
    let source = wire::number_at(s, at, Width::Two) as usize;
    let own = n + source;
    let before = room[own];
    let least = Value(before).least(value);
    room[own] = least.0;
}

// Takes a hyperedge of k targets at a position into the next round; whether these are many is known when this is compiled.
fn take_hyper<const MANY: bool>(s: &[u8], n: usize, k: u32, at: usize, room: &mut [u64])
    requires hyper_ok { HyperOk s.now n at }
    requires k_value { k ≡ number 2 s.now (at + target_count_at) }
    requires n_in_bounds { n + n ≤ length room.old }
    ensures { room.new ≡ hyper_in s.now n 0 n at room.old }
{
    let first = at + graph::HYPER;
    let value = if MANY {
        targets::worst_of_many(s, n, &room[..n], k, first)
    } else {
        targets::worst(s, n, &room[..n], k, first)
    };
    lower(s, n, at, value, room);
}

// Takes a hyperedge of few targets in; in the first round all this round's numbers are infinite, and only one without targets gives anything.
fn take_short<const FIRST: bool>(s: &[u8], n: usize, k: u32, at: usize, room: &mut [u64])
    requires hyper_ok { HyperOk s.now n at }
    requires k_value { k ≡ number 2 s.now (at + target_count_at) }
    requires n_in_bounds { n + n ≤ length room.old }
    requires all_infinite { FIRST ≡ true → (v : ℕ) → v < n → get_or room.old v 0 ≡ infinite }
    ensures { room.new ≡ hyper_in s.now n 0 n at room.old }
{
    if FIRST {
        if k == 0 {
            let source = wire::number_at(s, at, Width::Two) as usize;
            room[n + source] = 0;
        }
    } else {
        take_hyper::<false>(s, n, k, at, room);
    }
}

// Takes k hyperedges at a position into the next round, and gives the position past them. In the first round no target is read.
// Where counts repeat, the next position need not wait for the count: the stride stands ready (the call is in both arms, or a
// compiler would choose between the strides by the count).
// Not a `for`: that counts behind the arms, where they have met again, and a hyperedge of one target then takes a sixth longer.
fn take_hypers<const FIRST: bool>(s: &[u8], n: usize, k: u32, at: usize, room: &mut [u64]) -> usize
    requires sound { Sound (hyper_layout s.now n) k at }
    requires n_in_bounds { n + n ≤ length room.old }
    requires all_infinite { FIRST ≡ true → (v : ℕ) → v < n → get_or room.old v 0 ≡ infinite }
    ensures value { result ≡ end (hyper_layout s.now n) k at }
    ensures done { Done n 0 n room.old room.new (λ v.
        min (get_or room.old (n + v) 0)
        (stored (rules.best (held (half n 0 room.old)) v (items (hyper_layout s.now n) k at)))) }
{
    let mut p = at;
    let mut last: u32 = 0;
    let mut stride: usize = graph::HYPER;
    let mut left = k;
    while 0 < left {
        let count = wire::number_at(s, p + graph::TARGET_COUNT_AT, Width::Two);
        left -= 1;
        if count == last {
            take_short::<FIRST>(s, n, last, p, room);
            p += stride;
        } else if !FIRST && LONG <= count {
            take_hyper::<true>(s, n, count, p, room);
            p += graph::HYPER + (count as usize) * graph::TARGET;
        } else {
            take_short::<FIRST>(s, n, count, p, room);
            last = count;
            stride = graph::HYPER + (count as usize) * graph::TARGET;
            p += stride;
        }
    }
    p
}

// Takes k cover edges at a position into the next round.
fn take_covers(s: &[u8], n: usize, k: u32, at: usize, room: &mut [u64])
    requires sound { Sound (cover_layout s.now n) k at }
    requires n_in_bounds { n + n ≤ length room.old }
    ensures { Done n 0 n room.old room.new (λ v.
        cond (rules.covered (held (half n 0 room.old)) v (items (cover_layout s.now n) k at)) 0
        (get_or room.old (n + v) 0)) }
{
    let mut p = at;
    for _ in 0..k {
        let source = wire::number_at(s, p, Width::Two) as usize;
        let bound = Bound::coded(wire::number_at(s, p + graph::COVER_BOUND_AT, Width::Four));
        let target = wire::number_at(s, p + graph::COVER_TARGET_AT, Width::Two) as usize;
        let value = room[target];
        let next = n + source;
        p += graph::COVER;
        if Value(value).within(bound) {
            room[next] = 0;
        }
    }
}

// Takes the cover edges from number a to before number z into the next round.
fn take_marked(g: Covers, a: u32, z: u32, room: &mut [u64])
    requires z_le_count { z ≤ g.count }
    requires n_in_bounds { g.nodes + g.nodes ≤ length room.old }
    ensures { let n = g.entry.nodes in Done n 0 n room.old room.new (λ v.
        cond (rules.covered (held (half n 0 room.old)) v (items (cover_layout g.entry.bytes.now n) (z - a) (g.entry.at + a * cover_width))) 0
        (get_or room.old (n + v) 0)) }
{
    if a < z {
        let at = g.at + (a as usize) * graph::COVER;
        take_covers(g.bytes, g.nodes, z - a, at, room);
    }
}

// The part of the graph that a round takes in: k hyperedges at a position, and the cover edges from number a to before number z.
pub fn next_round(g: Covers, k: u32, at: usize, a: u32, z: u32, room: &mut [u64]) -> usize
    requires sound { Sound (hyper_layout g.bytes.now g.nodes) k at }
    requires z_le_count { z ≤ g.count }
    requires n_in_bounds { g.nodes + g.nodes ≤ length room.old }
    ensures value { result ≡ end (hyper_layout g.entry.bytes.now g.entry.nodes) k at }
    ensures done { let n = g.entry.nodes in Done n 0 n room.old room.new (λ v.
        min (get_or room.old (n + v) 0)
        (stored (rules.round (part_of g.entry.bytes.now n k at (z - a) (g.entry.at + a * cover_width)) (held (half n 0 room.old)) v))) }
{
    let past = take_hypers::<false>(g.bytes, g.nodes, k, at, room);
    take_marked(g, a, z, room);
    past
}

// Takes all hyperedges into the second half from an infinite first, and gives the position past them.
pub fn first_round(g: Hypers, room: &mut [u64]) -> usize
    requires n_in_bounds { g.nodes + g.nodes ≤ length room.old }
    requires all_infinite { (v : ℕ) → v < g.nodes → get_or room.old v 0 ≡ infinite }
    ensures value { result ≡ end (hyper_layout g.entry.bytes.now g.entry.nodes) g.entry.count graph_header }
    ensures done { let n = g.entry.nodes in Done n 0 n room.old room.new (λ v.
        min (get_or room.old (n + v) 0)
        (stored (rules.best (held (half n 0 room.old)) v (items (hyper_layout g.entry.bytes.now n) g.entry.count graph_header)))) }
{
    take_hypers::<true>(g.bytes, g.nodes, g.count, graph::HEADER, room)
}
