// Records of the graph, written into the room: hyperedges, and what a list of transitions makes of them.
#![tactic(auto)]

ghost use Rattle.std.specs.Prelude.{◌≡◌, ◌+◌, ◌*◌, ◌≤◌, ◌++◌, ◌∷◌, [], length};
ghost use Rattle.lists.specs.Making.{keep};
ghost use Rattle.wire.specs.Bytes.{bytes};
ghost use Rattle.wire.specs.Laid.{Laid};
ghost use Rattle.graph.specs.Format.{hyper_width, target_width};
ghost use Rattle.graph.specs.Write.{write_target, write_hyper};
ghost use Rattle.reduction.specs.Built as built;
ghost use Rattle.transitions.specs.Looked.{leaf_edges, lowest, highest, is_near};
ghost use Rattle.transitions.specs.Held.{LeadTo};
ghost use Rattle.transitions.specs.Views.{list_of};
ghost use Rattle.records.specs.Bytes.{single_width, pair_width, hypers_bytes, near_bytes, near_width, nearby_bytes, step_bytes, steps_bytes, next_edges};

use syntax::{Action, Quantifier};
use transitions::{Look, Out};
use value::Bound;
use wire::Width;

// The source and the target count of a hyperedge.
pub fn put_head(room: &mut [u8], at: usize, source: u32, count: u32) -> usize
    requires { at + hyper_width ≤ length room.old }
    ensures { Laid room.old at (bytes 2 source ++ bytes 2 count) room.new result }
{
    wire::store(room, at, Width::Two, source);
    wire::store(room, at + graph::TARGET_COUNT_AT, Width::Two, count);
    at + graph::HYPER
}

// A target.
pub fn put_target(room: &mut [u8], at: usize, weight: u32, node: u32) -> usize
    requires { at + target_width ≤ length room.old }
    ensures { Laid room.old at (write_target (built.to weight node)) room.new result }
{
    wire::store(room, at, Width::Four, weight);
    wire::store(room, at + graph::NODE_AT, Width::Two, node);
    at + graph::TARGET
}

// A hyperedge with one target at weight 0.
pub fn put_single(room: &mut [u8], at: usize, v: u32, node: u32) -> usize
    requires { at + single_width ≤ length room.old }
    ensures { Laid room.old at (write_hyper (built.hyper v (built.to 0 node ∷ []))) room.new result }
{
    let target = put_head(room, at, v, 1);
    put_target(room, target, 0, node)
}

// A hyperedge with two targets, the first at weight 0.
pub fn put_pair(room: &mut [u8], at: usize, v: u32, node: u32, weight: u32, other: u32) -> usize
    requires { at + pair_width ≤ length room.old }
    ensures { Laid room.old at (write_hyper (built.hyper v (built.to 0 node ∷ built.to weight other ∷ []))) room.new result }
{
    let first = put_head(room, at, v, 2);
    let second = put_target(room, first, 0, node);
    put_target(room, second, weight, other)
}

// What EX or AX writes for a transition: a hyperedge with the successor's node, or that node as a target.
fn put_near(room: &mut [u8], at: usize, q: Quantifier, v: u32, node: u32) -> usize
    requires { at + near_width q ≤ length room.old }
    ensures { Laid room.old at (near_bytes q v node) room.new result }
{
    match q {
        Quantifier::Some => put_single(room, at, v, node),
        Quantifier::Every => put_target(room, at, 0, node),
    }
}

// How wide a hyperedge with one target is.
pub const SINGLE: usize = graph::HYPER + graph::TARGET;

// How many bytes that takes.
fn near_width(q: Quantifier) -> usize
    ensures { result ≡ near_width q }
{
    match q {
        Quantifier::Some => SINGLE,
        Quantifier::Every => graph::TARGET,
    }
}

// What EX or AX writes for each of these transitions that it looks at, and how many those are; a successor's node stands shift further on.
// That of every transition up to the last such one is written where the next one belongs, and stays there if it is looked at: no jump
// waits for a weight. Its action and its successor are read at once, as one number.
fn put_nearby(
    room: &mut [u8],
    at: usize,
    q: Quantifier,
    v: u32,
    out: Out,
    look: Look,
    shift: u32,
) -> u64
    requires named { LeadTo out.states (list_of out) }
    requires shift_fits { shift + out.states ≤ 4096 }
    requires inside { at + length (nearby_bytes q v look.low look.high look.most shift (list_of out)) ≤ length room.old }
    ensures value { result ≡ length (keep (is_near look.low look.high look.most) (list_of out.entry)) }
    ensures laid { Laid room.old at (nearby_bytes q v look.low look.high look.most shift (list_of out.entry)) room.new
        (at + result * near_width q) }
{
    let width = near_width(q);
    let mut near: u64 = 0;
    let mut p = out.start();
    let upto = look.last_in(out);
    for _ in 0..upto {
        let both = wire::number_at(out.bytes, p + model::ACTION_AT, Width::Four);
        let here = look.is_near_of(out.bytes, p, both);
        let to = both % wire::TWO_MORE;
        let next = at + (near as usize) * width;
        p += model::TRANSITION;
        put_near(room, next, q, v, to + shift);
        near += here as u64;
    }
    near
}

// The same, by the action: each kind has a call of its own, as in `Out::count_near`.
fn put_looked(
    room: &mut [u8],
    at: usize,
    q: Quantifier,
    v: u32,
    out: Out,
    action: Action,
    most: u32,
    shift: u32,
) -> u64
    requires named { LeadTo out.states (list_of out) }
    requires shift_fits { shift + out.states ≤ 4096 }
    requires inside { at + length (nearby_bytes q v (lowest action) (highest action) most shift (list_of out)) ≤ length room.old }
    ensures value { result ≡ length (keep (is_near (lowest action) (highest action) most) (list_of out.entry)) }
    ensures laid { Laid room.old at (nearby_bytes q v (lowest action) (highest action) most shift (list_of out.entry))
        room.new (at + result * near_width q) }
{
    match action {
        Action::Any => {
            let look = Look {
                low: 0,
                high: transitions::MOST_ACTION,
                most,
            };
            put_nearby(room, at, q, v, out, look, shift)
        }
        Action::Only(k) => {
            let look = Look {
                low: k,
                high: k,
                most,
            };
            put_nearby(room, at, q, v, out, look, shift)
        }
    }
}

// What an until's helper writes for a transition: a hyperedge with left and the successor's helper, or that helper as a target.
fn put_step(
    room: &mut [u8],
    at: usize,
    q: Quantifier,
    v: u32,
    left: u32,
    weight: u32,
    node: u32,
) -> usize
    requires { at + length (step_bytes q v left weight node) ≤ length room.old }
    ensures { Laid room.old at (step_bytes q v left weight node) room.new result }
{
    match q {
        Quantifier::Some => put_pair(room, at, v, left, weight, node),
        Quantifier::Every => put_target(room, at, weight, node),
    }
}

// What an until's helper writes for each of these transitions.
pub fn put_steps(
    room: &mut [u8],
    at: usize,
    q: Quantifier,
    v: u32,
    out: Out,
    left: u32,
    shift: u32,
) -> usize
    requires named { LeadTo out.states (list_of out) }
    requires shift_fits { shift + out.states ≤ 4096 }
    requires inside { at + length (steps_bytes q v left shift (list_of out)) ≤ length room.old }
    ensures { Laid room.old at (steps_bytes q v left shift (list_of out.entry)) room.new result }
{
    let mut next = at;
    let mut p = out.start();
    for _ in 0..out.many {
        let weight = wire::number_at(out.bytes, p + model::WEIGHT_AT, Width::Four);
        let to = wire::number_at(out.bytes, p + model::TO_AT, Width::Two);
        next = put_step(room, next, q, v, left, weight, to + shift);
        p += model::TRANSITION;
    }
    next
}

// A hyperedge without targets, or none.
pub fn put_leaf(room: &mut [u8], at: usize, v: u32, one: bool) -> usize
    requires { at + length (hypers_bytes v (leaf_edges one)) ≤ length room.old }
    ensures { Laid room.old at (hypers_bytes v (leaf_edges one)) room.new result }
{
    if one {
        return put_head(room, at, v, 0);
    }
    at
}

// EX has a hyperedge for each transition that it looks at, AX one with all, whose head is written behind its targets, when their number is known.
pub fn put_next(
    room: &mut [u8],
    at: usize,
    v: u32,
    out: Out,
    q: Quantifier,
    action: Action,
    bound: Bound,
    shift: u32,
) -> usize
    requires named { LeadTo out.states (list_of out) }
    requires shift_fits { shift + out.states ≤ 4096 }
    requires inside { at + length (hypers_bytes v (next_edges q (list_of out) action bound shift)) ≤ length room.old }
    ensures { Laid room.old at (hypers_bytes v (next_edges q (list_of out.entry) action bound shift)) room.new result }
{
    let most = bound.code();
    match q {
        Quantifier::Some => {
            let near = put_looked(room, at, q, v, out, action, most, shift);
            at + (near as usize) * SINGLE
        }
        Quantifier::Every => {
            let targets = at + graph::HYPER;
            let near = put_looked(room, targets, q, v, out, action, most, shift);
            put_head(room, at, v, near as u32);
            targets + (near as usize) * graph::TARGET
        }
    }
}
