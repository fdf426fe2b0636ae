// An edge read and judged by the claims at once: it has a fault, or it is fair to them and may back its source.
#![tactic(auto)]

ghost use Rattle.std.specs.Prelude.{◌≡◌, ◌<◌, ◌+◌, ◌*◌, ◌≤◌, length, get_or};
ghost use Rattle.value.specs.Stored.{stored};
ghost use Rattle.wire.specs.Bytes.{number};
ghost use Rattle.wire.specs.Reader.{one};
ghost use Rattle.rules.specs.Rounds as rules;
ghost use Rattle.graph.specs.Format.{most_targets, cover_target_at, cover_width};
ghost use Rattle.graph.specs.Layouts.{hyper_layout, cover_layout, HyperOk, CoverOk};
ghost use Rattle.graph.specs.Message as m;
ghost use Rattle.support.specs.Claims.{claimed_value, claimed_rank};
ghost use Rattle.support.specs.Backing.{HyperFair, HyperBacks, CoverFair, CoverBacks};
ghost use Rattle.edges.specs.Found.{Found, EdgeFound};

use claimed::{Claims, Given};
use wire::{State, Width};

// An edge that is fair to the claims: where the reading stands behind it, and whether it backs its source's value.
#[derive(Clone, Copy)]
pub struct Edge {
    pub next: State,
    pub backs: bool,
}

// Whether the hyperedge at a position, whose targets give so much, backs its source, which isn't asked where the source is marked; nothing
// where it gives less than its source claims.
fn hyper_judged(
    s: &[u8],
    claims: Claims,
    marks: &[u8; 4096],
    at: usize,
    source: usize,
    given: Given,
) -> Option<bool>
    requires hyper_ok { HyperOk s.now claims.nodes at }
    requires source_value { source ≡ number 2 s.now at }
    requires given_value { given.most ≡ stored (rules.worst (claimed_value claims.bytes.now) ((hyper_layout s.now claims.nodes).item at).targets) }
    requires given_end { given.end ≡ (hyper_layout s.now claims.nodes).next at }
    requires nodes_few { claims.nodes ≤ 4096 }
    ensures { let x = claimed_value claims.entry.bytes.now in let e = (hyper_layout s.now claims.entry.nodes).item at in
        Found (HyperFair x e) (HyperBacks x (claimed_rank claims.entry.bytes.now) e) (get_or marks.now e.source 0 ≡ 1) result }
{
    let claimed = claims.value(source);
    if given.most < claimed {
        return None;
    }
    if claimed < given.most {
        return Some(false);
    }
    if marks[source] == 1 {
        return Some(false);
    }
    Some(backing::hyper_rests(s, claims, at, source, given))
}

// The hyperedge where the reading stands: its fixed bytes fit, its source, the running total, its targets' bytes, its targets, what they
// give; nothing where one of these is odd.
pub fn hyper_edge(s: &[u8], claims: Claims, marks: &[u8; 4096], state: State) -> Option<Edge>
    requires at_inside { state.at ≤ length s.now }
    requires prev_known { state.prev ≤ claims.nodes }
    requires nodes_few { claims.nodes ≤ 4096 }
    requires seen_few { state.seen ≤ most_targets }
    ensures { let x = claimed_value claims.entry.bytes.now in let n = claims.entry.nodes in let e = (hyper_layout s.now n).item state.at in
        EdgeFound (one (m.hypers s.now n) state) (HyperFair x e) (HyperBacks x (claimed_rank claims.entry.bytes.now) e)
        (get_or marks.now e.source 0 ≡ 1) result }
{
    let at = state.at;
    let first = at + graph::HYPER;
    if s.len() < first {
        return None;
    }
    let source = wire::number_at(s, at, Width::Two);
    let count = wire::number_at(s, at + graph::TARGET_COUNT_AT, Width::Two) as usize;
    if !wire::follows(source, claims.nodes as u32, state.prev) {
        return None;
    }
    let seen = state.seen + count;
    if graph::MOST_TARGETS < seen {
        return None;
    }
    let end = first + count * graph::TARGET;
    if s.len() < end {
        return None;
    }
    let given = claims.targets_give(s, first, end)?;
    let backs = hyper_judged(s, claims, marks, at, source as usize, given)?;
    Some(Edge {
        next: State {
            at: given.end,
            seen,
            prev: source,
        },
        backs,
    })
}

// Whether the cover edge at a position backs its source; nothing where it holds and its source claims more than 0.
fn cover_judged(s: &[u8], claims: Claims, at: usize, source: usize, target: usize) -> Option<bool>
    requires cover_ok { CoverOk s.now claims.nodes at }
    requires source_value { source ≡ number 2 s.now at }
    requires target_value { target ≡ number 2 s.now (at + cover_target_at) }
    ensures { let x = claimed_value claims.entry.bytes.now in let e = (cover_layout s.now claims.entry.nodes).item at in
        Found (CoverFair x e) (CoverBacks x (claimed_rank claims.entry.bytes.now) e) ⊥ result }
{
    if !backing::holds(s, claims, at, target) {
        return Some(false);
    }
    if 0 < claims.value(source) {
        return None;
    }
    Some(claims.rank(target) < claims.rank(source))
}

// The cover edge where the reading stands, whose bytes fit: its source, its target, and whether it holds; nothing where one of these is odd.
pub fn cover_edge(s: &[u8], claims: Claims, state: State) -> Option<Edge>
    requires at_inside { state.at + cover_width ≤ length s.now }
    requires prev_known { state.prev ≤ claims.nodes }
    requires nodes_fit { claims.nodes < 4294967296 }
    ensures { let x = claimed_value claims.entry.bytes.now in let n = claims.entry.nodes in let e = (cover_layout s.now n).item state.at in
        EdgeFound (one (m.covers s.now n) state) (CoverFair x e) (CoverBacks x (claimed_rank claims.entry.bytes.now) e) ⊥ result }
{
    let at = state.at;
    let n = claims.nodes as u32;
    let source = wire::number_at(s, at, Width::Two);
    if !wire::follows(source, n, state.prev) {
        return None;
    }
    let target = wire::number_at(s, at + graph::COVER_TARGET_AT, Width::Two);
    if n <= target {
        return None;
    }
    let backs = cover_judged(s, claims, at, source as usize, target as usize)?;
    Some(Edge {
        next: State {
            at: at + graph::COVER,
            seen: state.seen,
            prev: source,
        },
        backs,
    })
}
