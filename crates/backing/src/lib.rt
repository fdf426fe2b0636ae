// Whether an edge backs the value that its source claims: what the checker of claims and their writer go by alike. `hyper_rests` is
// inlined, always: with a call in its loop the checker took a third longer on chains.
#![tactic(auto)]

ghost use Rattle.std.specs.Prelude.{◌≡◌, true, false, ◌+◌};
ghost use Rattle.value.specs.Value.{plus};
ghost use Rattle.value.specs.Stored.{stored};
ghost use Rattle.wire.specs.Layout.{items, Sound};
ghost use Rattle.wire.specs.Bytes.{number};
ghost use Rattle.rules.specs.Rounds as rules;
ghost use Rattle.graph.specs.Format.{node_at, cover_target_at};
ghost use Rattle.graph.specs.Layouts.{target_layout, hyper_layout, cover_layout, TargetOk, HyperOk, CoverOk};
ghost use Rattle.support.specs.Claims.{claimed_value, claimed_rank};
ghost use Rattle.support.specs.Backing.{HyperBacks, CoverBacks};

use claimed::{Claims, Given};
use value::{Bound, Value};
use wire::Width;

// Whether the hyperedge at a position, with this source and whose targets give so much and end there, backs its source.
#[inline(always)]
pub fn hyper_rests(s: &[u8], claims: Claims, at: usize, source: usize, given: Given) -> bool
    requires hyper_ok { HyperOk s.now claims.nodes at }
    requires source_value { source ≡ number 2 s.now at }
    requires given_value { given.most ≡ stored (rules.worst (claimed_value claims.bytes.now) ((hyper_layout s.now claims.nodes).item at).targets) }
    requires given_end { given.end ≡ (hyper_layout s.now claims.nodes).next at }
    ensures { let x = claimed_value claims.entry.bytes.now in let rank = claimed_rank claims.entry.bytes.now in
        let e = (hyper_layout s.now claims.entry.nodes).item at in
        (result ≡ true → HyperBacks x rank e) × (result ≡ false → ¬ HyperBacks x rank e) }
{
    let claimed = claims.value(source);
    if given.most != claimed {
        return false;
    }
    if claimed == Value::INFINITE.0 {
        return false;
    }
    claims.ranks_below(s, claims.rank(source), at + graph::HYPER, given.end)
}

// Whether the cover edge at a position, with this target, holds.
pub fn holds(s: &[u8], claims: Claims, at: usize, target: usize) -> bool
    requires cover_ok { CoverOk s.now claims.nodes at }
    requires target_value { target ≡ number 2 s.now (at + cover_target_at) }
    ensures { result ≡ rules.cover_holds (claimed_value claims.entry.bytes.now) ((cover_layout s.now claims.entry.nodes).item at) }
{
    let bound = Bound::coded(wire::number_at(s, at + graph::COVER_BOUND_AT, Width::Four));
    Value(claims.value(target)).within(bound)
}

// Weight plus claimed value of the target at a position.
fn target_sum(s: &[u8], claims: Claims, at: usize) -> Value
    requires { TargetOk s.now claims.nodes at }
    ensures { result.0 ≡ stored (plus (number 4 s.now at) (claimed_value claims.entry.bytes.now (number 2 s.now (at + node_at)))) }
{
    let weight = wire::number_at(s, at, Width::Four);
    let node = wire::number_at(s, at + graph::NODE_AT, Width::Two) as usize;
    Value(claims.value(node)).add(weight)
}

// The greatest weight plus claimed value over k targets at a position; 0 with none. Once it is infinite the targets left are not read. This is
// the writer's own, and counts down by hand: by `Claims::targets_give`, which judges the targets too, or with a `for` that counts up, it took
// a quarter to a third longer on long hyperedges.
fn worst(s: &[u8], claims: Claims, k: u32, at: usize) -> Value
    requires { Sound (target_layout s.now claims.nodes) k at }
    ensures { result.0 ≡ stored (rules.worst (claimed_value claims.entry.bytes.now) (items (target_layout s.now claims.entry.nodes) k at)) }
{
    let mut most = Value(0);
    let mut i = k;
    let mut p = at;
    while 0 < i {
        if most.0 == Value::INFINITE.0 {
            return most;
        }
        most = most.greatest(target_sum(s, claims, p));
        p += graph::TARGET;
        i -= 1;
    }
    most
}

// Whether the hyperedge at a position backs its source.
pub fn hyper_backs(s: &[u8], claims: Claims, at: usize) -> bool
    requires { HyperOk s.now claims.nodes at }
    ensures { let x = claimed_value claims.entry.bytes.now in let rank = claimed_rank claims.entry.bytes.now in
        let e = (hyper_layout s.now claims.entry.nodes).item at in
        (result ≡ true → HyperBacks x rank e) × (result ≡ false → ¬ HyperBacks x rank e) }
{
    let source = wire::number_at(s, at, Width::Two) as usize;
    let count = wire::number_at(s, at + graph::TARGET_COUNT_AT, Width::Two);
    let first = at + graph::HYPER;
    let most = worst(s, claims, count, first).0;
    let end = first + (count as usize) * graph::TARGET;
    hyper_rests(s, claims, at, source, Given { most, end })
}

// Whether the cover edge at a position backs its source.
pub fn cover_backs(s: &[u8], claims: Claims, at: usize) -> bool
    requires { CoverOk s.now claims.nodes at }
    ensures { let x = claimed_value claims.entry.bytes.now in let rank = claimed_rank claims.entry.bytes.now in
        let e = (cover_layout s.now claims.entry.nodes).item at in
        (result ≡ true → CoverBacks x rank e) × (result ≡ false → ¬ CoverBacks x rank e) }
{
    let source = wire::number_at(s, at, Width::Two) as usize;
    let target = wire::number_at(s, at + graph::COVER_TARGET_AT, Width::Two) as usize;
    if !holds(s, claims, at, target) {
        return false;
    }
    if claims.value(source) != 0 {
        return false;
    }
    claims.rank(target) < claims.rank(source)
}
