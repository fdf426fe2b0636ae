// What the targets of a hyperedge give: the greatest weight plus value over them.
#![tactic(auto)]

ghost use Rattle.std.specs.Prelude.{◌≡◌, ℕ, ◌+◌, ◌*◌, ◌≤◌, min, length};
ghost use Rattle.wire.specs.Bytes.{number};
ghost use Rattle.wire.specs.Layout.{items, Sound};
ghost use Rattle.value.specs.Value.{plus};
ghost use Rattle.value.specs.Stored.{stored};
ghost use Rattle.rules.specs.Rounds as rules;
ghost use Rattle.graph.specs.Format.{node_at, target_width};
ghost use Rattle.graph.specs.Layouts.{target_layout, TargetOk};
ghost use Rattle.halves.specs.Held.{held};
ghost use Rattle.targets.specs.Below.{below};

use value::Value;
use wire::Width;

// Weight plus value of the target at a position.
fn target_sum(s: &[u8], n: usize, x: &[u64], at: usize) -> Value
    requires target_ok { TargetOk s.now n at }
    requires n_in_bounds { n ≤ length x.now }
    ensures { result.0 ≡ stored (plus (number 4 s.now at) (held x.now (number 2 s.now (at + node_at)))) }
{
    let weight = wire::number_at(s, at, Width::Four);
    let node = wire::number_at(s, at + graph::NODE_AT, Width::Two) as usize;
    let value = x[node];
    Value(value).add(weight)
}

// The greatest weight plus value over k targets at a position; 0 with none. The first stands before the loop: many have no other.
// Once one is infinite so is the greatest, and the targets left are not read.
pub fn worst(s: &[u8], n: usize, x: &[u64], k: u32, at: usize) -> Value
    requires sound { Sound (target_layout s.now n) k at }
    requires n_in_bounds { n ≤ length x.now }
    ensures { result.0 ≡ stored (rules.worst (held x.now) (items (target_layout s.now n) k at)) }
{
    if k == 0 {
        return Value(0);
    }
    let mut most = target_sum(s, n, x, at);
    let mut p = at + graph::TARGET;
    for _ in 1..k {
        if most.0 == Value::INFINITE.0 {
            return most;
        }
        let sum = target_sum(s, n, x, p);
        most = most.greatest(sum);
        p += graph::TARGET;
    }
    most
}

// How far weight plus value of the target at a position stays below infinity; 0 where it is infinite.
fn below_infinite(s: &[u8], n: usize, x: &[u64], at: usize) -> u64
    requires target_ok { TargetOk s.now n at }
    requires n_in_bounds { n ≤ length x.now }
    ensures { result ≡ below (held x.now) (items (target_layout s.now n) 1 at) }
{
    let weight = wire::number_at(s, at, Width::Four) as u64;
    let node = wire::number_at(s, at + graph::NODE_AT, Width::Two) as usize;
    let value = x[node];
    let below = Value::INFINITE.0 - value;
    if below <= weight {
        return 0;
    }
    below - weight
}

// How far the greatest of four targets stays below infinity: the least of the four. Each is tested for 0, so that the compiler leaves off
// where `below_infinite` finds one infinite.
fn below_four(s: &[u8], n: usize, x: &[u64], at: usize) -> u64
    requires sound { Sound (target_layout s.now n) 4 at }
    requires n_in_bounds { n ≤ length x.now }
    ensures { result ≡ below (held x.now) (items (target_layout s.now n) 4 at) }
{
    let second = at + graph::TARGET;
    let third = second + graph::TARGET;
    let fourth = third + graph::TARGET;
    let a = below_infinite(s, n, x, at);
    let b = below_infinite(s, n, x, second);
    let c = below_infinite(s, n, x, third);
    let d = below_infinite(s, n, x, fourth);
    if a == 0 {
        return 0;
    }
    if b == 0 {
        return 0;
    }
    if c == 0 {
        return 0;
    }
    if d == 0 {
        return 0;
    }
    let front = a.min(b);
    let back = c.min(d);
    front.min(back)
}

// How wide four targets are.
const FOUR: usize = 4 * graph::TARGET;

// The same of all targets from a position to an end, where they are so many fours. Once it is 0 the others are not read.
// (A `for` over `step_by` ends also where the next position would not fit, and of that a proof learns nothing.)
fn least_of_fours(s: &[u8], n: usize, x: &[u64], at: usize, end: usize) -> u64
    requires whole_number { (k : ℕ) × (at + k * (4 * target_width) ≡ end) × Sound (target_layout s.now n) (k * 4) at }
    requires n_in_bounds { n ≤ length x.now }
    ensures { (k : ℕ) → at + k * (4 * target_width) ≡ end → result ≡ below (held x.now) (items (target_layout s.now n) (k * 4) at) }
{
    let mut least = Value::INFINITE.0;
    let mut p = at;
    while p < end {
        let four = below_four(s, n, x, p);
        if four == 0 {
            return 0;
        }
        p += FOUR;
        least = least.min(four);
    }
    least
}

// The same of all targets from a position to an end, or a number given where that is less. In one function with the last, what a turn
// reads and how far it goes would be parameters, and no line fewer.
fn least_with(s: &[u8], n: usize, x: &[u64], at: usize, end: usize, before: u64) -> u64
    requires whole_number { (k : ℕ) × (at + k * target_width ≡ end) × Sound (target_layout s.now n) k at }
    requires n_in_bounds { n ≤ length x.now }
    ensures { (k : ℕ) → at + k * target_width ≡ end → result ≡ min before (below (held x.now) (items (target_layout s.now n) k at)) }
{
    let mut least = before;
    let mut p = at;
    while p < end {
        let one = below_infinite(s, n, x, p);
        if one == 0 {
            return 0;
        }
        p += graph::TARGET;
        least = least.min(one);
    }
    least
}

// The same as `worst`, for many targets. What is kept is how far the greatest stays below infinity, the least of those of the targets: a
// processor finds a least in fewer steps than a greatest. Four are read in a turn, and those left over one by one.
pub fn worst_of_many(s: &[u8], n: usize, x: &[u64], k: u32, at: usize) -> Value
    requires sound { Sound (target_layout s.now n) k at }
    requires n_in_bounds { n ≤ length x.now }
    ensures { result.0 ≡ stored (rules.worst (held x.now) (items (target_layout s.now n) k at)) }
{
    let fours = k / 4;
    let left = at + (fours as usize) * FOUR;
    let among = least_of_fours(s, n, x, at, left);
    if among == 0 {
        return Value::INFINITE;
    }
    let end = at + (k as usize) * graph::TARGET;
    let least = least_with(s, n, x, left, end, among);
    let most = Value::INFINITE.0 - least;
    Value(most)
}
