// What is claimed: of a node, of the targets of a hyperedge, and of all nodes.
#![tactic(auto)]

ghost use Rattle.std.specs.Prelude.{◌≡◌, ℕ, ◌+◌, ◌*◌, ◌<◌, ◌≤◌, true, false, length};
ghost use Rattle.value.specs.Stored.{stored, infinite};
ghost use Rattle.wire.specs.Bytes.{number};
ghost use Rattle.wire.specs.Field.{long_width};
ghost use Rattle.wire.specs.Layout.{items, Sound};
ghost use Rattle.rules.specs.Rounds as rules;
ghost use Rattle.graph.specs.Format.{target_width};
ghost use Rattle.graph.specs.Layouts.{target_layout};
ghost use Rattle.support.specs.Claims.{claim_width, claimed_value, claimed_rank};
ghost use Rattle.claimed.specs.Targets.{Parted, Named, LowerRanks, Marked, Backed, AllBacked};

use value::Value;
use wire::Width;

// Where the rank of a node stands in its claim, and how wide a claim is.
pub const RANK_AT: usize = 8;

pub const CLAIM: usize = 16;

// How many nodes are looked at together at most.
const BLOCK: usize = 64;

// The claims of so many nodes, as they are lent for reading.
#[derive(Clone, Copy)]
pub struct Claims<'a> {
    pub bytes: &'a [u8],
    pub nodes: usize,
    pub ghost all_inside: { nodes * claim_width ≤ length bytes.now },
}

// What the targets of a hyperedge give, and where they end.
#[derive(Clone, Copy)]
pub struct Given {
    pub most: u64,
    pub end: usize,
}

impl<'a> Claims<'a> {
    // The claims of so many nodes that stand in a slice.
    pub fn new(bytes: &'a [u8], nodes: usize) -> Claims<'a>
        requires { nodes * claim_width ≤ length bytes.now }
        ensures { (result.bytes.now ≡ bytes.now) × (result.nodes ≡ nodes) }
    {
        Claims { bytes, nodes }
    }

    // The stored value that is claimed of a node.
    pub fn value(self, v: usize) -> u64
        requires { v < self.nodes }
        ensures { result ≡ number long_width self.entry.bytes.now (v * claim_width) }
    {
        wire::long_at(self.bytes, v * CLAIM)
    }

    // The rank that is claimed of a node.
    pub fn rank(self, v: usize) -> u64
        requires { v < self.nodes }
        ensures { result ≡ claimed_rank self.entry.bytes.now v }
    {
        wire::long_at(self.bytes, v * CLAIM + RANK_AT)
    }

    // The greatest weight plus claimed value over the targets from a position to an end; 0 with none; nothing where one of them names no node.
    // A sum that wraps is infinite. The end is where the loop ended, not computed from their count, which has just been read: so the loop is
    // a `while` that moves the position.
    pub fn targets_give(self, s: &[u8], at: usize, end: usize) -> Option<Given>
        requires { Parted s.now at end }
        ensures { (k : ℕ) → at + k * target_width ≡ end → let L = target_layout s.now self.entry.nodes in
            Named L k at (stored (rules.worst (claimed_value self.entry.bytes.now) (items L k at))) end result }
    {
        let mut most: u64 = 0;
        let mut p = at;
        while p < end {
            let weight = wire::number_at(s, p, Width::Four) as u64;
            let node = wire::number_at(s, p + graph::NODE_AT, Width::Two) as usize;
            if self.nodes <= node {
                return None;
            }
            let value = self.value(node);
            p += graph::TARGET;
            let sum = value.wrapping_add(weight);
            if sum < value {
                return rest_named(s, self.nodes, p, end);
            }
            if most < sum {
                most = sum;
            }
        }
        Some(Given { most, end: p })
    }

    // Whether all targets from a position to an end have a rank below one.
    pub fn ranks_below(self, s: &[u8], rank: u64, at: usize, end: usize) -> bool
        requires { (k : ℕ) × (at + k * target_width ≡ end) × Sound (target_layout s.now self.nodes) k at }
        ensures { (k : ℕ) → at + k * target_width ≡ end
            → LowerRanks self.entry.bytes.now (items (target_layout s.now self.entry.nodes) k at) rank result }
    {
        let mut p = at;
        while p < end {
            let node = wire::number_at(s, p + graph::NODE_AT, Width::Two) as usize;
            let other = self.rank(node);
            p += graph::TARGET;
            if rank <= other {
                return false;
            }
        }
        true
    }

    // Whether every node from one to before another that is claimed finite is marked.
    fn are_backed(self, marks: &[u8; 4096], from: usize, to: usize) -> bool
        requires { (from ≤ to) × (to ≤ self.nodes) × (to ≤ 4096) }
        ensures { (result ≡ true → Backed from to (claimed_value self.entry.bytes.now) marks.now)
            × (result ≡ false → ¬ Backed from to (claimed_value self.entry.bytes.now) marks.now) }
    {
        if are_marked(marks, from, to) {
            return true;
        }
        for v in from..to {
            if marks[v] != 1 && self.value(v) != Value::INFINITE.0 {
                return false;
            }
        }
        true
    }

    // Whether every node that is claimed finite is marked. Mostly all are, and then a block is passed at once.
    pub fn all_backed(self, marks: &[u8; 4096]) -> bool
        requires { self.nodes ≤ 4096 }
        ensures { (result ≡ true → AllBacked self.entry.nodes (claimed_value self.entry.bytes.now) marks.now)
            × (result ≡ false → ¬ AllBacked self.entry.nodes (claimed_value self.entry.bytes.now) marks.now) }
    {
        let mut v = 0;
        while v < self.nodes {
            let to = self.nodes.min(v + BLOCK);
            if !self.are_backed(marks, v, to) {
                return false;
            }
            v = to;
        }
        true
    }
}

// Where one of the targets is infinite: whether each of those that are left names a node.
fn rest_named(s: &[u8], n: usize, at: usize, end: usize) -> Option<Given>
    requires { Parted s.now at end }
    ensures { (k : ℕ) → at + k * target_width ≡ end → Named (target_layout s.now n) k at infinite end result }
{
    let mut p = at;
    while p < end {
        let node = wire::number_at(s, p + graph::NODE_AT, Width::Two) as usize;
        p += graph::TARGET;
        if n <= node {
            return None;
        }
    }
    Some(Given {
        most: Value::INFINITE.0,
        end: p,
    })
}

// Whether the nodes from one to before another are all marked. It never stops early, so that many are looked at at once.
fn are_marked(marks: &[u8; 4096], from: usize, to: usize) -> bool
    requires { (from ≤ to) × (to ≤ 4096) }
    ensures { (result ≡ true → Marked from to marks.now) × (result ≡ false → ¬ Marked from to marks.now) }
{
    let mut unmarked: u8 = 0;
    for mark in &marks[from..to] {
        unmarked |= mark ^ 1;
    }
    unmarked == 0
}
