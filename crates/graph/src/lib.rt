// The check of a graph message: the first fault in the paper's order, or the counts of its header.
#![tactic(auto)]

ghost use Rattle.std.specs.Prelude.{◌≡◌, ◌+◌, ◌-◌, ◌*◌, ◌/◌, ◌≤◌, length};
ghost use Rattle.wire.specs.Bytes.{Bytes, number};
ghost use Rattle.wire.specs.Reader.{one, run};
ghost use Rattle.graph.specs.Message as m;
ghost use Rattle.graph.specs.Answers.{checked};
ghost use Rattle.graph.specs.Names.{target_named, all_named, past_fours, four_width, fours, covers_in_order, covers_to_end};
ghost use Rattle.graph.specs.Near.{greatest, gathered, pass, sound, MayRead, ReadsAs};
ghost use Rattle.graph.specs.Format.{nodes_count, most_targets, hyper_width, node_at, target_width};

mod view;

use refusal::{Fault, Refusal};
pub use view::{Covers, Graph, Hypers, Records, Scanned};
use wire::{Count, Head, State, Width};

// The header of a graph message: how long it is, its version and kind, and where its counts stand.
pub const HEADER: usize = 14;

pub const VERSION: u32 = 1;

pub const KIND: u32 = 1;

pub const NODES_AT: usize = 6;

pub const HYPERS_AT: usize = 8;

pub const COVERS_AT: usize = 12;

const HEAD: Head = Head {
    length: HEADER,
    version: VERSION,
    kind: KIND,
};

const NODES: Count = Count {
    at: NODES_AT,
    width: Width::Two,
    least: 1,
    most: 4096,
};

const HYPERS: Count = Count {
    at: HYPERS_AT,
    width: Width::Four,
    least: 0,
    most: 65535,
};

const COVERS: Count = Count {
    at: COVERS_AT,
    width: Width::Two,
    least: 0,
    most: 4096,
};

// The most targets of all hyperedges together.
pub const MOST_TARGETS: usize = 262144;

// Where the target count of a hyperedge stands, and how wide its fixed bytes are.
pub const TARGET_COUNT_AT: usize = 2;

pub const HYPER: usize = TARGET_COUNT_AT + 2;

// Where the node of a target stands, how wide a target is, and how wide four are.
pub const NODE_AT: usize = 4;

pub const TARGET: usize = NODE_AT + 2;

const FOUR: usize = 4 * TARGET;

// How many bytes ahead hyperedges are passed together: at most so much is read twice where one of them is at fault.
const NEAR: usize = 4096;

// Fewer hyperedges than this are read one by one, and one that has as many targets as this or more is read by itself.
const FEW: usize = 4;

const MANY: u32 = 32;

// Where the bound and the target of a cover edge stand, and how wide it is.
pub const COVER_BOUND_AT: usize = 2;

pub const COVER_TARGET_AT: usize = COVER_BOUND_AT + 4;

pub const COVER: usize = COVER_TARGET_AT + 2;

// How many nodes, hyperedges, cover edges and targets of all hyperedges a message has. Its header tells no targets: there they are 0.
#[derive(Clone, Copy, Debug, PartialEq, Eq)]
pub struct Counts {
    pub nodes: u32,
    pub hypers: u32,
    pub covers: u32,
    pub targets: u32,
}

// A message and how many nodes its header tells: what its records are read with.
#[derive(Clone, Copy)]
struct Reading<'a> {
    bytes: &'a [u8],
    nodes: u32,
    ghost few_nodes: { nodes ≤ nodes_count.most },
    ghost are_bytes: { Bytes bytes.now },
}

// A reading of hyperedges: where it stands, and how many are left.
#[derive(Clone, Copy)]
struct Rest {
    st: State,
    left: usize,
}

// Targets that were gathered: where those behind them start, and the greatest of what was read of them.
#[derive(Clone, Copy)]
struct Gathered {
    at: usize,
    most: u32,
}

// Hyperedges that were passed: those behind them, and the greatest of what was read of their targets.
#[derive(Clone, Copy)]
struct Passed {
    rest: Rest,
    most: u32,
}

impl<'a> Reading<'a> {
    // One target, whose bytes fit.
    fn target(self, st: State) -> Result<State, Fault>
        requires { st.at + target_width ≤ length self.bytes.now }
        ensures { result ≡ one (m.targets self.entry.bytes.now self.entry.nodes) st }
    {
        let at = st.at;
        let end = at + TARGET;
        let misnamed = Fault {
            refusal: Refusal::Name,
            offset: at + NODE_AT,
        };
        let n = self.nodes as u64;
        wire::read_below(&self.bytes[at..end], NODE_AT, Width::Two, n, misnamed)?;
        Ok(State { at: end, ..st })
    }

    // Whether the target here names a node. It is read with the two bytes behind it, for the same reason as in `ordered::next_source`. Here and
    // below no caller sees which fault is told.
    fn named(self, at: usize) -> bool
        requires { at + node_at + 4 ≤ length self.bytes.now }
        ensures { result ≡ target_named self.entry.bytes.now self.entry.nodes at }
    {
        let end = at + NODE_AT + 4;
        let limit = (self.nodes as u64) * wire::TWO_MORE_LONG;
        let both = &self.bytes[at..end];
        wire::read_below(both, NODE_AT, Width::Four, limit, refusal::NAME).is_ok()
    }

    // Whether four targets do. The last is read alone, since nothing need stand behind it.
    fn four_named(self, at: usize) -> bool
        requires { at + four_width ≤ length self.bytes.now }
        ensures { result ≡ all_named self.entry.bytes.now self.entry.nodes 4 at }
    {
        let second = at + TARGET;
        let third = second + TARGET;
        let last = third + TARGET;
        let end = last + TARGET;
        let alone = &self.bytes[last..end];
        let n = self.nodes as u64;
        self.named(at)
            && self.named(second)
            && self.named(third)
            && wire::read_below(alone, NODE_AT, Width::Two, n, refusal::NAME).is_ok()
    }

    // The position behind all fours of targets that fit, if all of these name nodes, and else the first. The place that was reached is not given
    // back: to have it, the compiler would take a read apart.
    fn past_fours(self, first: usize, end: usize) -> usize
        requires { (first ≤ end) × (end ≤ length self.bytes.now) }
        ensures { result ≡ past_fours self.entry.bytes.now self.entry.nodes first end }
    {
        let mut at = first;
        while at + FOUR <= end {
            if !self.four_named(at) {
                return first;
            }
            at += FOUR;
        }
        at
    }

    // k targets, whose bytes fit: fours that name nodes are passed, and the rest is taken one by one, which finds the first fault. The loops move
    // the position, so what stands behind them need not wait for their count.
    fn targets(self, k: u32, first: State) -> Result<State, Fault>
        requires { first.at + k * target_width ≤ length self.bytes.now }
        ensures { result ≡ run (m.targets self.entry.bytes.now self.entry.nodes) k first }
    {
        let end = first.at + (k as usize) * TARGET;
        let at = self.past_fours(first.at, end);
        let mut st = State { at, ..first };
        while st.at < end {
            st = self.target(st)?;
        }
        Ok(st)
    }

    // One hyperedge: its fixed bytes fit, then its source, then its count, which has what is left of the limit of all targets.
    fn hyper(self, st: State) -> Result<State, Fault>
        requires { (st.at ≤ length self.bytes.now) × (st.seen ≤ most_targets) × (st.prev ≤ self.nodes) }
        ensures { result ≡ one (m.hypers self.entry.bytes.now self.entry.nodes) st }
    {
        let at = st.at;
        let end = at + HYPER;
        if self.bytes.len() < end {
            return Err(wire::SHORT);
        }
        let source = wire::read_source(&self.bytes[at..end], 0, self.nodes, st.prev, at)?;
        let count_at = at + TARGET_COUNT_AT;
        let over = Fault {
            refusal: Refusal::Limit,
            offset: count_at,
        };
        let limit = (MOST_TARGETS + 1 - st.seen) as u64;
        let count = wire::read_below(
            &self.bytes[at..end],
            TARGET_COUNT_AT,
            Width::Two,
            limit,
            over,
        )?;
        self.hyper_targets(st, source, count)
    }

    // The targets of a hyperedge of this source and so many targets, which are not too many.
    fn hyper_targets(self, st: State, source: u32, count: u32) -> Result<State, Fault>
        requires { (st.at + hyper_width ≤ length self.bytes.now) × (st.seen + count ≤ most_targets) }
        ensures { result ≡ m.after_targets self.entry.bytes.now self.entry.nodes st source count }
    {
        let first = st.at + HYPER;
        let end = first + (count as usize) * TARGET;
        if self.bytes.len() < end {
            return Err(wire::SHORT);
        }
        let past = self.targets(count, State { at: first, ..st })?;
        Ok(State {
            at: past.at,
            seen: st.seen + (count as usize),
            prev: source,
        })
    }

    // The node of a target with the two bytes behind it, which is below n * 65536 exactly when the node is below n.
    fn both(self, at: usize) -> u32
        requires { at + node_at + 4 ≤ length self.bytes.now }
        ensures { result ≡ number 4 self.entry.bytes.now (at + node_at) }
    {
        wire::number_at(self.bytes, at + NODE_AT, Width::Four)
    }

    // The greatest of these of four targets. They are compared in pairs, so that none waits for all that were before it.
    fn greatest_of_four(self, at: usize) -> u32
        requires { at + four_width + 2 ≤ length self.bytes.now }
        ensures { result ≡ greatest self.entry.bytes.now 4 at }
    {
        let next = at + TARGET;
        let after = next + TARGET;
        let last = after + TARGET;
        let front = self.both(at).max(self.both(next));
        let back = self.both(after).max(self.both(last));
        front.max(back)
    }

    // All fours of targets that fit are gathered. Each takes one jump, where a test of each target takes four: what jumps cost hangs on where they lie.
    fn gather_fours(self, from: Gathered, end: usize) -> Gathered
        requires { (from.at ≤ end) × (end + 2 ≤ length self.bytes.now) }
        ensures { result ≡ gathered self.entry.bytes.now (fours from.at end * 4) from }
    {
        let mut so_far = from;
        while so_far.at + FOUR <= end {
            let most = so_far.most.max(self.greatest_of_four(so_far.at));
            so_far = Gathered {
                at: so_far.at + FOUR,
                most,
            };
        }
        so_far
    }

    // Targets are gathered one by one, up to where they end.
    fn gather(self, from: Gathered, end: usize) -> Gathered
        requires { (end ≡ from.at + (end - from.at) / target_width * target_width) × (end + 2 ≤ length self.bytes.now) }
        ensures { result ≡ gathered self.entry.bytes.now ((end - from.at) / target_width) from }
    {
        let mut so_far = from;
        while so_far.at < end {
            let most = so_far.most.max(self.both(so_far.at));
            so_far = Gathered {
                at: so_far.at + TARGET,
                most,
            };
        }
        so_far
    }

    // One hyperedge more is passed, if one is left, it has not many targets, it ends at the last place or before, and its source is not below the
    // one before.
    fn pass(self, p: Passed, last: usize) -> Option<Passed>
        requires { (p.rest.st.at ≤ last) × (last + hyper_width ≤ length self.bytes.now) × (p.rest.st.seen ≤ most_targets + p.rest.st.at) }
        ensures { result ≡ pass self.entry.bytes.now last p }
    {
        let st = p.rest.st;
        let source = wire::number_at(self.bytes, st.at, Width::Two);
        let count = wire::number_at(self.bytes, st.at + TARGET_COUNT_AT, Width::Two);
        let first = st.at + HYPER;
        let end = first + (count as usize) * TARGET;
        if p.rest.left == 0 || MANY <= count || last < end || source < st.prev {
            return None;
        }
        let fours = self.gather_fours(
            Gathered {
                at: first,
                most: p.most,
            },
            end,
        );
        let all = self.gather(fours, end);
        let past = State {
            at: all.at,
            seen: st.seen + (count as usize),
            prev: source,
        };
        Some(Passed {
            rest: Rest {
                st: past,
                left: p.rest.left - 1,
            },
            most: all.most,
        })
    }

    // Whether those that were passed name nodes alone, and their targets are not too many. Sources do not fall, so the last is the greatest.
    fn sound(self, p: Passed) -> bool
        ensures { result ≡ sound self.entry.nodes p }
    {
        (p.most as u64) < (self.nodes as u64) * wire::TWO_MORE_LONG
            && p.rest.st.prev < self.nodes
            && p.rest.st.seen <= MOST_TARGETS
    }

    // Passes hyperedges that are near, up to the first that can't be passed, so that what is left reads as all do. None is passed where one of them
    // names no node or has a target too many. It is not inlined: by itself it has all registers, and its jumps lie where no caller moves them.
    #[inline(never)]
    fn near(self, rest: Rest) -> Rest
        requires { MayRead self.bytes.now self.nodes rest }
        ensures { ReadsAs self.entry.bytes.now self.entry.nodes rest result }
    {
        let at = rest.st.at;
        let end = self.bytes.len().min(at + NEAR + HYPER);
        if end < at + HYPER {
            return rest;
        }
        let last = end - HYPER;
        let mut p = Passed { rest, most: 0 };
        while let Some(next) = self.pass(p, last) {
            p = next;
        }
        if self.sound(p) { p.rest } else { rest }
    }

    // What is left behind those that are near, unless few are left or they are to be read one by one up to a place that was not reached.
    fn onward(self, st: State, left: usize, alone_until: usize) -> Rest
        requires { (st.at ≤ length self.bytes.now) × (st.seen ≤ most_targets) × (st.prev ≤ self.nodes) }
        ensures { ReadsAs self.entry.bytes.now self.entry.nodes record { st = st; left = left } result }
    {
        if left < FEW || st.at < alone_until {
            Rest { st, left }
        } else {
            self.near(Rest { st, left })
        }
    }

    // k hyperedges: one is read by itself, which finds a fault, and those that are near behind it are passed together. Where none could be passed,
    // as before a fault, those that are near are read one by one.
    fn hypers(self, k: u32, first: State) -> Result<State, Fault>
        requires { (first.at ≤ length self.bytes.now) × (first.seen ≤ most_targets) × (first.prev ≤ self.nodes) }
        ensures { result ≡ run (m.hypers self.entry.bytes.now self.entry.nodes) k first }
    {
        let mut alone_until = 0;
        let mut rest = Rest {
            st: first,
            left: k as usize,
        };
        while 0 < rest.left {
            let st = self.hyper(rest.st)?;
            let left = rest.left - 1;
            rest = self.onward(st, left, alone_until);
            if rest.left == left && alone_until <= st.at {
                alone_until = st.at + NEAR;
            }
        }
        Ok(rest.st)
    }

    // One cover edge: its bytes fit, then its source and its target.
    fn cover(self, st: State) -> Result<State, Fault>
        requires { (st.at ≤ length self.bytes.now) × (st.prev ≤ self.nodes) }
        ensures { result ≡ one (m.covers self.entry.bytes.now self.entry.nodes) st }
    {
        let at = st.at;
        let end = at + COVER;
        if self.bytes.len() < end {
            return Err(wire::SHORT);
        }
        let source = wire::read_source(&self.bytes[at..end], 0, self.nodes, st.prev, at)?;
        let misnamed = Fault {
            refusal: Refusal::Name,
            offset: at + COVER_TARGET_AT,
        };
        let n = self.nodes as u64;
        wire::read_below(
            &self.bytes[at..end],
            COVER_TARGET_AT,
            Width::Two,
            n,
            misnamed,
        )?;
        Ok(State {
            at: end,
            prev: source,
            ..st
        })
    }

    // k cover edges.
    fn covers(self, k: u32, first: State) -> Result<State, Fault>
        requires { (first.at ≤ length self.bytes.now) × (first.prev ≤ self.nodes) }
        ensures { result ≡ run (m.covers self.entry.bytes.now self.entry.nodes) k first }
    {
        wire::run(k, first, |st| self.cover(st))
    }

    // Whether the message ends behind c cover edges that are in order.
    #[tactic(auto, unfolding(crate::specs::Names::covers_in_order))]
    fn covers_in_order(self, c: u32, first: usize) -> bool
        requires { first ≤ length self.bytes.now }
        ensures { result ≡ covers_in_order self.entry.bytes.now self.entry.nodes c first }
    {
        let end = first + (c as usize) * COVER;
        self.bytes.len() == end
            && ordered::in_order(self.bytes, self.nodes, COVER_TARGET_AT, c, first)
    }

    // The c cover edges, and nothing left over. They are read one by one only where they are not in order, which finds the first fault.
    fn covers_to_end(self, c: u32, first: usize) -> Result<(), Fault>
        requires { first ≤ length self.bytes.now }
        ensures { result ≡ covers_to_end self.entry.bytes.now self.entry.nodes c first }
    {
        if self.covers_in_order(c, first) {
            return Ok(());
        }
        let last = self.covers(c, State::start(first))?;
        if last.at != self.bytes.len() {
            return Err(wire::SHORT);
        }
        Ok(())
    }
}

// The header: its counts, and no target yet.
#[tactic(auto, using(wire::proofs::Reading::reading), unfolding(crate::specs::Message::read_header))]
pub fn header(s: &[u8]) -> Result<Counts, Fault>
    ensures { result ≡ m.read_header s.now }
{
    wire::open(s, HEAD)?;
    let nodes = wire::read_count(s, NODES)?;
    let hypers = wire::read_count(s, HYPERS)?;
    let covers = wire::read_count(s, COVERS)?;
    Ok(Counts {
        nodes,
        hypers,
        covers,
        targets: 0,
    })
}

// A whole graph message: the counts of its header and its targets, or its first fault.
pub fn check(s: &[u8]) -> Result<Counts, Fault>
    ensures { result ≡ checked (m.read_graph s.now) }
{
    let counts = header(s)?;
    let reading = Reading {
        bytes: s,
        nodes: counts.nodes,
    };
    let last = reading.hypers(counts.hypers, State::start(HEADER))?;
    reading.covers_to_end(counts.covers, last.at)?;
    Ok(Counts {
        targets: last.seen as u32,
        ..counts
    })
}
