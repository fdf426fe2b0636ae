// Where each node is a target: what a change of a node may reach is noted before, and marked when it changes.
#![tactic(auto)]

ghost use Rattle.std.specs.Prelude.{◌≡◌, true, false, ℕ, ◌+◌, ◌<◌, ◌≤◌, List, [], length};
ghost use Rattle.wire.specs.Layout.{items, end, Sound};
ghost use Rattle.graph.specs.Format.{graph_header, hyper_width};
ghost use Rattle.graph.specs.Layouts.{target_layout, hyper_layout};
ghost use Rattle.halves.specs.Room.{Same};
ghost use Rattle.notes.specs.Index.{whole_of, spread_of, slot_of, unnoted, long_for, Noted, Longs, NotedCovers, SameHypers, SameCovers, hyper_noted, cover_noted, more_marks, Everything, Published, Besides};

use graph::{Covers, Hypers};
use wire::Width;

// How many slots there are.
pub const SLOTS: usize = 512;

// The slot of a node.
fn slot(n: usize, v: usize) -> usize
    ensures { (result ≡ slot_of n v) × (result < 512) }
{
    if n <= SLOTS {
        return v % SLOTS;
    }
    v / 8 % SLOTS
}

// Whether a hyperedge of so many targets is long: at least half of the nodes are its targets, so that nearly every change reaches it.
fn is_long(n: usize, count: u32) -> bool
    ensures { result ≡ long_for n count }
{
    if count < 64 {
        return false;
    }
    let k = count as usize;
    n <= k + k
}

// The hyperedges that a changed node may reach: from the first, at a position, to before the last. And the cover edges.
#[derive(Clone, Copy)]
pub struct Marks {
    pub first: u32,
    pub last: u32,
    pub at: usize,
    pub low: u32,
    pub high: u32,
}

impl Marks {
    // Nothing is reached.
    pub const NONE: Marks = Marks {
        first: u32::MAX,
        last: 0,
        at: graph::HEADER,
        low: u32::MAX,
        high: 0,
    };

    // Hyperedge j, at a position, is reached too; none behind it is.
    fn note_hyper(&mut self, j: u32, at: usize)
        requires { j < unnoted }
        ensures { self.new ≡ hyper_noted self.old j at }
    {
        self.last = j + 1;
        if j < self.first {
            self.first = j;
            self.at = at;
        }
    }

    // Cover edge j is reached too; none behind it is.
    fn note_cover(&mut self, j: u32)
        requires { j < unnoted }
        ensures { self.new ≡ cover_noted self.old j }
    {
        self.low = self.low.min(j);
        self.high = j + 1;
    }

    // What others reach is reached too.
    pub fn more(self, other: Marks) -> Marks
        ensures { result ≡ more_marks self other }
    {
        let (first, at) = if other.first < self.first {
            (other.first, other.at)
        } else {
            (self.first, self.at)
        };
        Marks {
            first,
            last: self.last.max(other.last),
            at,
            low: self.low.min(other.low),
            high: self.high.max(other.high),
        }
    }
}

// Nodes in two spans, one behind the other: from lo to before the gap, and from behind it to before hi.
#[derive(Clone, Copy)]
pub struct Span {
    pub lo: usize,
    pub gap: usize,
    pub behind: usize,
    pub hi: usize,
}

impl Span {
    // All nodes from one to before another, without a gap.
    pub fn whole(lo: usize, hi: usize) -> Self
        ensures { result ≡ whole_of lo hi }
    {
        Span {
            lo,
            gap: lo,
            behind: lo,
            hi,
        }
    }

    // What two spans span, in order, with what is between them as the gap; without a gap where they overlap.
    pub fn join(self, other: Span) -> Self
        ensures { result ≡ spread_of self.lo self.hi other.lo other.hi }
    {
        if self.hi <= other.lo {
            return Span {
                lo: self.lo,
                gap: self.hi,
                behind: other.lo,
                hi: other.hi,
            };
        }
        if other.hi <= self.lo {
            return Span {
                lo: other.lo,
                gap: other.hi,
                behind: self.lo,
                hi: self.hi,
            };
        }
        Span::whole(self.lo.min(other.lo), self.hi.max(other.hi))
    }

    // Whether both halves are the same, where they are but for these nodes.
    pub fn unchanged(self, n: usize, room: &[u64]) -> bool
        requires n_in_bounds { n + n ≤ length room.now }
        requires besides { Besides n self room.now }
        ensures { (result ≡ true → Same n room.now) × (result ≡ false → ¬ Same n room.now) }
    {
        if !halves::between(n, self.lo, self.gap, room) {
            return false;
        }
        halves::between(n, self.behind, self.hi, room)
    }
}

// What a change of the nodes of each slot may reach.
#[derive(Drop)]
pub struct Notes {
    pub slots: [Marks; SLOTS],
}

impl Notes {
    // Notes hyperedge j, at position p, for the slots of its k targets.
    fn note(&mut self, s: &[u8], n: usize, j: u32, p: usize, k: u32)
        requires sound { Sound (target_layout s.now n) k (p + hyper_width) }
        requires hyper_width_in_bounds { p + hyper_width ≤ length s.now }
        requires p_value { p ≡ end (hyper_layout s.now n) j graph_header }
        requires j_lt_unnoted { j < unnoted }
        requires noted { Noted s.now n (j + 1) (items (target_layout s.now n) k (p + hyper_width)) self.old.slots }
        ensures noted { Noted s.now n (j + 1) [] self.new.slots }
        ensures covers_kept { SameCovers self.old.slots self.new.slots }
    {
        let mut q = p + graph::HYPER;
        for _ in 0..k {
            let v = wire::number_at(s, q + graph::NODE_AT, Width::Two) as usize;
            let u = slot(n, v);
            q += graph::TARGET;
            self.slots[u].note_hyper(j, p);
        }
    }

    // Notes all hyperedges for the slots of their targets, but for long ones: between which of all these stand is told, since every round
    // takes them in.
    pub fn note_hypers(&mut self, g: Hypers) -> Marks
        requires noted { Noted g.bytes.now g.nodes 0 [] self.old.slots }
        ensures noted { Noted g.entry.bytes.now g.entry.nodes g.entry.count [] self.new.slots }
        ensures covers_kept { SameCovers self.old.slots self.new.slots }
        ensures longs { Longs g.entry.bytes.now g.entry.nodes g.entry.count result }
    {
        let (s, n) = (g.bytes, g.nodes);
        let mut p: usize = graph::HEADER;
        let mut before: u32 = 0;
        let mut stride: usize = graph::HYPER;
        let mut longs = Marks::NONE;
        for j in 0..g.count {
            let count = wire::number_at(s, p + graph::TARGET_COUNT_AT, Width::Two);
            if count == before {
                self.note(s, n, j, p, before);
                p += stride;
            } else if is_long(n, count) {
                longs.note_hyper(j, p);
                p += graph::HYPER + (count as usize) * graph::TARGET;
            } else {
                self.note(s, n, j, p, count);
                before = count;
                stride = graph::HYPER + (count as usize) * graph::TARGET;
                p += stride;
            }
        }
        longs
    }

    // Notes all cover edges for the slots of their targets.
    pub fn note_covers(&mut self, g: Covers)
        requires noted_covers { NotedCovers g.bytes.now g.nodes 0 g.at self.old.slots }
        ensures noted_covers { NotedCovers g.entry.bytes.now g.entry.nodes g.entry.count g.entry.at self.new.slots }
        ensures hypers_kept { SameHypers self.old.slots self.new.slots }
    {
        let mut p = g.at;
        for j in 0..g.count {
            let v = wire::number_at(g.bytes, p + graph::COVER_TARGET_AT, Width::Two) as usize;
            let u = slot(g.nodes, v);
            p += graph::COVER;
            self.slots[u].note_cover(j);
        }
    }

    // The marks of all slots.
    pub fn all(&self) -> Marks
        ensures { Everything self.now.slots 512 result }
    {
        let mut all = Marks::NONE;
        for marks in &self.slots {
            all = all.more(*marks);
        }
        all
    }

    // Brings the first half up to the second from a node to before another, and marks what may change with it.
    fn publish_block(
        &self,
        n: usize,
        from: usize,
        stop: usize,
        marks: Marks,
        room: &mut [u64],
    ) -> Marks
        requires n_in_bounds { n + n ≤ length room.old }
        requires from_le_stop { (from ≤ stop) × (stop ≤ n) }
        ensures { (b₀ : List ℕ) → n + n ≤ length b₀ → Published n from self.now.slots b₀ room.old marks → Published n stop self.now.slots b₀ room.new result }
    {
        let mut m = marks;
        for v in from..stop {
            let value = room[n + v];
            if room[v] != value {
                room[v] = value;
                m = m.more(self.slots[slot(n, v)]);
            }
        }
        m
    }

    // The same in blocks of which most are alike. The blocks are of several lengths, so this is no `for`.
    fn publish_range(
        &self,
        n: usize,
        from: usize,
        stop: usize,
        marks: Marks,
        room: &mut [u64],
    ) -> Marks
        requires n_in_bounds { n + n ≤ length room.old }
        requires from_le_stop { (from ≤ stop) × (stop ≤ n) }
        ensures { (b₀ : List ℕ) → n + n ≤ length b₀ → Published n from self.now.slots b₀ room.old marks → Published n stop self.now.slots b₀ room.new result }
    {
        let mut m = marks;
        let mut v = from;
        while v < stop {
            let k = halves::block(stop - v);
            let start = v;
            v += k;
            if !halves::alike(n, start, k, room) {
                m = self.publish_block(n, start, v, m, room);
            }
        }
        m
    }

    // Brings the first half up to the second, and marks what may change with it.
    fn publish(&self, n: usize, span: Span, room: &mut [u64]) -> Marks
        requires n_in_bounds { n + n ≤ length room.old }
        requires besides { Besides n span room.old }
        ensures { Published n n self.now.slots room.old room.new result }
    {
        let m = self.publish_range(n, span.lo, span.gap, Marks::NONE, room);
        self.publish_range(n, span.behind, span.hi, m, room)
    }

    // As `publish`; where most nodes changed, without a look at each: all slots are marked then.
    pub fn advance(&self, n: usize, span: Span, all: Marks, room: &mut [u64]) -> Marks
        requires n_in_bounds { n + n ≤ length room.old }
        requires besides { Besides n span room.old }
        requires everything { Everything self.now.slots 512 all }
        ensures { Published n n self.now.slots room.old room.new result }
    {
        if mostly_changed(n, span.lo, span.gap, room) {
            halves::raise(n, room);
            return all;
        }
        if mostly_changed(n, span.behind, span.hi, room) {
            halves::raise(n, room);
            return all;
        }
        self.publish(n, span, room)
    }
}

// Whether a span has nearly all nodes, and at least half of the first of them changed. Marks that reach more than they need are right too:
// the answer decides only how they are found.
fn mostly_changed(n: usize, from: usize, to: usize, room: &[u64]) -> bool
    requires n_in_bounds { n + n ≤ length room.now }
    requires from_le_n { (from ≤ n) × (to ≤ n) }
{
    if to < from + (n - n / 8) {
        return false;
    }
    let k = halves::block(to - from);
    let mut many: usize = 0;
    for j in from..from + k {
        if room[j] != room[n + j] {
            many += 1;
        }
    }
    k <= many + many
}
