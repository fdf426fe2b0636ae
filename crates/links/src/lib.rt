// Where each node is a target, linked: the chain of a node leads to the records that have it as a target. For graphs small enough.
#![tactic(auto)]

ghost use Rattle.std.specs.Prelude.{◌≡◌, true, ℕ, ◌+◌, ◌*◌, ◌<◌, ◌≤◌, [], length};
ghost use Rattle.wire.specs.Layout.{items, end, Sound};
ghost use Rattle.wire.specs.Bytes.{number};
ghost use Rattle.graph.specs.Format.{graph_header, hyper_width, target_width, cover_target_at, cover_width};
ghost use Rattle.graph.specs.Layouts.{target_layout, hyper_layout};
ghost use Rattle.links.specs.Links.{Fits, Long, Linked, Index};

use graph::Scanned;
use wire::Width;

// A place at which a node is a target: the place before it on the node's chain, where its record stands, and the record's source. Who
// follows a chain reads all three at once, and short lists of one kind would fall on one another in the processor's cache. A link of 0 is
// none, and k + 1 is place k: an Option of it would take two bytes more.
#[derive(Clone, Copy)]
pub struct Place {
    pub link: u16,
    pub spot: u16,
    pub source: u32,
}

impl Place {
    pub const NONE: Place = Place {
        link: 0,
        spot: 0,
        source: 0,
    };
}

// The lists of the chains: a link to the last place of each node, and the places.
#[derive(Drop)]
pub struct Lists<const M: usize> {
    pub heads: [u16; M],
    pub places: [Place; M],
}

// How much a source counts in the number that all bytes of a cover edge make: six bytes stand behind it.
const ABOVE_SOURCE: u64 = 281474976710656;

// Whether a graph is small enough for lists of a length: its nodes, its targets and cover edges, and the positions of its records.
pub fn fit(nodes: usize, hypers: u32, covers: u32, middle: usize, most: u16) -> bool
    ensures { result ≡ true → Fits nodes hypers covers middle most }
{
    let places = most as usize;
    if places < nodes {
        return false;
    }
    if 65535 < middle {
        return false;
    }
    let edges = covers as usize;
    let end = middle + edges * graph::COVER;
    if 65535 < end {
        return false;
    }
    let fixed = (hypers as usize) * graph::HYPER;
    middle + edges * graph::TARGET <= graph::HEADER + fixed + places * graph::TARGET
}

// Links the k targets of the hyperedge at position p, from a place on, and gives the place behind them, where the loop over them comes
// to. All of them are nodes: the test of it never fails, but where it stands the compiler reads a node as one number, and not as two bytes.
fn link(
    g: Scanned,
    p: usize,
    k: u32,
    place: usize,
    heads: &mut [u16],
    places: &mut [Place],
) -> usize
    requires sound { Sound (target_layout g.bytes.now g.nodes) k (p + hyper_width) }
    requires inside { p + hyper_width ≤ length g.bytes.now }
    requires long { Long g.nodes (length places.old) heads.old places.old }
    requires room { (p ≤ 65535) × (place + k ≤ length places.old) }
    ensures value { result ≡ place + k }
    ensures linked { (most j : ℕ) → p ≡ end (hyper_layout g.entry.bytes.now g.entry.nodes) j graph_header
        → Linked g.entry.bytes.now g.entry.nodes g.entry.middle most (j + 1)
        (items (target_layout g.entry.bytes.now g.entry.nodes) k (p + hyper_width)) 0 place heads.old places.old
        → Linked g.entry.bytes.now g.entry.nodes g.entry.middle most (j + 1) [] 0 (place + k) heads.new places.new }
{
    let source = wire::number_at(g.bytes, p, Width::Two);
    let first = p + graph::HYPER;
    let mut at = place;
    for i in 0..k as usize {
        let target = first + i * graph::TARGET;
        let v = wire::number_at(g.bytes, target + graph::NODE_AT, Width::Two) as usize;
        if g.nodes <= v {
            return at;
        }
        places[at] = Place {
            link: heads[v],
            spot: p as u16,
            source,
        };
        at += 1;
        heads[v] = at as u16;
    }
    at
}

// Links the targets of all hyperedges, and gives how many they are. The next position is told by the places that were linked, and not by
// the count: so it need not wait for the count to be read.
fn link_hypers(g: Scanned, heads: &mut [u16], places: &mut [Place]) -> usize
    requires middle_small { (g.middle ≤ 65535) × (g.middle ≤ graph_header + g.hypers * hyper_width + length places.old * target_width) }
    requires nothing { Linked g.bytes.now g.nodes g.middle (length places.old) 0 [] 0 0 heads.old places.old }
    ensures many { g.entry.middle ≡ graph_header + g.entry.hypers * hyper_width + result * target_width }
    ensures linked { Linked g.entry.bytes.now g.entry.nodes g.entry.middle (length places.old) g.entry.hypers [] 0 result heads.new places.new }
{
    let mut p: usize = graph::HEADER;
    let mut place: usize = 0;
    for j in 0..g.hypers {
        let count = wire::number_at(g.bytes, p + graph::TARGET_COUNT_AT, Width::Two);
        let next = link(g, p, count, place, heads, places);
        p += graph::HYPER + (next - place) * graph::TARGET;
        place = next;
    }
    place
}

// The source and the target of a cover edge, which stand at the ends of its eight bytes: one read for both.
fn cover_ends(s: &[u8], edge: usize) -> (u32, usize)
    requires { edge + cover_width ≤ length s.now }
    ensures { (result.0 ≡ number 2 s.now edge) × (result.1 ≡ number 2 s.now (edge + cover_target_at)) × (result.1 < 65536) }
{
    let whole = wire::long_at(s, edge);
    let source = (whole / ABOVE_SOURCE) as u32;
    let target = (whole % wire::TWO_MORE_LONG) as usize;
    (source, target)
}

// Links the targets of all cover edges, from a place on, behind those of the hyperedges.
fn link_covers(g: Scanned, place: usize, heads: &mut [u16], places: &mut [Place])
    requires room { (g.middle + g.covers * cover_width ≤ 65535) × (place + g.covers ≤ length places.old) }
    requires linked { Linked g.bytes.now g.nodes g.middle (length places.old) g.hypers [] 0 place heads.old places.old }
    ensures { Index g.entry.bytes.now g.entry.nodes g.entry.hypers g.entry.covers g.entry.middle (length places.old) heads.new places.new }
{
    let mut edge = g.middle;
    let mut at = place;
    for j in 0..g.covers {
        let ends = cover_ends(g.bytes, edge);
        let target = ends.1;
        places[at] = Place {
            link: heads[target],
            spot: edge as u16,
            source: ends.0,
        };
        at += 1;
        heads[target] = at as u16;
        edge += graph::COVER;
    }
}

// Links all places of a graph that is small enough, in lists of any length where none is linked yet. A place tells the source of its
// record too: who follows a chain reads it beside the position, and need not wait for the message to say it.
pub fn link_all(g: Scanned, heads: &mut [u16], places: &mut [Place])
    requires fits { Fits g.nodes g.hypers g.covers g.middle (length places.old) }
    requires nothing { Linked g.bytes.now g.nodes g.middle (length places.old) 0 [] 0 0 heads.old places.old }
    ensures { Index g.entry.bytes.now g.entry.nodes g.entry.hypers g.entry.covers g.entry.middle (length places.old) heads.new places.new }
{
    let place = link_hypers(g, heads, places);
    link_covers(g, place, heads, places);
}

impl<const M: usize> Lists<M> {
    // The same in lists that are equally long.
    pub fn link_all(&mut self, g: Scanned)
        requires fits { Fits g.nodes g.hypers g.covers g.middle M }
        requires nothing { Linked g.bytes.now g.nodes g.middle M 0 [] 0 0 self.old.heads self.old.places }
        ensures { Index g.entry.bytes.now g.entry.nodes g.entry.hypers g.entry.covers g.entry.middle M self.new.heads self.new.places }
    {
        link_all(g, &mut self.heads, &mut self.places);
    }
}
