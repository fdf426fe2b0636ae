// Whether some cycle of a graph passes through a cover edge, by depth labels that are written over.
#![tactic(auto)]

ghost use Rattle.std.specs.Prelude.{◌≡◌, true, false, ℕ, ◌+◌, ◌≤◌, length};
ghost use Rattle.wire.specs.Layout.{items, end, Sound};
ghost use Rattle.rules.specs.Walks.{CoverCycle};
ghost use Rattle.graph.specs.Format.{graph_header};
ghost use Rattle.graph.specs.Layouts.{target_layout, hyper_layout, cover_layout, decoded, Scannable};
ghost use Rattle.graph.specs.Viewed.{decoded_of};
ghost use Rattle.cycles.specs.Labels.{label, Within, Deepest, HyperFalls, CoverFalls, Deeper, Pass};

use graph::Records;
use wire::Width;

// The largest label of k targets at a position; 0 with none.
fn deepest(s: &[u8], n: usize, labels: &[u32; 4096], k: u32, at: usize) -> u32
    requires sound { Sound (target_layout s.now n) k at }
    requires n_bound { (n ≤ 4096) × (length labels.now ≡ 4096) }
    ensures { Deepest (label labels.now) (items (target_layout s.now n) k at) result }
{
    let mut most: u32 = 0;
    let mut i = k;
    let mut p = at;
    while 0 < i {
        let node = wire::number_at(s, p + graph::NODE_AT, Width::Two) as usize;
        let own = labels[node];
        p += graph::TARGET;
        i -= 1;
        if most < own {
            most = own;
        }
    }
    most
}

// Takes each hyperedge's source down to the depth of its targets; says whether any label rose.
fn deepen_hypers(s: &[u8], n: usize, h: u32, labels: &mut [u32; 4096]) -> bool
    requires sound { Sound (hyper_layout s.now n) h graph_header }
    requires n_bound { (n ≤ 4096) × (length labels.old ≡ 4096) }
    ensures { Deeper n (items (hyper_layout s.now n) h graph_header) HyperFalls labels.old labels.new result }
{
    let mut moved = false;
    let mut i = h;
    let mut p = graph::HEADER;
    while 0 < i {
        let source = wire::number_at(s, p, Width::Two) as usize;
        let k = wire::number_at(s, p + graph::TARGET_COUNT_AT, Width::Two);
        let deep = deepest(s, n, labels, k, p + graph::HYPER);
        let own = labels[source];
        p += graph::HYPER + (k as usize) * graph::TARGET;
        i -= 1;
        if own < deep {
            labels[source] = deep;
            moved = true;
        }
    }
    moved
}

// Takes each cover edge's source below its target; says whether any label rose.
fn deepen_covers(s: &[u8], n: usize, c: u32, middle: usize, labels: &mut [u32; 4096]) -> bool
    requires sound { Sound (cover_layout s.now n) c middle }
    requires n_bound { (n ≤ 4096) × (length labels.old ≡ 4096) }
    requires c_bound { c ≤ 4096 }
    requires within { Within n labels.old 4294901760 }
    ensures deeper { Deeper n (items (cover_layout s.now n) c middle) CoverFalls labels.old labels.new result }
    ensures by_index { (m : ℕ) → Within n labels.old m → Within n labels.new (m + c) }
{
    let mut moved = false;
    let mut i = c;
    let mut p = middle;
    while 0 < i {
        let source = wire::number_at(s, p, Width::Two) as usize;
        let target = wire::number_at(s, p + graph::COVER_TARGET_AT, Width::Two) as usize;
        let below = labels[target];
        let own = labels[source];
        p += graph::COVER;
        i -= 1;
        if own <= below {
            labels[source] = below + 1;
            moved = true;
        }
    }
    moved
}

// A pass over all edges; says whether any label rose.
fn deepen(s: &[u8], n: usize, h: u32, c: u32, middle: usize, labels: &mut [u32; 4096]) -> bool
    requires scannable { Scannable s.now n h c }
    requires middle_value { middle ≡ end (hyper_layout s.now n) h graph_header }
    requires n_bound { (n ≤ 4096) × (length labels.old ≡ 4096) }
    requires c_bound { c ≤ 4096 }
    requires within { Within n labels.old 4294901760 }
    ensures pass { Pass (decoded s.now n h c) labels.old labels.new result }
    ensures by_index { (m : ℕ) → Within n labels.old m → Within n labels.new (m + c) }
{
    let along = deepen_hypers(s, n, h, labels);
    let over = deepen_covers(s, n, c, middle, labels);
    if along {
        return true;
    }
    over
}

// Whether some cycle passes through a cover edge: then, and only then, do the labels still rise in pass n.
pub fn has_cycle(graph: Records) -> bool
    requires few { (graph.nodes ≤ 4096) × (graph.covers ≤ 4096) }
    ensures { (result ≡ true → CoverCycle (decoded_of graph.entry)) × (result ≡ false → ¬ CoverCycle (decoded_of graph.entry)) }
{
    let mut labels = [0u32; 4096];
    for _ in 1..graph.nodes {
        if !deepen(
            graph.bytes,
            graph.nodes,
            graph.hypers,
            graph.covers,
            graph.middle,
            &mut labels,
        ) {
            return false;
        }
    }
    deepen(
        graph.bytes,
        graph.nodes,
        graph.hypers,
        graph.covers,
        graph.middle,
        &mut labels,
    )
}
