// Between which sources some of a graph's records stand, whose sources never fall.
#![tactic(auto)]

ghost use Rattle.std.specs.Prelude.{◌≡◌, ℕ, ◌<◌, ◌≤◌};
ghost use Rattle.wire.specs.Bytes.{number};
ghost use Rattle.wire.specs.Layout.{end};
ghost use Rattle.graph.specs.Format.{graph_header};
ghost use Rattle.graph.specs.Layouts.{hyper_layout, cover_layout};
ghost use Rattle.graph.specs.Ready.{Climbs};

use graph::{Covers, Hypers};
use wire::Width;

// The sources of the hyperedges from number a, at a position, to before number z, at another, are from the first on ..
pub fn hypers_from(g: Hypers, a: u32, z: u32, at: usize) -> usize
    requires climbs { Climbs g.bytes.now (hyper_layout g.bytes.now g.nodes) g.count graph_header }
    requires z_le_count { z ≤ g.count }
    requires at_value { a < z → at ≡ end (hyper_layout g.bytes.now g.nodes) a graph_header }
    ensures { let x = g.entry in (result ≤ x.nodes) × ((j : ℕ) → a ≤ j → j < z → result ≤ number 2 x.bytes.now (end (hyper_layout x.bytes.now x.nodes) j graph_header)) }
{
    if a < z {
        return wire::number_at(g.bytes, at, Width::Two) as usize;
    }
    g.nodes
}

// .. and before what this gives.
pub fn hypers_to(g: Hypers, a: u32, z: u32, past: usize) -> usize
    requires climbs { Climbs g.bytes.now (hyper_layout g.bytes.now g.nodes) g.count graph_header }
    requires z_le_count { z ≤ g.count }
    requires past_value { a < z → past ≡ end (hyper_layout g.bytes.now g.nodes) z graph_header }
    ensures { let x = g.entry in (result ≤ x.nodes) × ((j : ℕ) → a ≤ j → j < z → number 2 x.bytes.now (end (hyper_layout x.bytes.now x.nodes) j graph_header) < result) }
{
    if z <= a {
        return 0;
    }
    if z < g.count {
        let next = wire::number_at(g.bytes, past, Width::Two) as usize;
        return next + 1;
    }
    g.nodes
}

// The same of cover edges.
pub fn covers_from(g: Covers, a: u32, z: u32) -> usize
    requires climbs { Climbs g.bytes.now (cover_layout g.bytes.now g.nodes) g.count g.at }
    requires z_le_count { z ≤ g.count }
    ensures { let x = g.entry in (result ≤ x.nodes) × ((j : ℕ) → a ≤ j → j < z → result ≤ number 2 x.bytes.now (end (cover_layout x.bytes.now x.nodes) j x.at)) }
{
    if a < z {
        let at = g.at + (a as usize) * graph::COVER;
        return wire::number_at(g.bytes, at, Width::Two) as usize;
    }
    g.nodes
}

pub fn covers_to(g: Covers, a: u32, z: u32) -> usize
    requires climbs { Climbs g.bytes.now (cover_layout g.bytes.now g.nodes) g.count g.at }
    requires z_le_count { z ≤ g.count }
    ensures { let x = g.entry in (result ≤ x.nodes) × ((j : ℕ) → a ≤ j → j < z → number 2 x.bytes.now (end (cover_layout x.bytes.now x.nodes) j x.at) < result) }
{
    if z <= a {
        return 0;
    }
    let at = g.at + ((z - 1) as usize) * graph::COVER;
    let last = wire::number_at(g.bytes, at, Width::Two) as usize;
    last + 1
}
