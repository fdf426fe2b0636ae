// The edges of an accepted message, one kind as the other, as the writer of ranks goes over them.
ghost use Rattle.std.specs.Prelude.{◌≡◌, true, false, ℕ, ◌-◌, ◌<◌, List};
ghost use Rattle.wire.specs.Layout.{Sound};
ghost use Rattle.graph.specs.Layouts.{hyper_layout, cover_layout};
ghost use Rattle.support.specs.Claims.{claimed_value, claimed_rank};
ghost use Rattle.support.specs.Backing.{HyperBacks, CoverBacks};
ghost use Rattle.wire.proofs.Layouts.{sound_more};

use claimed::Claims;
use graph::Records;
use wire::Width;

// Where an edge starts to count: its source, and where the next edge stands.
#[derive(Clone, Copy)]
pub struct Edge {
    pub source: usize,
    pub next: usize,
}

// Edges that may back their sources.
pub trait Backers {
    // So many of them stand at a position, and are sound; the source of the one there, where the next stands, how many nodes there are, and
    // whether the one there backs its source by these claims.
    ghost sound: { Self → ℕ → ℕ → Type 0 };

    ghost source_at: { Self → ℕ → ℕ };

    ghost next_at: { Self → ℕ → ℕ };

    ghost nodes: { Self → ℕ };

    ghost backing: { Self → List ℕ → ℕ → Type 0 };

    // The edge at a position.
    fn edge(&self, at: usize) -> Edge
        requires { (left : ℕ) × (0 < left) × sound self.now left at }
        ensures of_source { result.source ≡ source_at self.now at }
        ensures named { result.source < nodes self.now }
        ensures of_next { result.next ≡ next_at self.now at };

    // Whether the edge at a position backs its source.
    fn backs(&self, claims: Claims, at: usize) -> bool
        requires stands { (left : ℕ) × (0 < left) × sound self.now left at }
        requires same_nodes { claims.nodes ≡ nodes self.now }
        ensures { (result ≡ true → backing self.now claims.entry.bytes.now at) × (result ≡ false → ¬ backing self.now claims.entry.bytes.now at) };

    // Behind an edge one less is left, and sound.
    ghost goes_on: { (edges : Self) (left at : ℕ) → 0 < left → sound edges left at → sound edges (left - 1) (next_at edges at) };
}

// The hyperedges of an accepted message.
#[derive(Clone, Copy)]
pub struct Hypers<'a> {
    pub graph: Records<'a>,
}

impl Backers for Hypers<'_> {
    ghost sound = { λ h left at. Sound (hyper_layout h.graph.bytes.now h.graph.nodes) left at };

    ghost source_at = { λ h at. ((hyper_layout h.graph.bytes.now h.graph.nodes).item at).source };

    ghost next_at = { λ h at. (hyper_layout h.graph.bytes.now h.graph.nodes).next at };

    ghost nodes = { λ h. h.graph.nodes };

    ghost backing = { λ h b at. HyperBacks (claimed_value b) (claimed_rank b) ((hyper_layout h.graph.bytes.now h.graph.nodes).item at) };

    ghost goes_on = { λ h left at some all. (sound_more (hyper_layout h.graph.bytes.now h.graph.nodes) some all).1 };

    fn edge(&self, at: usize) -> Edge {
        let s = self.graph.bytes;
        let source = wire::number_at(s, at, Width::Two) as usize;
        let count = wire::number_at(s, at + graph::TARGET_COUNT_AT, Width::Two) as usize;
        Edge {
            source,
            next: at + graph::HYPER + count * graph::TARGET,
        }
    }

    fn backs(&self, claims: Claims, at: usize) -> bool {
        backing::hyper_backs(self.graph.bytes, claims, at)
    }
}

// The cover edges of an accepted message.
#[derive(Clone, Copy)]
pub struct Covers<'a> {
    pub graph: Records<'a>,
}

impl Backers for Covers<'_> {
    ghost sound = { λ c left at. Sound (cover_layout c.graph.bytes.now c.graph.nodes) left at };

    ghost source_at = { λ c at. ((cover_layout c.graph.bytes.now c.graph.nodes).item at).source };

    ghost next_at = { λ c at. (cover_layout c.graph.bytes.now c.graph.nodes).next at };

    ghost nodes = { λ c. c.graph.nodes };

    ghost backing = { λ c b at. CoverBacks (claimed_value b) (claimed_rank b) ((cover_layout c.graph.bytes.now c.graph.nodes).item at) };

    ghost goes_on = { λ c left at some all. (sound_more (cover_layout c.graph.bytes.now c.graph.nodes) some all).1 };

    fn edge(&self, at: usize) -> Edge {
        let source = wire::number_at(self.graph.bytes, at, Width::Two) as usize;
        Edge {
            source,
            next: at + graph::COVER,
        }
    }

    fn backs(&self, claims: Claims, at: usize) -> bool {
        backing::cover_backs(self.graph.bytes, claims, at)
    }
}
