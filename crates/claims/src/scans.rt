// The edges of a message, scanned one behind another: which sources they back is marked.
ghost use Rattle.std.specs.Prelude.{◌≡◌, ℕ, ◌+◌, ◌-◌, ◌*◌, ◌<◌, ◌≤◌, List, Option, Some, length, get_or};
ghost use Rattle.wire.specs.Reader.{one};
ghost use Rattle.wire.specs.Begin.{start};
ghost use Rattle.wire.specs.declared.State.{State};
ghost use Rattle.graph.specs.Format.{most_targets, cover_width};
ghost use Rattle.graph.specs.Layouts.{hyper_layout, cover_layout};
ghost use Rattle.graph.specs.Message as m;
ghost use Rattle.support.specs.Claims.{claimed_value, claimed_rank};
ghost use Rattle.support.specs.Backing.{HyperFair, HyperBacks, CoverFair, CoverBacks};
ghost use Rattle.edges.specs.Found.{EdgeFound};
ghost use Rattle.edges.specs.declared.Edge.{Edge};
ghost use Rattle.claims.specs.Chain.{Chain};
ghost use Rattle.edges.proofs.Leading.{hyper_leads, cover_leads};

use claimed::Claims;
use edges::Edge;
use wire::State;

// The edges of one kind in a message, each read and judged by claims.
pub trait Edges {
    // What is asked where so many are left, the next of them in this state; and what is found of it by these marks.
    ghost readable: { Self → ℕ → State → Type 0 };

    ghost found: { Self → List ℕ → State → Option Edge → Type 0 };

    // The next edge; nothing where it is odd.
    fn edge(&self, marks: &[u8; 4096], state: State) -> Option<Edge>
        requires { (left : ℕ) × (0 < left) × readable self.now left state }
        ensures { found self.now marks.now state result };

    // Behind an edge its source is known, and the edges that are left are asked the same.
    ghost leads: { (edges : Self) (left : ℕ) (b : List ℕ) (st : State) (e : Edge) → 0 < left → readable edges left st → found edges b st (Some e)
        → (e.next.prev < 4096) × readable edges (left - 1) e.next };
}

// The hyperedges of a message, and the claims that judge them.
#[derive(Clone, Copy)]
pub struct Hypers<'a> {
    pub bytes: &'a [u8],
    pub claims: Claims<'a>,
}

impl Edges for Hypers<'_> {
    ghost readable = { λ h left st. (h.claims.nodes ≤ 4096) × (st.at ≤ length h.bytes.now) × (st.prev ≤ h.claims.nodes) × (st.seen ≤ most_targets) };

    ghost found = { λ h b st r. let n = h.claims.nodes in let x = claimed_value h.claims.bytes.now in let e = (hyper_layout h.bytes.now n).item st.at in
        EdgeFound (one (m.hypers h.bytes.now n) st) (HyperFair x e) (HyperBacks x (claimed_rank h.claims.bytes.now) e) (get_or b e.source 0 ≡ 1) r };

    ghost leads = { λ h left b st e some ask f. hyper_leads h.bytes.now h.claims.nodes st e.next ask.0 f.0 };

    fn edge(&self, marks: &[u8; 4096], state: State) -> Option<Edge> {
        edges::hyper_edge(self.bytes, self.claims, marks, state)
    }
}

// The cover edges of a message, and the claims that judge them.
#[derive(Clone, Copy)]
pub struct Covers<'a> {
    pub bytes: &'a [u8],
    pub claims: Claims<'a>,
}

impl Edges for Covers<'_> {
    ghost readable = { λ c left st. (c.claims.nodes ≤ 4096) × (st.at + left * cover_width ≤ length c.bytes.now) × (st.prev ≤ c.claims.nodes) };

    ghost found = { λ c b st r. let n = c.claims.nodes in let x = claimed_value c.claims.bytes.now in let e = (cover_layout c.bytes.now n).item st.at in
        EdgeFound (one (m.covers c.bytes.now n) st) (CoverFair x e) (CoverBacks x (claimed_rank c.claims.bytes.now) e) ⊥ r };

    ghost leads = { λ c left b st e some ask f. cover_leads c.bytes.now c.claims.nodes left st e.next some ask.0 ask.1 f.0 };

    fn edge(&self, marks: &[u8; 4096], state: State) -> Option<Edge> {
        edges::cover_edge(self.bytes, self.claims, state)
    }
}

// Scans so many edges from a position, and marks the sources of those that back them: where they end; nothing where one is odd.
pub fn scan<E: Edges + Copy>(edges: E, k: u32, at: usize, marks: &mut [u8; 4096]) -> Option<usize>
    requires { E.readable edges k (start at) }
    ensures { Chain (E.found edges) k (start at) marks.old result marks.new }
{
    let mut state = State::start(at);
    for _ in 0..k {
        let edge = edges.edge(marks, state)?;
        state = edge.next;
        if edge.backs {
            marks[state.prev as usize] = 1;
        }
    }
    Some(state.at)
}
