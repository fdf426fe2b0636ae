// Ranks given one after another, to nodes whose values an edge backs.
#![tactic(auto)]

ghost use Rattle.std.specs.Prelude.{◌≡◌, ℕ, ◌+◌, ◌*◌, ◌<◌, ◌≤◌, length};
ghost use Rattle.rules.specs.Rounds as rules;
ghost use Rattle.rules.specs.Count.{count};
ghost use Rattle.rules.specs.Walks.{CoverCycle};
ghost use Rattle.graph.specs.Viewed.{decoded_of};
ghost use Rattle.support.specs.Claims.{claim_width, claimed_value, claimed_rank, AcceptsClaims};
ghost use Rattle.ranking.specs.Ranking.{unranked, Kept, Passed};

mod backers;

use backers::{Backers, Covers, Hypers};
use claimed::{CLAIM, Claims, RANK_AT};
use graph::Records;

// The rank of a node that has none yet.
pub const UNRANKED: u64 = 18446744073709551615;

// Ranks the sources of the edges that back them, of so many from a position, one after another; gives the next rank.
fn rank_sources<E: Backers + Copy>(
    edges: E,
    n: usize,
    k: u32,
    from: usize,
    given: u64,
    claims: &mut [u8],
) -> u64
    requires stands { E.sound edges k from }
    requires same_nodes { n ≡ E.nodes edges }
    requires all_inside { n * claim_width ≤ length claims.old }
    requires given_few { given + k < unranked }
    ensures { Passed (E.source_at edges) (E.next_at edges) (E.backing edges) k from given claims.old result claims.new }
{
    let mut next = given;
    let mut at = from;
    for _ in 0..k {
        let edge = edges.edge(at);
        let lent = Claims::new(claims, n);
        if lent.rank(edge.source) == UNRANKED {
            if edges.backs(lent, at) {
                wire::store_long(claims, edge.source * CLAIM + RANK_AT, next);
                next += 1;
            }
        }
        at = edge.next;
    }
    next
}

// Ranks nodes in passes over all edges, until a pass ranks none; each pass before it ranks one, so n are enough.
pub fn rank(graph: Records, claims: &mut [u8])
    requires nodes_few { graph.nodes ≤ 4096 }
    requires all_inside { graph.nodes * claim_width ≤ length claims.old }
    requires acyclic { CoverCycle (decoded_of graph) → ⊥ }
    requires agree { let g = decoded_of graph in rules.Agree g (claimed_value claims.old) (rules.rounds g (count g)) }
    requires none_ranked { (v : ℕ) → v < graph.nodes → claimed_rank claims.old v ≡ unranked }
    ensures kept { Kept graph.entry.nodes claims.old claims.new }
    ensures accepts_claims { AcceptsClaims (decoded_of graph.entry) claims.new }
{
    let n = graph.nodes;
    let mut given: u64 = 0;
    for _ in 0..n {
        let more = rank_sources(
            Hypers { graph },
            n,
            graph.hypers,
            graph::HEADER,
            given,
            claims,
        );
        let next = rank_sources(
            Covers { graph },
            n,
            graph.covers,
            graph.middle,
            more,
            claims,
        );
        if next == given {
            return;
        }
        given = next;
    }
}
