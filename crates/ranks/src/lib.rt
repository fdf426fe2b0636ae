// A writer of claims about a graph that the checker accepts: its values, and a rank for each node.
#![tactic(auto)]

ghost use Rattle.std.specs.Prelude.{◌≡◌, ◌*◌, ◌≤◌, length};
ghost use Rattle.wire.specs.Layout.{end, Sound};
ghost use Rattle.rules.specs.Walks.{CoverCycle};
ghost use Rattle.graph.specs.Format.{graph_header};
ghost use Rattle.graph.specs.Layouts.{hyper_layout};
ghost use Rattle.graph.specs.Message.{read_graph};
ghost use Rattle.graph.specs.Viewed.{decoded_of};
ghost use Rattle.support.specs.Claims.{claim_width};
ghost use Rattle.ranks.specs.Answers.{Writes, Filled};
ghost use Rattle.ranks.specs.Promise.{WrittenPromise};
ghost use Rattle.ranks.specs.Begun.{Begun};

use claimed::{CLAIM, RANK_AT};
use graph::{Graph, Records};
use ranking::UNRANKED;
use refusal::Fault;
use wire::Width;

// How many words are lent to the writer for a node.
pub const WORDS: usize = 8;

// Where the cover edges stand: past the hyperedges.
fn past_hypers(s: &[u8], n: usize, h: u32) -> usize
    requires { Sound (hyper_layout s.now n) h graph_header }
    ensures { result ≡ end (hyper_layout s.now n) h graph_header }
{
    let mut p = graph::HEADER;
    for _ in 0..h {
        let k = wire::number_at(s, p + graph::TARGET_COUNT_AT, Width::Two);
        p += graph::HYPER + (k as usize) * graph::TARGET;
    }
    p
}

// Writes the values of n nodes from the words, and no rank yet.
fn begin(n: usize, words: &[u64], claims: &mut [u8])
    requires n_inside { n ≤ length words.now }
    requires all_inside { n * claim_width ≤ length claims.old }
    ensures { Begun n words.now claims.old claims.new }
{
    for (v, value) in words[..n].iter().enumerate() {
        let at = v * CLAIM;
        wire::store_long(claims, at, *value);
        wire::store_long(claims, at + RANK_AT, UNRANKED);
    }
}

// Writes the claims of a graph without a cycle through a cover edge: the rounds settle within n, in the words.
fn fill(graph: Records, claims: &mut [u8], words: &mut [u64])
    requires nodes_few { graph.nodes ≤ 4096 }
    requires acyclic { CoverCycle (decoded_of graph) → ⊥ }
    requires claims_long { graph.nodes * claim_width ≤ length claims.old }
    requires words_long { graph.nodes * 8 ≤ length words.old }
    ensures { Filled (decoded_of graph.entry) claims.old words.old claims.new words.new }
{
    let n = graph.nodes;
    let whole = Graph {
        bytes: graph.bytes,
        nodes: n,
        hypers: graph.hypers,
        covers: graph.covers,
    };
    rounds::run(whole, n as u32, words);
    begin(n, words, claims);
    words[..n * WORDS].fill(0);
    ranking::rank(graph, claims);
}

// Writes claims about the graph of a message that the checker accepts: first the graph, then its cycles, then the rooms.
pub fn write(message: &[u8], claims: &mut [u8], words: &mut [u64]) -> Result<(), Fault>
    ensures answer { Writes (read_graph message.now) claims.old words.old claims.new words.new result }
    ensures promise { WrittenPromise message.now claims.old words.old claims.new words.new result }
{
    let counts = graph::check(message)?;
    let nodes = counts.nodes as usize;
    let graph = Records {
        bytes: message,
        nodes,
        hypers: counts.hypers,
        covers: counts.covers,
        middle: past_hypers(message, nodes, counts.hypers),
    };
    if cycles::has_cycle(graph) {
        return Err(refusal::PROFILE);
    }
    if claims.len() < nodes * CLAIM || words.len() < nodes * WORDS {
        return Err(refusal::ROOM);
    }
    fill(graph, claims, words);
    Ok(())
}
