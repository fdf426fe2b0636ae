// Claims about a graph: a value and a rank for each node. A checker of claims.
#![tactic(auto)]

ghost use Rattle.std.specs.Prelude.{◌≡◌, true, false};
ghost use Rattle.wire.specs.Read.{Ok};
ghost use Rattle.graph.specs.Layouts.{decoded};
ghost use Rattle.graph.specs.Message.{read_header, read_graph};
ghost use Rattle.support.specs.Claims.{AcceptsClaims};
ghost use Rattle.claims.specs.Answers.{read_claims, Judges};
ghost use Rattle.claims.specs.Promise.{JudgedPromise};

mod scans;

use claimed::{CLAIM, Claims};
use refusal::Fault;
use scans::{Covers, Hypers};

// Whether the message is a graph's and the claims are accepted. A sum that 64 bits don't hold is infinity's number here. That takes nothing
// for infinity: where every finite node has a support no claim is above (n - 1) w, and then no sum is so large.
fn accepts(s: &[u8], h: u32, c: u32, claims: Claims) -> bool
    requires { read_header s.now ≡ Ok (record { nodes = claims.nodes; hypers = h; covers = c; targets = 0 }) }
    ensures { let g = decoded s.now claims.entry.nodes h c in
        (result ≡ true → (read_graph s.now ≡ Ok g) × AcceptsClaims g claims.entry.bytes.now)
        × (result ≡ false → read_graph s.now ≡ Ok g → ¬ AcceptsClaims g claims.entry.bytes.now) }
{
    let mut marks = [0u8; 4096];
    let hypers = Hypers { bytes: s, claims };
    let Some(middle) = scans::scan(hypers, h, graph::HEADER, &mut marks) else {
        return false;
    };
    if middle + (c as usize) * graph::COVER != s.len() {
        return false;
    }
    let covers = Covers { bytes: s, claims };
    let Some(_) = scans::scan(covers, c, middle, &mut marks) else {
        return false;
    };
    claims.all_backed(&marks)
}

// Checks claims about the graph of a message, and says whether they are accepted: first the graph, then the length of the claims. One pass
// reads both; where it finds anything wrong, the graph is checked alone, since its faults come first.
pub fn check(message: &[u8], claims: &[u8]) -> Result<bool, Fault>
    ensures answer { Judges (read_claims message.now claims.now) claims.now result }
    ensures promise { JudgedPromise message.now claims.now result }
{
    let counts = graph::header(message)?;
    let nodes = counts.nodes as usize;
    if claims.len() != nodes * CLAIM {
        return graph::check(message).and(Err(wire::SHORT));
    }
    let lent = Claims {
        bytes: claims,
        nodes,
    };
    if accepts(message, counts.hypers, counts.covers, lent) {
        return Ok(true);
    }
    graph::check(message).and(Ok(false))
}
