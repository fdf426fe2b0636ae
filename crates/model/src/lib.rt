// The check of a model message: the first fault in the paper's order, or the counts of its header.
#![tactic(auto)]

ghost use Rattle.std.specs.Prelude.{◌≡◌, ◌+◌, ◌*◌, ◌≤◌, ◌^◌, length};
ghost use Rattle.wire.specs.Reader.{one, run};
ghost use Rattle.model.specs.Message as m;
ghost use Rattle.model.specs.Answers.{checked};
ghost use Rattle.model.specs.Format.{label_width, transition_width};

use refusal::{Fault, Refusal};
use wire::{Count, Head, State, Width};

// The header of a model message, and its counts.
pub const HEADER: usize = 13;

const HEAD: Head = Head {
    length: HEADER,
    version: 2,
    kind: 2,
};

const STATES: Count = Count {
    at: 6,
    width: Width::Two,
    least: 1,
    most: 256,
};

// Where the propositions are told: whoever has an accepted model reads them there.
pub const PROPOSITIONS_AT: usize = 8;

const PROPOSITIONS: Count = Count {
    at: PROPOSITIONS_AT,
    width: Width::One,
    least: 0,
    most: 32,
};

const TRANSITIONS: Count = Count {
    at: 9,
    width: Width::Four,
    least: 0,
    most: 65535,
};

// How wide a label is; where the weight, the action and the `to` of a transition stand, and how wide it is.
pub const LABEL: usize = 4;

pub const WEIGHT_AT: usize = 2;

pub const ACTION_AT: usize = WEIGHT_AT + 4;

pub const TO_AT: usize = ACTION_AT + 2;

pub const TRANSITION: usize = TO_AT + 2;

// How many states, propositions and transitions a message has.
#[derive(Clone, Copy, Debug, PartialEq, Eq)]
pub struct Counts {
    pub states: u32,
    pub propositions: u32,
    pub transitions: u32,
}

// The labels of p propositions are below this. It is made by doubling: of a shift the compiler would make one more at each label.
fn label_limit(p: u32) -> u64
    requires { p ≤ 32 }
    ensures { result ≡ 2 ^ p }
{
    let mut limit: u64 = 1;
    for _ in 0..p {
        limit *= 2;
    }
    limit
}

// One label, whose bytes fit, below the limit.
fn label(s: &[u8], p: u32, limit: u64, st: State) -> Result<State, Fault>
    requires { (st.at + label_width ≤ length s.now) × (limit ≡ 2 ^ p) }
    ensures { result ≡ one (m.labels s.now p) st }
{
    let at = st.at;
    let end = at + LABEL;
    let unknown = Fault {
        refusal: Refusal::Form,
        offset: at,
    };
    wire::read_below(&s[at..end], 0, Width::Four, limit, unknown)?;
    Ok(State { at: end, ..st })
}

// k labels, whose bytes fit.
fn labels(s: &[u8], p: u32, k: u32, first: State) -> Result<State, Fault>
    requires { (first.at + k * label_width ≤ length s.now) × (p ≤ 32) }
    ensures { result ≡ run (m.labels s.now p) k first }
{
    let limit = label_limit(p);
    wire::run(k, first, |st| label(s, p, limit, st))
}

// One transition of a model with n states, whose bytes fit.
fn transition(s: &[u8], n: u32, st: State) -> Result<State, Fault>
    requires { (st.at + transition_width ≤ length s.now) × (st.prev ≤ n) }
    ensures { result ≡ one (m.transitions s.now n) st }
{
    let at = st.at;
    let end = at + TRANSITION;
    let from = wire::read_source(&s[at..end], 0, n, st.prev, at)?;
    let to_at = at + TO_AT;
    let misnamed = Fault {
        refusal: Refusal::Name,
        offset: to_at,
    };
    wire::read_below(&s[at..end], TO_AT, Width::Two, n as u64, misnamed)?;
    Ok(State {
        at: end,
        prev: from,
        ..st
    })
}

// k transitions, whose bytes fit.
fn transitions(s: &[u8], n: u32, k: u32, first: State) -> Result<State, Fault>
    requires { (first.at + k * transition_width ≤ length s.now) × (first.prev ≤ n) }
    ensures { result ≡ run (m.transitions s.now n) k first }
{
    wire::run(k, first, |st| transition(s, n, st))
}

// The header, and that the message is as long as its counts say.
#[tactic(auto, using(wire::proofs::Reading::reading), unfolding(crate::specs::Message::read_header))]
fn header(s: &[u8]) -> Result<Counts, Fault>
    ensures { result ≡ m.read_header s.now }
{
    wire::open(s, HEAD)?;
    let states = wire::read_count(s, STATES)?;
    let propositions = wire::read_count(s, PROPOSITIONS)?;
    let transitions = wire::read_count(s, TRANSITIONS)?;
    let end = HEADER + (states as usize) * LABEL + (transitions as usize) * TRANSITION;
    if s.len() != end {
        return Err(wire::SHORT);
    }
    Ok(Counts {
        states,
        propositions,
        transitions,
    })
}

// A whole model message: the counts of its header, or its first fault. Transitions are read one by one only where they are not in order, which
// finds the first fault.
pub fn check(s: &[u8]) -> Result<Counts, Fault>
    ensures { result ≡ checked (m.read_model s.now) }
{
    let counts = header(s)?;
    let n = counts.states;
    let t = counts.transitions;
    labels(s, counts.propositions, n, State::start(HEADER))?;
    let middle = HEADER + (n as usize) * LABEL;
    if ordered::in_order(s, n, TO_AT, t, middle) {
        return Ok(counts);
    }
    transitions(s, n, t, State::start(middle))?;
    Ok(counts)
}
