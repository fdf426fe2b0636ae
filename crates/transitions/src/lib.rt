// What the builder reads of the model: its labels, and where each state's transitions stand.
#![tactic(auto)]

mod views;

ghost use Rattle.std.specs.Prelude.{◌≡◌, ◌+◌, ◌-◌, ◌<◌, ◌≤◌, nat_eq, length};
ghost use Rattle.lists.specs.Making.{keep};
ghost use Rattle.wire.specs.Bytes.{number};
ghost use Rattle.model.specs.Format.{action_at, transition_width, transition_at};
ghost use Rattle.model.specs.Model as model;
ghost use Rattle.syntax.specs.Format.{place_of};
ghost use Rattle.syntax.specs.Layouts.{row_at};
ghost use Rattle.reduction.specs.Built.{looks_at, leaving};
ghost use Rattle.transitions.specs.Looked.{is_near, UpToLast};
ghost use Rattle.transitions.specs.Held.{transition_layout, transitions_from, Starts, LeadTo, RiseFrom, leading};
ghost use Rattle.transitions.specs.Views.{model_of, list_of, is_near_by};

use syntax::{Action, Row};
use value::Bound;
pub use views::{AcceptedModel, AcceptedRows, Look, Out, Table};
use wire::Width;

// The greatest action of a transition.
pub const MOST_ACTION: u32 = 65535;

// The greatest number that the two bytes of a successor can say.
const LAST_TO: u64 = wire::TWO_MORE_LONG - 1;

// Whether bit i of a label is set.
fn bit(label: u32, i: u32) -> bool
    ensures { result ≡ model.bit label i }
{
    if 32 <= i {
        return false;
    }
    (label >> i) % 2 == 1
}

// Where a transition of the model stands.
pub fn transition_at(n: u32, first: u32) -> usize
    ensures { result ≡ transition_at n first }
{
    model::HEADER + (n as usize) * model::LABEL + (first as usize) * model::TRANSITION
}

// Passes 16 transitions at a time, from one on, while the last of them leaves state a: they come by rising `from`, so all of them do.
fn pass_many(m: AcceptedModel, a: u32, first: u32) -> u32
    requires { (first ≤ m.transitions) × RiseFrom a (transitions_from m.bytes.now m.states first (m.transitions - first)) }
    ensures { (first ≤ result) × (result ≤ m.entry.transitions) × (result + leading a (transitions_from m.entry.bytes.now m.entry.states result (m.entry.transitions - result))
        ≡ first + leading a (transitions_from m.entry.bytes.now m.entry.states first (m.entry.transitions - first))) }
{
    let mut i = first;
    while 16 <= m.transitions - i {
        let last = transition_at(m.states, i + 15);
        if wire::number_at(m.bytes, last, Width::Two) != a {
            return i;
        }
        i += 16;
    }
    i
}

// The same where states have many transitions; where they have few, asking would cost more than it passes.
fn pass_some(m: AcceptedModel, a: u32, first: u32, dense: bool) -> u32
    requires { (first ≤ m.transitions) × RiseFrom a (transitions_from m.bytes.now m.states first (m.transitions - first)) }
    ensures { (first ≤ result) × (result ≤ m.entry.transitions) × (result + leading a (transitions_from m.entry.bytes.now m.entry.states result (m.entry.transitions - result))
        ≡ first + leading a (transitions_from m.entry.bytes.now m.entry.states first (m.entry.transitions - first))) }
{
    if dense {
        return pass_many(m, a, first);
    }
    first
}

// The first transition from this one on that doesn't leave state a.
fn past_state(m: AcceptedModel, a: u32, first: u32, dense: bool) -> u32
    requires { (first ≤ m.transitions) × RiseFrom a (transitions_from m.bytes.now m.states first (m.transitions - first)) }
    ensures { (first ≤ result) × (result ≤ m.entry.transitions)
        × (result ≡ first + leading a (transitions_from m.entry.bytes.now m.entry.states first (m.entry.transitions - first))) }
{
    let passed = pass_some(m, a, first, dense);
    for i in passed..m.transitions {
        let at = transition_at(m.states, i);
        let from = wire::number_at(m.bytes, at, Width::Two);
        if from != a {
            return i;
        }
    }
    m.transitions
}

impl<'a> AcceptedModel<'a> {
    // Whether proposition i holds in state a.
    pub fn holds(self, a: u32, i: u32) -> bool
        requires { a < self.states }
        ensures { result ≡ model.holds (model_of self.entry) i a }
    {
        let at = model::HEADER + (a as usize) * model::LABEL;
        bit(wire::number_at(self.bytes, at, Width::Four), i)
    }

    // Where each state's transitions start: they come by rising `from`, so one pass finds every range.
    pub fn starts(self) -> [u32; 257]
        ensures { (257 ≡ length result) × Starts self.entry.bytes.now self.entry.states self.entry.transitions result }
    {
        let dense = 8 * self.states < self.transitions;
        let mut table = [0u32; 257];
        let mut first: u32 = 0;
        for a in 0..self.states {
            first = past_state(self, a, first, dense);
            let i = a as usize + 1;
            table[i] = first;
        }
        table
    }

    // All its transitions.
    pub fn all(self) -> Out<'a>
        ensures { list_of result ≡ (model_of self.entry).transitions }
    {
        Out {
            bytes: self.bytes,
            states: self.states,
            first: 0,
            many: self.transitions,
        }
    }
}

impl<'a> AcceptedRows<'a> {
    // The row at a place.
    pub fn row(self, i: u32) -> Row
        requires { i < self.rows }
        ensures { result ≡ row_at self.entry.bytes.now (place_of i) }
    {
        syntax::row_at(self.bytes, syntax::HEADER + (i as usize) * syntax::ROW)
    }
}

impl<'a> Table<'a> {
    // The transitions of a state.
    pub fn out_of(self, a: u32) -> Out<'a>
        requires { a < self.model.states }
        ensures list { list_of result ≡ leaving (model_of self.entry.model) a }
        ensures states { result.states ≡ self.entry.model.states }
        ensures named { LeadTo result.states (list_of result) }
        ensures inside { result.many ≤ self.entry.model.transitions }
    {
        let i = a as usize;
        let first = self.starts[i];
        Out {
            bytes: self.model.bytes,
            states: self.model.states,
            first,
            many: self.starts[i + 1] - first,
        }
    }
}

impl Look {
    // Whether it looks at the transition at a position: its action is in the range, and its weight is at most the greatest.
    fn is_near(self, m: &[u8], at: usize) -> bool
        requires { at + transition_width ≤ length m.now }
        ensures { result ≡ is_near_by self ((transition_layout m.now).item at) }
    {
        let both = wire::number_at(m, at + model::ACTION_AT, Width::Four);
        self.is_near_of(m, at, both)
    }

    // The same, with its action and its successor read as one number, the action above. That number, less the least one of the range, is at most
    // the range's width just where the action is in the range (below the range it wraps): one read, and one test for both ends. In 64 bits no
    // action is too large for it. Every action is in the whole range, which is asked for most and known outside of a loop.
    pub fn is_near_of(self, m: &[u8], at: usize, both: u32) -> bool
        requires transition_inside { at + transition_width ≤ length m.now }
        requires both_value { both ≡ number 4 m.now (at + action_at) }
        ensures { result ≡ is_near_by self ((transition_layout m.now).item at) }
    {
        let weight = wire::number_at(m, at + model::WEIGHT_AT, Width::Four);
        if self.low == 0 && MOST_ACTION <= self.high {
            return weight <= self.most;
        }
        let least = (self.low as u64) * wire::TWO_MORE_LONG;
        let width = ((self.high - self.low) as u64) * wire::TWO_MORE_LONG + LAST_TO;
        let above = std::num::wrapping_sub_u64(both as u64, least);
        if width < above {
            return false;
        }
        weight <= self.most
    }

    // How many of these transitions it looks at. A count of 32 bits would have the compiler gather the weights byte by byte.
    fn count(self, out: Out) -> u64
        ensures { result ≡ length (keep (is_near_by self) (list_of out.entry)) }
    {
        let mut at = out.start();
        let mut near: u64 = 0;
        for _ in 0..out.many {
            let here = self.is_near(out.bytes, at);
            at += model::TRANSITION;
            near += here as u64;
        }
        near
    }

    // How many of these transitions there are up to the last that it looks at.
    pub fn last_in(self, out: Out) -> u32
        ensures { UpToLast out.entry.bytes.now (is_near_by self) out.entry.many (transition_at out.entry.states out.entry.first) result }
    {
        let mut at = out.start() + (out.many as usize) * model::TRANSITION;
        for i in (0..out.many).rev() {
            at -= model::TRANSITION;
            if self.is_near(out.bytes, at) {
                return i + 1;
            }
        }
        0
    }
}

impl<'a> Out<'a> {
    // So many from one on, of any bytes that they lie in: any 4 bytes are a weight, and any 2 an action.
    pub fn of(bytes: &'a [u8], states: u32, first: u32, many: u32) -> Out<'a>
        requires { transition_at states (first + many) ≤ length bytes.now }
        ensures { (result.bytes.now ≡ bytes.now) × (result.states ≡ states) × (result.first ≡ first) × (result.many ≡ many) }
    {
        Out {
            bytes,
            states,
            first,
            many,
        }
    }

    // Where the first of them stands.
    pub fn start(self) -> usize
        ensures { result ≡ transition_at self.entry.states self.entry.first }
    {
        transition_at(self.states, self.first)
    }

    // How many of them EX or AX looks at, by the action and the bound; with neither it is all of them. Each kind of action has a call of its
    // own, so that the compiler leaves the test of the action out where there is none.
    pub fn count_near(self, action: Action, bound: Bound) -> u64
        ensures { result ≡ length (keep (looks_at action bound) (list_of self.entry)) }
    {
        let most = bound.code();
        match action {
            Action::Any => {
                if let Bound::Unbounded = bound {
                    return self.many as u64;
                }
                let look = Look {
                    low: 0,
                    high: MOST_ACTION,
                    most,
                };
                look.count(self)
            }
            Action::Only(k) => {
                let look = Look {
                    low: k,
                    high: k,
                    most,
                };
                look.count(self)
            }
        }
    }
}
