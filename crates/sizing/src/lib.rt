// How much room the graph takes, before anything is written.
#![tactic(auto)]

ghost use Rattle.std.specs.Prelude.{true, not, ◌≡◌, ◌+◌, ◌≤◌, ◌<◌, min, max, length};
ghost use Rattle.lists.specs.Making.{span};
ghost use Rattle.graph.specs.Format.{graph_length};
ghost use Rattle.model.specs.Model as model;
ghost use Rattle.syntax.specs.declared.Quantifier.TheVariants.{Some, Every};
ghost use Rattle.reduction.specs.Built as built;
ghost use Rattle.transitions.specs.Views.{model_of, rows_of};
ghost use Rattle.sizing.specs.Size.{◌⊑◌, in_limits, add_size, bare_size, size_of, sizes, state_edges, rows_edges, next_size, step_size};
ghost use Rattle.transitions.specs.Looked.{leaf_edges};

use syntax::{Action, Quantifier, Row};
use transitions::{AcceptedModel, AcceptedRows, Table};
use value::Bound;

// How many hyperedges, how many targets in all, and in the one with the most.
#[derive(Clone, Copy)]
pub struct Size {
    pub hypers: u64,
    pub targets: u64,
    pub most: u64,
}

impl Size {
    // Of no hyperedge.
    const NONE: Size = Size {
        hypers: 0,
        targets: 0,
        most: 0,
    };

    // The sizes of two lists of hyperedges, one behind the other.
    fn plus(self, other: Size) -> Size
        requires { (self.hypers + other.hypers < 1000000000000) × (self.targets + other.targets < 1000000000000) }
        ensures { result ≡ add_size self other }
    {
        Size {
            hypers: self.hypers + other.hypers,
            targets: self.targets + other.targets,
            most: self.most.max(other.most),
        }
    }
}

// In how many states a proposition holds.
fn count_held(m: AcceptedModel, i: u32) -> u64
    ensures { (result ≤ m.entry.states) × (bare_size result ≡ sizes (λ a. size_of (leaf_edges (model.holds (model_of m.entry) i a))) 0 m.entry.states) }
{
    let mut held: u64 = 0;
    for a in 0..m.states {
        let here = m.holds(a, i);
        held += here as u64;
    }
    held
}

// The size of so many hyperedges without targets.
fn bare(hypers: u64) -> Size
    ensures { result ≡ bare_size hypers }
{
    Size {
        hypers,
        targets: 0,
        most: 0,
    }
}

// EX has a hyperedge for each transition that it looks at: those of all states are those of the model.
fn some_next(m: AcceptedModel, action: Action, bound: Bound) -> Size
    ensures { result ≡ sizes (λ a. next_size Some (length (built.near (model_of m.entry) action bound a))) 0 m.entry.states }
{
    let near = m.all().count_near(action, bound);
    Size {
        hypers: near,
        targets: near,
        most: near.min(1),
    }
}

// AX has a hyperedge in each state, with all transitions that it looks at.
fn every_next(table: Table, action: Action, bound: Bound) -> Size
    ensures { result ≡ sizes (λ a. next_size Every (length (built.near (model_of table.entry.model) action bound a))) 0 table.entry.model.states }
{
    let n = table.model.states;
    let mut targets: u64 = 0;
    let mut most: u64 = 0;
    for a in 0..n {
        let near = table.out_of(a).count_near(action, bound);
        targets += near;
        most = most.max(near);
    }
    Size {
        hypers: n as u64,
        targets,
        most,
    }
}

// E until has a hyperedge in each state, and one for each transition: those of all states are those of the model.
fn some_until(m: AcceptedModel) -> Size
    ensures { result ≡ sizes (λ a. step_size Some (length (built.out (model_of m.entry) a))) 0 m.entry.states }
{
    let all = m.states as u64;
    let many = m.transitions as u64;
    Size {
        hypers: all + many,
        targets: all + 2 * many,
        most: 1 + many.min(1),
    }
}

// A until has a hyperedge in each state, and one more where there are transitions, with all of them.
fn every_until(table: Table) -> Size
    ensures { result ≡ sizes (λ a. step_size Every (length (built.out (model_of table.entry.model) a))) 0 table.entry.model.states }
{
    let mut hypers: u64 = 0;
    let mut targets: u64 = 0;
    let mut most: u64 = 0;
    for a in 0..table.model.states {
        let many = table.out_of(a).many as u64;
        let own = 1 + many.min(1);
        hypers += own;
        targets += own + many;
        most = most.max(1 + many);
    }
    Size {
        hypers,
        targets,
        most,
    }
}

// The size of the hyperedges of a row's nodes and helpers, over all states.
fn row_total(table: Table, row: Row) -> Size
    ensures { result ≡ size_of (span (state_edges (model_of table.entry.model) row) 0 table.entry.model.states) }
{
    let m = table.model;
    let all = m.states as u64;
    let twice = all * 2;
    match row {
        Row::True => bare(all),
        Row::False => Size::NONE,
        Row::Proposition(i) => bare(count_held(m, i)),
        Row::Negation(i) => bare(all - count_held(m, i)),
        Row::And(_, _) => Size {
            hypers: all,
            targets: twice,
            most: 2,
        },
        Row::Or(_, _) => Size {
            hypers: twice,
            targets: twice,
            most: 1,
        },
        Row::Next(q, k, _, b) => match q {
            Quantifier::Some => some_next(m, k, b),
            Quantifier::Every => every_next(table, k, b),
        },
        Row::Until(q, _, _, _) => match q {
            Quantifier::Some => some_until(m),
            Quantifier::Every => every_until(table),
        },
    }
}

// No less than that, without a look at a label or a transition: the rows that are worked out have hyperedges in every state or are untils.
fn row_most(table: Table, row: Row) -> Size
    ensures size_of { size_of (span (state_edges (model_of table.entry.model) row) 0 table.entry.model.states) ⊑ result }
    ensures hypers_bound { (result.hypers ≤ 67108864) × (result.targets ≤ 67108864) }
{
    let all = table.model.states as u64;
    let many = table.model.transitions as u64;
    match row {
        Row::Proposition(_) => bare(all),
        Row::Negation(_) => bare(all),
        Row::Next(q, _, _, _) => match q {
            Quantifier::Some => Size {
                hypers: many,
                targets: many,
                most: 1,
            },
            Quantifier::Every => Size {
                hypers: all,
                targets: many,
                most: many,
            },
        },
        _ => row_total(table, row),
    }
}

// The size of all hyperedges of the graph.
pub fn total_size(table: Table, f: AcceptedRows) -> Size
    ensures { result ≡ size_of (rows_edges (model_of table.entry.model) (rows_of f.entry)) }
{
    let mut sum = Size::NONE;
    for i in 0..f.rows {
        sum = sum.plus(row_total(table, f.row(i)));
    }
    sum
}

// No less than the size of all hyperedges of the graph.
pub fn total_most(table: Table, f: AcceptedRows) -> Size
    ensures { size_of (rows_edges (model_of table.entry.model) (rows_of f.entry)) ⊑ result }
{
    let mut sum = Size::NONE;
    for i in 0..f.rows {
        sum = sum.plus(row_most(table, f.row(i)));
    }
    sum
}

// How many until rows there are.
pub fn count_untils(f: AcceptedRows) -> u32
    ensures { result ≡ length (built.untils (rows_of f.entry)) }
{
    let mut untils: u32 = 0;
    for i in 0..f.rows {
        if let Row::Until(_, _, _, _) = f.row(i) {
            untils += 1;
        }
    }
    untils
}

// Whether the graph would pass a limit: there are no more cover edges than nodes.
#[tactic(auto, unfolding(crate::specs::Size::in_limits))]
pub fn too_large(nodes: u32, size: Size) -> bool
    ensures { result ≡ not (in_limits nodes size) }
{
    4096 < nodes || 65535 < size.hypers || 262144 < size.targets || 65535 < size.most
}

// The length of the message of a graph of this size, with so many cover edges.
pub fn message_length(size: Size, covers: u32) -> usize
    requires { in_limits covers size ≡ true }
    ensures { result ≡ graph_length size.hypers size.targets covers }
{
    graph::HEADER
        + (size.hypers as usize) * graph::HYPER
        + (size.targets as usize) * graph::TARGET
        + (covers as usize) * graph::COVER
}
