// Rows of formula messages: what each says, and the row that stands at a position of an accepted message.
#![tactic(auto)]

ghost use Rattle.std.specs.Prelude.{◌≡◌, ◌+◌, ◌≤◌, length};
ghost use Rattle.syntax.specs.Rows as rows;
ghost use Rattle.syntax.specs.Layouts.{row_at};
ghost use Rattle.syntax.specs.Format.{row_width};

use value::Bound;
use wire::Width;

// How wide the header of a formula message is: the rows stand behind it.
pub const HEADER: usize = 7;

// Where the fields of a row stand behind its operator, and how wide it is.
pub const LEFT_AT: usize = 1;

pub const RIGHT_AT: usize = LEFT_AT + 1;

pub const ZERO_AT: usize = RIGHT_AT + 1;

pub const BOUND_AT: usize = ZERO_AT + 1;

pub const ROW: usize = BOUND_AT + 4;

// On some run, or on every run; some transition, or every transition.
#[derive(Clone, Copy)]
pub enum Quantifier {
    Some,
    Every,
}

// Which transitions EX and AX look at: those of any action, or only those of one. No Option: its None would have to be read as any.
#[derive(Clone, Copy)]
pub enum Action {
    Any,
    Only(u32),
}

impl Action {
    // Whether a transition of this action is looked at.
    pub fn allows(self, action: u32) -> bool
        ensures { result ≡ rows.allows self action }
    {
        match self {
            Action::Any => true,
            Action::Only(k) => action == k,
        }
    }
}

// A row: an operator, with propositions or earlier rows for its operands.
#[derive(Clone, Copy)]
pub enum Row {
    True,
    False,
    Proposition(u32),
    Negation(u32),
    And(u32, u32),
    Or(u32, u32),
    Next(Quantifier, Action, u32, Bound),
    Until(Quantifier, u32, u32, Bound),
}

// The row of these fields; the last operator also stands for those that don't exist.
#[tactic(auto, unfolding(crate::specs::Rows::row_of))]
fn row_of(operator: u32, left: u32, right: u32, bound: u32) -> Row
    ensures { result ≡ rows.row_of operator left right bound }
{
    let within = Bound::coded(bound);
    match operator {
        0 => Row::True,
        1 => Row::False,
        2 => Row::Proposition(left),
        3 => Row::Negation(left),
        4 => Row::And(left, right),
        5 => Row::Or(left, right),
        6 => Row::Next(Quantifier::Some, Action::Any, left, within),
        7 => Row::Next(Quantifier::Every, Action::Any, left, within),
        8 => Row::Until(Quantifier::Some, left, right, within),
        9 => Row::Until(Quantifier::Every, left, right, within),
        10 => Row::Next(Quantifier::Some, Action::Only(right), left, within),
        _ => Row::Next(Quantifier::Every, Action::Only(right), left, within),
    }
}

// The row that stands at a position of an accepted message.
pub fn row_at(s: &[u8], at: usize) -> Row
    requires { at + row_width ≤ length s.now }
    ensures { result ≡ row_at s.now at }
{
    let operator = wire::number_at(s, at, Width::One);
    let left = wire::number_at(s, at + LEFT_AT, Width::One);
    let right = wire::number_at(s, at + RIGHT_AT, Width::One);
    let bound = wire::number_at(s, at + BOUND_AT, Width::Four);
    row_of(operator, left, right, bound)
}
