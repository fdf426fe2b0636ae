// The text of the rows of an accepted formula, written into a lent room.
#![tactic(auto)]

ghost use Rattle.std.specs.Prelude.{◌≡◌, ◌+◌, ◌≤◌, ◌++◌, length};
ghost use Rattle.decimals.specs.Decimal.{word};
ghost use Rattle.decimals.specs.Writer.{RoomFor, Wrote};
ghost use Rattle.wording.specs.Text as t;
ghost use Rattle.wording.specs.Rows.{row_text, signed_text, Ready};

use decimals::Writer;
use syntax::{Action, Quantifier, Row};
use value::Bound;

// The number behind a bound's `<=`.
fn limit(bound: Bound) -> Option<u32>
    ensures { signed_text (word "<=") result ≡ t.bound_text bound }
{
    match bound {
        Bound::Within(k) => Some(k),
        Bound::Unbounded => None,
    }
}

// The number behind an action's `#`.
fn only(action: Action) -> Option<u32>
    ensures { signed_text (word "#") result ≡ t.action_text action }
{
    match action {
        Action::Only(k) => Some(k),
        Action::Any => None,
    }
}

// Writes a sign and its number: no number, no sign.
#[tactic(auto, using(decimals::proofs::Writing::nothing))]
fn put_signed(out: &mut Writer<'_>, sign: &[u8], number: Option<u32>)
    requires { RoomFor out.old (signed_text sign.now number) }
    ensures { Wrote out.old (signed_text sign.now number) out.new }
{
    if let Some(n) = number {
        out.number(sign, n);
    }
}

// How long a sign and its number are.
#[tactic(auto, using(decimals::proofs::Decimal::decimal_length))]
fn signed_length(sign: &[u8], number: Option<u32>) -> usize
    requires { length sign.now ≤ 2 }
    ensures { result ≡ length (signed_text sign.now number) }
{
    number.map_or(0, |n| sign.len() + decimals::decimal_length(n))
}

// Writes a quantifier.
fn put_quantifier(out: &mut Writer<'_>, quantifier: Quantifier)
    requires { RoomFor out.old (t.quantifier_text quantifier) }
    ensures { Wrote out.old (t.quantifier_text quantifier) out.new }
{
    match quantifier {
        Quantifier::Some => out.word(b"E"),
        Quantifier::Every => out.word(b"A"),
    }
}

// Writes the sign of an operator, its bound and a space.
#[tactic(auto, using(decimals::proofs::Writing::both))]
fn put_bounded(out: &mut Writer<'_>, sign: &[u8], bound: Bound)
    requires { RoomFor out.old (sign.now ++ t.bound_text bound ++ word " ") }
    ensures { Wrote out.old (sign.now ++ t.bound_text bound ++ word " ") out.new }
{
    out.word(sign);
    put_signed(out, b"<=", limit(bound));
    out.word(b" ");
}

// Writes what stands before the operand of EX or AX.
fn put_next(out: &mut Writer<'_>, quantifier: Quantifier, action: Action, bound: Bound)
    requires { RoomFor out.old (t.quantifier_text quantifier ++ word "X" ++ t.action_text action ++ t.bound_text bound ++ word " ") }
    ensures { Wrote out.old (t.quantifier_text quantifier ++ word "X" ++ t.action_text action ++ t.bound_text bound ++ word " ") out.new }
{
    put_quantifier(out, quantifier);
    out.word(b"X");
    put_signed(out, b"#", only(action));
    put_signed(out, b"<=", limit(bound));
    out.word(b" ");
}

// How long the text of row i is, from its operands'. Asked before a byte is written, so that a refusal leaves the room as it came.
#[tactic(auto, using(crate::proofs::Rows::long_of))]
pub fn row_length(s: &[u8], i: u32) -> usize
    requires ready { Ready s.now i }
    requires short { length (row_text s.now i) ≤ 2048 }
    ensures { result ≡ length (row_text s.now i) }
{
    let at = syntax::HEADER + (i as usize) * syntax::ROW;
    let row = syntax::row_at(s, at);
    match row {
        Row::True => 4,
        Row::False => 5,
        Row::Proposition(p) => 1 + decimals::decimal_length(p),
        Row::Negation(p) => 2 + decimals::decimal_length(p),
        Row::And(l, r) | Row::Or(l, r) => 5 + row_length(s, l) + row_length(s, r),
        Row::Next(_, k, l, b) => {
            3 + signed_length(b"#", only(k)) + signed_length(b"<=", limit(b)) + row_length(s, l)
        }
        Row::Until(_, l, r, b) => {
            6 + signed_length(b"<=", limit(b)) + row_length(s, l) + row_length(s, r)
        }
    }
}

// Writes the text of row i, made of the texts of its operands.
#[tactic(auto, using(crate::proofs::Rows::long_of, crate::proofs::Rows::made_of, crate::proofs::Rows::next_length, decimals::proofs::Writing::both))]
pub fn put_row(s: &[u8], i: u32, out: &mut Writer<'_>)
    requires ready { Ready s.now i }
    requires fits { RoomFor out.old (row_text s.now i) }
    ensures { Wrote out.old (row_text s.now i) out.new }
{
    let row = syntax::row_at(s, syntax::HEADER + (i as usize) * syntax::ROW);
    match row {
        Row::True => out.word(b"true"),
        Row::False => out.word(b"false"),
        Row::Proposition(p) => out.number(b"p", p),
        Row::Negation(p) => out.number(b"!p", p),
        Row::And(l, r) | Row::Or(l, r) => {
            out.word(b"(");
            put_row(s, l, out);
            out.word(if let Row::And(..) = row {
                b" & "
            } else {
                b" | "
            });
            put_row(s, r, out);
            out.word(b")");
        }
        Row::Next(q, k, l, b) => {
            put_next(out, q, k, b);
            put_row(s, l, out);
        }
        Row::Until(q, l, r, b) => {
            put_quantifier(out, q);
            out.word(b"[");
            put_row(s, l, out);
            put_bounded(out, b" U", b);
            put_row(s, r, out);
            out.word(b"]");
        }
    }
}
