// The operands of a row by the kind of its operator, or the first fault of its fields in the paper's order.
#![tactic(auto)]

ghost use Rattle.std.specs.Prelude.{◌≡◌, ℕ, ◌+◌, ◌^◌, ◌<◌, false};
ghost use Rattle.wire.specs.Read.{Err, below, misnamed};
ghost use Rattle.syntax.specs.Format.{row_width};
ghost use Rattle.syntax.specs.Message as m;
ghost use Rattle.kinds.specs.Told as spare;

use refusal::{Fault, Refusal};
use syntax::{BOUND_AT, LEFT_AT, RIGHT_AT, ZERO_AT};
use wire::Width;

// The fields of a row behind its operator.
#[derive(Clone, Copy)]
pub struct Fields {
    pub left: u32,
    pub right: u32,
    pub zero: u32,
    pub bound: u32,
}

// The rows that a row has for operands.
#[derive(Clone, Copy)]
pub enum Operands {
    None,
    One(u32),
    Both(u32, u32),
}

// The fields behind left that an operator doesn't use, and 0 for those that it uses, as it does left.
pub fn idle(right: u32, zero: u32, bound: u32) -> Fields
    ensures { result ≡ spare.idle right zero bound }
{
    Fields {
        left: 0,
        right,
        zero,
        bound,
    }
}

// Whether fields are all zero: their bits are gathered, for one test. Of a test for each the compiler made two jumps, and how long a row took
// hung on where these came to lie.
fn all_zero(fields: Fields) -> bool
    ensures { result ≡ spare.all_zero fields }
{
    let front = fields.left | fields.right;
    let back = fields.zero | fields.bound;
    (front | back) == 0
}

// Of fields that aren't all zero, where the first stands that isn't.
#[tactic(auto, using(wire::proofs::Reading::reading), unfolding(crate::specs::Told::unused))]
fn first_not_zero(fields: Fields) -> usize
    ensures { (result < row_width) × ((offset : ℕ) → spare.all_zero fields ≡ false → spare.unused offset fields ≡ Err (m.ill_formed (offset + result))) }
{
    if fields.left != 0 {
        return LEFT_AT;
    }
    if fields.right != 0 {
        return RIGHT_AT;
    }
    if fields.zero != 0 {
        return ZERO_AT;
    }
    BOUND_AT
}

// A row's bytes, and where in its message they start: there each field's offset fits.
#[derive(Clone, Copy)]
pub struct RowAt<'a> {
    pub bytes: &'a [u8],
    pub offset: usize,
    pub ghost fits: { offset + row_width < 2 ^ 64 },
}

// Each kind of operator looks first at the fields that it doesn't use, then at those that name something: so the compiler has a branch
// for each kind. The check keeps operands alone: a row that is made here and taken apart again goes through memory.
impl<'a> RowAt<'a> {
    // The fields that an operator doesn't use, and 0 for those that it uses: they must be zero, or the first that isn't is FORM. They are
    // looked at together first, and one by one only where that shows a fault.
    #[tactic(auto, using(wire::proofs::Reading::reading), unfolding(crate::specs::Told::unused))]
    fn unused(self, fields: Fields) -> Result<(), Fault>
        ensures { result ≡ spare.unused self.entry.offset fields }
    {
        if all_zero(fields) {
            return Ok(());
        }
        let place = self.offset + first_not_zero(fields);
        Err(Fault {
            refusal: Refusal::Form,
            offset: place,
        })
    }

    // A field that names one of so many propositions or earlier rows, or it is NAME.
    fn named(self, field: usize, limit: u32) -> Result<u32, Fault>
        requires { field < row_width }
        ensures { result ≡ below 1 self.entry.bytes.now field limit (misnamed (self.entry.offset + field)) }
    {
        let name = Fault {
            refusal: Refusal::Name,
            offset: self.offset + field,
        };
        wire::read_below(self.bytes, field, Width::One, limit as u64, name)
    }

    // Left, once the unused fields are zero.
    #[tactic(auto, using(wire::proofs::Reading::reading), unfolding(crate::specs::Told::left_name))]
    fn left_name(self, limit: u32, idle: Fields) -> Result<u32, Fault>
        ensures { result ≡ spare.left_name self.entry.bytes.now self.entry.offset limit idle }
    {
        self.unused(idle)?;
        self.named(LEFT_AT, limit)
    }

    // True and false name nothing.
    #[tactic(auto, using(wire::proofs::Reading::reading), unfolding(crate::specs::Told::constant))]
    pub fn constant(self, idle: Fields) -> Result<Operands, Fault>
        ensures { result ≡ spare.constant self.entry.offset idle }
    {
        self.unused(idle)?;
        Ok(Operands::None)
    }

    // A proposition and its negation name it in left.
    #[tactic(auto, using(wire::proofs::Reading::reading), unfolding(crate::specs::Told::proposition))]
    pub fn proposition(self, p: u32, idle: Fields) -> Result<Operands, Fault>
        ensures { result ≡ spare.proposition self.entry.bytes.now self.entry.offset p idle }
    {
        self.left_name(p, idle)?;
        Ok(Operands::None)
    }

    // EX and AX have an operand in left.
    #[tactic(auto, using(wire::proofs::Reading::reading), unfolding(crate::specs::Told::one_operand))]
    pub fn one_operand(self, place: u32, idle: Fields) -> Result<Operands, Fault>
        ensures { result ≡ spare.one_operand self.entry.bytes.now self.entry.offset place idle }
    {
        let left = self.left_name(place, idle)?;
        Ok(Operands::One(left))
    }

    // And, or and the untils have one in right too.
    #[tactic(auto, using(wire::proofs::Reading::reading), unfolding(crate::specs::Told::both_operands))]
    pub fn both_operands(self, place: u32, idle: Fields) -> Result<Operands, Fault>
        ensures { result ≡ spare.both_operands self.entry.bytes.now self.entry.offset place idle }
    {
        let left = self.left_name(place, idle)?;
        let right = self.named(RIGHT_AT, place)?;
        Ok(Operands::Both(left, right))
    }
}
