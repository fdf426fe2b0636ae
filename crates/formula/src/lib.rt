// The check of a formula message against a number of propositions: the first fault in the paper's order, or how many rows it has.
#![tactic(auto)]

ghost use Rattle.std.specs.Prelude.{◌≡◌, ℕ, ◌+◌, ◌≤◌, ◌<◌, List, [], ◌∷◌, ◌++◌, length};
ghost use Rattle.lists.specs.Lists.{◌∈◌};
ghost use Rattle.syntax.specs.Format.{formula_length};
ghost use Rattle.syntax.specs.Message as m;
ghost use Rattle.kinds.specs.Kept.{listed};
ghost use Rattle.formula.specs.Marked.{Marked};
ghost use Rattle.formula.specs.Answers.{checked};

use kinds::Operands;
use refusal::{Fault, Refusal};
use syntax::{HEADER, ROW};
use wire::{Count, Head, Width};

// The start of a formula message, and its count.
const HEAD: Head = Head {
    length: HEADER,
    version: 1,
    kind: 3,
};

const ROWS: Count = Count {
    at: 6,
    width: Width::One,
    least: 1,
    most: 64,
};

// Faults of no field: a p handed in that is too large, and rows that aren't operands exactly once.
const TOO_LARGE: Fault = Fault {
    refusal: Refusal::Limit,
    offset: 0,
};

const MISUSED: Fault = Fault {
    refusal: Refusal::Form,
    offset: 0,
};

// The header, and that the message is as long as its count says.
#[tactic(auto, using(wire::proofs::Reading::reading), unfolding(syntax::specs::Message::read_header))]
fn header(s: &[u8]) -> Result<u32, Fault>
    ensures { result ≡ m.read_header s.now }
{
    wire::open(s, HEAD)?;
    let rows = wire::read_count(s, ROWS)?;
    if s.len() != HEADER + (rows as usize) * ROW {
        return Err(wire::SHORT);
    }
    Ok(rows)
}

// How many uses rows make of others, and which rows were used: row i is bit i of one number, which stays in a register.
#[derive(Clone, Copy)]
struct Uses {
    total: u32,
    rows: u64,
}

impl Uses {
    // One use more of a row, whose bit is set.
    fn one_more(self, row: u32) -> Uses
        requires { (row < 64) × (self.total < 256) }
        ensures total_value { result.total ≡ self.total + 1 }
        ensures row_marked { (ls : List ℕ) → Marked self ls → Marked result (ls ++ (row ∷ [])) }
    {
        Uses {
            total: self.total + 1,
            rows: self.rows | (1u64 << row),
        }
    }

    // Those that a row makes of others besides.
    fn of_row(self, row: Operands) -> Uses
        requires { ((l : ℕ) → l ∈ listed row → l < 64) × (self.total < 255) }
        ensures { (ls : List ℕ) → Marked self ls → Marked result (ls ++ listed row) }
    {
        match row {
            Operands::None => self,
            Operands::One(l) => self.one_more(l),
            Operands::Both(l, r) => self.one_more(l).one_more(r),
        }
    }
}

// The f rows, and how often each is an operand: every one but the last exactly once, so that f - 1 uses are made and these rows are all used.
// The header has fixed the length, so each row is a part of the message.
fn all_rows(s: &[u8], p: u32, f: u32) -> Result<u32, Fault>
    requires { (length s.now ≡ formula_length f) × (1 ≤ f) × (f ≤ 64) }
    ensures { result ≡ checked (m.read_rows s.now p f) }
{
    let mut at = HEADER;
    let mut uses = Uses { total: 0, rows: 0 };
    for place in 0..f {
        let end = at + ROW;
        let row = operands::read_row(&s[at..end], at, p, place)?;
        uses = uses.of_row(row);
        at = end;
    }
    if uses.total + 1 != f {
        return Err(MISUSED);
    }
    if uses.rows + 1 == (1u64 << (f - 1)) {
        return Ok(f);
    }
    Err(MISUSED)
}

// A whole formula message, with the number of propositions it may name: how many rows it has, or its first fault. The message is named
// anew at the start, all of it: where a slice is used in every call a compiler hands its place and length over in registers, else in memory.
pub fn check(s: &[u8], p: u32) -> Result<u32, Fault>
    ensures { result ≡ checked (m.read_formula p s.now) }
{
    let whole = &s[0..s.len()];
    if 32 < p {
        return Err(TOO_LARGE);
    }
    let rows = header(whole)?;
    all_rows(whole, p, rows)
}
