// A row's reading: the rows that it has for operands, or its first fault in the paper's order.
#![tactic(auto)]

ghost use Rattle.std.specs.Prelude.{◌≡◌, ◌+◌, ◌^◌, ◌≤◌, ◌<◌, length};
ghost use Rattle.syntax.specs.Format.{row_width};
ghost use Rattle.syntax.specs.Message as m;
ghost use Rattle.kinds.specs.Told.{Told};
ghost use Rattle.kinds.specs.Kept.{judged};

use kinds::{Fields, Operands, RowAt};
use refusal::{Fault, Refusal};
use syntax::{BOUND_AT, LEFT_AT, RIGHT_AT, ZERO_AT};
use wire::Width;

// How many operators there are: they are numbered from 0.
const OPERATORS: u64 = 12;

// A row that stands here in its message: its fields, and what they are by the kind of its operator. All are read before any is judged,
// so that the compiler can test some of them together.
pub fn read_row(row: &[u8], offset: usize, p: u32, place: u32) -> Result<Operands, Fault>
    requires { (offset + row_width < 2 ^ 64) × (row_width ≤ length row.now) }
    ensures { result ≡ judged (m.row_from row.now 0 offset p place) }
{
    let unknown = Fault {
        refusal: Refusal::Form,
        offset,
    };
    let operator = wire::read_below(row, 0, Width::One, OPERATORS, unknown)?;
    let left = wire::read(row, LEFT_AT, Width::One)?;
    let right = wire::read(row, RIGHT_AT, Width::One)?;
    let zero = wire::read(row, ZERO_AT, Width::One)?;
    let bound = wire::read(row, BOUND_AT, Width::Four)?;
    let told = Fields {
        left,
        right,
        zero,
        bound,
    };
    let at = RowAt { bytes: row, offset };
    read_kind(at, p, place, operator, told)
}

// A row of this operator and these fields, by the kind of the operator, of which each has two. An action, in right, is any number.
fn read_kind(row: RowAt, p: u32, place: u32, operator: u32, told: Fields) -> Result<Operands, Fault>
    requires { (operator ≤ 11) × Told row.bytes.now told × (told.right < 256) }
    ensures { result ≡ judged (m.fields_from row.entry.bytes.now 0 row.entry.offset p place operator) }
{
    let right = told.right;
    let zero = told.zero;
    let bound = told.bound;
    match operator / 2 {
        0 => row.constant(told),
        1 => row.proposition(p, kinds::idle(right, zero, bound)),
        2 => row.both_operands(place, kinds::idle(0, zero, bound)),
        3 => row.one_operand(place, kinds::idle(right, zero, 0)),
        4 => row.both_operands(place, kinds::idle(0, zero, 0)),
        _ => row.one_operand(place, kinds::idle(0, zero, 0)),
    }
}
