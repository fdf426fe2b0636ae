// The pieces of the program's output, line by line, and where the model ends in its input.
#![tactic(auto)]

ghost use Rattle.std.specs.Prelude.{◌≡◌, ◌+◌, ◌≤◌, ◌++◌, length};
ghost use Rattle.decimals.specs.Decimal.{decimal};
ghost use Rattle.decimals.specs.Writer.{RoomFor, Wrote};
ghost use Rattle.syntax.specs.Message.{read_formula};
ghost use Rattle.pieces.specs.Lines.{line, place, refused_line, rounds_line, state_line};
ghost use Rattle.pieces.specs.Cut.{read_cut};
ghost use Rattle.pieces.specs.Pieces.{states_lines, text_in, ended_lines};

use decimals::Writer;
use refusal::Fault;
use wire::Width;

// A line of a word and a number.
#[tactic(auto, using(decimals::proofs::Writing::both))]
fn put_line(out: &mut Writer<'_>, word: &[u8], n: u32)
    requires { RoomFor out.old (line (word.now ++ decimal n)) }
    ensures { Wrote out.old (line (word.now ++ decimal n)) out.new }
{
    out.number(word, n);
    out.word(b"\n");
}

// Where the field at fault starts, if one is at fault.
#[tactic(auto, using(crate::proofs::Lines::place_some))]
fn put_place(out: &mut Writer<'_>, offset: usize)
    requires { RoomFor out.old (place offset) }
    ensures { Wrote out.old (place offset) out.new }
{
    if offset != 0 {
        out.word(b" at ");
        out.long(offset as u64);
    }
}

// A refusal's line.
#[tactic(auto, unfolding(crate::specs::Lines::refused_line))]
pub fn put_refused(out: &mut Writer<'_>, number: u8, offset: usize)
    requires { RoomFor out.old (refused_line number offset) }
    ensures { Wrote out.old (refused_line number offset) out.new }
{
    out.number(b"refused ", number as u32);
    put_place(out, offset);
    out.word(b"\n");
}

// A state's line.
#[tactic(auto, unfolding(crate::specs::Lines::state_line))]
fn put_state(out: &mut Writer<'_>, a: u32, yes: bool)
    requires { RoomFor out.old (state_line yes a) }
    ensures { Wrote out.old (state_line yes a) out.new }
{
    out.decimal(a);
    out.word(if yes { b" yes\n" } else { b" no\n" });
}

// All states' lines, from the numbers of their nodes.
fn put_states(out: &mut Writer<'_>, values: &[u64])
    requires few { length values.now ≤ 256 }
    requires fits { RoomFor out.old (states_lines values.now) }
    ensures { Wrote out.old (states_lines values.now) out.new }
{
    for (a, value) in values.iter().enumerate() {
        put_state(out, a as u32, *value == 0);
    }
}

// Where the model ends in what was read.
#[tactic(auto, using(wire::proofs::Reading::reading), unfolding(crate::specs::Cut::read_cut))]
pub fn model_end(input: &[u8]) -> Result<usize, Fault>
    ensures { result ≡ read_cut input.now }
{
    if 8192 < input.len() {
        return Err(wire::SHORT);
    }
    let total = wire::read(input, 0, Width::Four)? as usize;
    if input.len() < total {
        return Err(wire::SHORT);
    }
    Ok(total)
}

// The text of an accepted formula, in a room of 2,048 bytes; of another, nothing.
fn put_text(out: &mut Writer<'_>, f: &[u8], p: u32)
    requires { out.old.at + 2048 ≤ length out.old.room.now }
    ensures { Wrote out.old (text_in (read_formula p f.now)) out.new }
{
    let written = text::text(f, p, &mut out.room[out.at..]);
    out.at += written.unwrap_or(0);
}

// The lines of a question that settled: the formula's text, the count of rounds, and each state's answer.
pub fn put_settled(out: &mut Writer<'_>, f: &[u8], p: u32, count: u32, values: &[u64])
    requires few { length values.now ≤ 256 }
    requires room { out.old.at + 8192 ≤ length out.old.room.now }
    ensures { Wrote out.old (ended_lines (read_formula p f.now) count values.now) out.new }
{
    put_text(out, f, p);
    out.word(b"\n");
    put_line(out, b"rounds ", count);
    put_states(out, values);
}
