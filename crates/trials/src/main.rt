// Answers a batch of calls from standard input with a line for each.
#![tactic(auto)]

mod answers;
mod body;
mod line;
mod rooms;
mod sheet;
mod sums;

ghost use Rattle.intake.specs.Fronts.{AppendsOnly};

use body::Body;
use line::Line;
use std::io::{Read, Result, Write};
use wire::Width;

// The line that answers a call, where there is such a call.
fn answer(
    letter: u8,
    body: &[u8],
    bytes: &mut [u8],
    values: &mut [u64],
    words: &mut [u32],
) -> Option<Line> {
    let body = Body::new(body);
    match letter {
        b'G' => answers::graph(body),
        b'M' => answers::model(body),
        b'F' => answers::formula(body),
        b'T' => answers::text(body, bytes),
        b'R' => answers::rounds(body, values),
        b'V' => answers::verdict(body, bytes, values),
        b'S' => answers::search(body, words),
        b'C' => answers::claims(body),
        b'W' => answers::certify(body, bytes, values),
        b'N' => answers::entries(body),
        _ => None,
    }
}

// Says that this is no call; nothing more is read. Here and below an error is one of reading or writing, and what was written before stays.
fn refuse<W: Write>(to: &mut W, letter: u8) -> Result<bool>
    ensures { AppendsOnly (W.contents to.old) (W.contents to.new) }
{
    Line::new().byte(b'?').number(letter as u64).write(to)?;
    Ok(false)
}

// Reads the body of a call, answers the call, and says whether to go on.
fn answer_body<R: Read, W: Write>(
    from: &mut R,
    to: &mut W,
    letter: u8,
    body: &mut [u8],
    bytes: &mut [u8],
    values: &mut [u64],
    words: &mut [u32],
) -> Result<bool>
    ensures { AppendsOnly (W.contents to.old) (W.contents to.new) }
{
    if intake::fill(from, body)? < body.len() {
        return refuse(to, letter);
    }
    match answer(letter, body, bytes, values, words) {
        Some(line) => {
            line.write(to)?;
            Ok(true)
        }
        None => refuse(to, letter),
    }
}

// Answers the next call, if there is one, and says whether to go on.
fn answer_next<R: Read, W: Write>(
    from: &mut R,
    to: &mut W,
    space: &mut [u8],
    bytes: &mut [u8],
    values: &mut [u64],
    words: &mut [u32],
) -> Result<bool>
    ensures { AppendsOnly (W.contents to.old) (W.contents to.new) }
{
    let mut head = [0u8; 5];
    let got = intake::fill(from, &mut head)?;
    if got == 0 {
        return Ok(false);
    }
    let letter = head[0];
    if got < head.len() {
        return refuse(to, letter);
    }
    match rooms::front(wire::number_at(&head, 1, Width::Four), space) {
        Some(size) => answer_body(from, to, letter, &mut space[..size], bytes, values, words),
        None => refuse(to, letter),
    }
}

// A proved loop has to end, and nothing says that the input does: so it counts its turns, up to a number that no run uses up.
fn answer_all<R: Read, W: Write>(
    from: &mut R,
    to: &mut W,
    space: &mut [u8],
    bytes: &mut [u8],
    values: &mut [u64],
    words: &mut [u32],
) -> Result<()>
    ensures { AppendsOnly (W.contents to.old) (W.contents to.new) }
{
    for _ in 0..u64::MAX {
        if !answer_next(from, to, space, bytes, values, words)? {
            return Ok(());
        }
    }
    Ok(())
}

// The largest call has 4 numbers and 2 messages; rooms are the fronts of what is lent here, and its lengths are their limits.
fn main(rt: HostRuntime) -> Result<()> {
    let mut space = [0u8; 131096];
    let mut bytes = [0u8; 65536];
    let mut values = [0u64; 32768];
    let mut words = [0u32; 262144];
    let mut from = rt.stdin();
    let mut to = rt.stdout();
    answer_all(
        &mut from,
        &mut to,
        &mut space,
        &mut bytes,
        &mut values,
        &mut words,
    )
}
