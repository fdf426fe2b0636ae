// The line of each call: its letter, and a field for each answer. A body that is past the program's limits, cut short or has
// bytes left over has no line.
use crate::body::Body;
use crate::line::Line;
use crate::{rooms, sheet, sums};
use refusal::Fault;
use turns::Ended;
use verdict::Verdict;

// The line of an answer begins with the letter, the number and the offset.
fn begun(letter: u8, number: u8, offset: usize) -> Line {
    Line::new()
        .byte(letter)
        .number(number as u64)
        .number(offset as u64)
}

// The same of an answer that is OK or a refusal, and of one whose budget may be spent.
fn checked<T>(letter: u8, answer: &Result<T, Fault>) -> Line {
    begun(letter, refusal::number(answer), refusal::offset(answer))
}

fn ended<E: Ended>(letter: u8, answer: &Result<E, Fault>) -> Line {
    begun(letter, turns::number(answer), refusal::offset(answer))
}

// A field: a space, and the word for a verdict, or for none.
fn verdict_word(line: Line, yes: Option<bool>) -> Line {
    match yes {
        Some(true) => line.text(b" yes"),
        Some(false) => line.text(b" no"),
        None => line.text(b" none"),
    }
}

// `G`: a graph.
pub fn graph(mut body: Body) -> Option<Line> {
    let message = body.last_message()?;
    Some(checked(b'G', &graph::check(message)))
}

// `M`: a model.
pub fn model(mut body: Body) -> Option<Line> {
    let message = body.last_message()?;
    Some(checked(b'M', &model::check(message)))
}

// `F`: how many propositions there are; a formula.
pub fn formula(mut body: Body) -> Option<Line> {
    let p = body.number()?;
    let message = body.last_message()?;
    Some(checked(b'F', &formula::check(message, p)))
}

// `T`: how many propositions there are, a room in bytes; a formula. The number and offset, the length and the room's sum.
pub fn text(mut body: Body, bytes: &mut [u8]) -> Option<Line> {
    let p = body.number()?;
    let len = rooms::front(body.number()?, bytes)?;
    let message = body.last_message()?;
    let room = &mut bytes[..len];
    rooms::fill(room);
    let written = text::text(message, p, room);
    Some(
        checked(b'T', &written)
            .number(written.unwrap_or(0) as u64)
            .sum(sums::of(room)),
    )
}

// `R`: a budget, a room in numbers; a graph. The number and offset, the count and the room's sum.
pub fn rounds(mut body: Body, values: &mut [u64]) -> Option<Line> {
    let budget = body.number()?;
    let len = rooms::front(body.number()?, values)?;
    let message = body.last_message()?;
    let room = &mut values[..len];
    rooms::fill(room);
    let outcome = rounds::solve(message, budget, room);
    Some(
        ended(b'R', &outcome)
            .number(turns::count(&outcome) as u64)
            .sum(sums::of(room)),
    )
}

// `V`: a state, a budget, a room in bytes, a room in numbers; a model, a formula. The number and offset, the verdict, the count, the
// length and both rooms' sums.
pub fn verdict(mut body: Body, bytes: &mut [u8], values: &mut [u64]) -> Option<Line> {
    let state = body.number()?;
    let budget = body.number()?;
    let len = rooms::front(body.number()?, bytes)?;
    let count = rooms::front(body.number()?, values)?;
    let model = body.message()?;
    let formula = body.last_message()?;
    let room = &mut bytes[..len];
    let numbers = &mut values[..count];
    rooms::fill(room);
    rooms::fill(numbers);
    let answer = verdict::decide(model, formula, state, budget, room, numbers);
    Some(
        verdict_word(
            ended(b'V', &answer),
            settling::verdict_in(&answer).map(|v| matches!(v, Verdict::Yes)),
        )
        .number(turns::count(&answer) as u64)
        .number(settling::length(&answer) as u64)
        .sum(sums::of(room))
        .sum(sums::of(numbers)),
    )
}

// `S`: a root, a room in words; a graph. The number and offset, the verdict, how many edges were taken off the stacks, and the room's sum.
pub fn search(mut body: Body, words: &mut [u32]) -> Option<Line> {
    let root = body.number()?;
    let len = rooms::front(body.number()?, words)?;
    let message = body.last_message()?;
    let room = &mut words[..len];
    rooms::fill(room);
    let found = search::decide(message, root, room);
    Some(
        verdict_word(
            checked(b'S', &found),
            search::verdict(&found).map(|v| matches!(v, search::Verdict::Yes)),
        )
        .number(search::count(&found))
        .sum(sums::of(room)),
    )
}

// `C`: a graph, claims.
pub fn claims(mut body: Body) -> Option<Line> {
    let graph = body.message()?;
    let claimed = body.last_message()?;
    let judged = claims::check(graph, claimed);
    Some(verdict_word(checked(b'C', &judged), judged.ok()))
}

// `W`: a room for claims in bytes, a room in numbers; a graph.
pub fn certify(mut body: Body, bytes: &mut [u8], values: &mut [u64]) -> Option<Line> {
    let len = rooms::front(body.number()?, bytes)?;
    let count = rooms::front(body.number()?, values)?;
    let message = body.last_message()?;
    let room = &mut bytes[..len];
    let words = &mut values[..count];
    rooms::fill(room);
    rooms::fill(words);
    let written = ranks::write(message, room, words);
    let lent = sums::of(words);
    match written {
        Ok(()) => certified(message, room, lent),
        Err(_) => Some(
            checked(b'W', &written)
                .text(b" none")
                .sum(1)
                .sum(sums::of(room))
                .sum(lent),
        ),
    }
}

// Where claims were written, the front of the room holds as many as the graph has nodes: what the checker says of them, the sum of the
// claimed values, that of the rest of their room, and that of the words.
fn certified(message: &[u8], room: &[u8], lent: u32) -> Option<Line> {
    let counts = graph::check(message).ok()?;
    let (claimed, rest) = room.split_at_checked(counts.nodes as usize * 16)?;
    let judged = claims::check(message, claimed);
    Some(
        verdict_word(begun(b'W', 0, 0), judged.ok())
            .sum(sums::of_claimed(claimed))
            .sum(sums::of(rest))
            .sum(lent),
    )
}

// `N`: entries, into one tally that starts at zero.
pub fn entries(mut body: Body) -> Option<Line> {
    sheet::line(body.last_message()?)
}
