// The library for programs in C and Rust (include/otzarvim.h): numbers and slices in, the paper's number out. No function has a
// `requires`: any bytes and any lengths will do. The number, the verdict, the count and the length are the answer, and are always
// written; rooms, counts, rows and states are lent memory, which a refusal leaves as it came.
#![tactic(auto)]

ghost use Rattle.std.specs.Prelude.{◌≡◌};
ghost use Rattle.graph.specs.Message.{read_graph};
ghost use Rattle.graph.specs.Answers as g;
ghost use Rattle.model.specs.Message.{read_model};
ghost use Rattle.model.specs.Answers as m;
ghost use Rattle.syntax.specs.Message.{read_formula};
ghost use Rattle.formula.specs.Answers as f;
ghost use Rattle.refusal.specs.Number.{answer_number, answer_offset};
ghost use Rattle.turns.specs.Outcome as rounds;
ghost use Rattle.rounds.specs.Promise as promise;
ghost use Rattle.text.specs.Written as text;
ghost use Rattle.build.specs.Built as b;
ghost use Rattle.settling.specs.Answer as v;
ghost use Rattle.settling.specs.Answer.{verdict_number};
ghost use Rattle.states.specs.Promise.{Promise, PromiseAll, PromiseGraph};
ghost use Rattle.search.specs.Answer as search;
ghost use Rattle.search.specs.Promise as found;
ghost use Rattle.export.specs.Results.{graph_counts, model_counts, formula_count, found_number, searched, asked_one, asked_all, states_lent};
ghost use Rattle.export.specs.Claimed.{judged_verdict, JudgedBy, WrittenBy};
ghost use Rattle.tally.specs.Entered as t;
ghost use Rattle.lines.specs.Lines as report;
ghost use Rattle.entries.specs.Returned.{entry_of};
ghost use Rattle.export.specs.Sheet.{noted_of, EnteredInto};

use refusal::Fault;
use tally::{Entry, Tally};
use verdict::AllStates;

// Checks a graph message; gives its nodes, hyperedges and cover edges.
#[unsafe(no_mangle)]
pub extern "C" fn otzarvim_graph_check(
    message: &[u8],
    counts: &mut [u32; 3],
    offset: &mut usize,
) -> u8
    ensures value { result ≡ answer_number (g.checked (read_graph message.now)) }
    ensures counts_after { counts.new ≡ graph_counts (g.checked (read_graph message.now)) counts.old }
    ensures offset_after { offset.new ≡ answer_offset (g.checked (read_graph message.now)) }
{
    let checked = graph::check(message);
    if let Ok(found) = checked {
        *counts = [found.nodes, found.hypers, found.covers];
    }
    *offset = refusal::offset(&checked);
    refusal::number(&checked)
}

// Checks a model message; gives its states, propositions and transitions.
#[unsafe(no_mangle)]
pub extern "C" fn otzarvim_model_check(
    message: &[u8],
    counts: &mut [u32; 3],
    offset: &mut usize,
) -> u8
    ensures value { result ≡ answer_number (m.checked (read_model message.now)) }
    ensures counts_after { counts.new ≡ model_counts (m.checked (read_model message.now)) counts.old }
    ensures offset_after { offset.new ≡ answer_offset (m.checked (read_model message.now)) }
{
    let checked = model::check(message);
    if let Ok(found) = checked {
        *counts = [found.states, found.propositions, found.transitions];
    }
    *offset = refusal::offset(&checked);
    refusal::number(&checked)
}

// Checks a formula message whose propositions are below p; gives its rows.
#[unsafe(no_mangle)]
pub extern "C" fn otzarvim_formula_check(
    message: &[u8],
    p: u32,
    rows: &mut u32,
    offset: &mut usize,
) -> u8
    ensures value { result ≡ answer_number (f.checked (read_formula p message.now)) }
    ensures rows_after { rows.new ≡ formula_count (f.checked (read_formula p message.now)) rows.old }
    ensures offset_after { offset.new ≡ answer_offset (f.checked (read_formula p message.now)) }
{
    let checked = formula::check(message, p);
    if let Ok(count) = checked {
        *rows = count;
    }
    *offset = refusal::offset(&checked);
    refusal::number(&checked)
}

// Runs the rounds on a graph message; gives the count of rounds.
#[unsafe(no_mangle)]
pub extern "C" fn otzarvim_rounds_solve(
    message: &[u8],
    budget: u32,
    room: &mut [u64],
    count: &mut u32,
    offset: &mut usize,
) -> u8
    ensures value { result ≡ rounds.rounds_number (rounds.outcome_of (rounds.read_rounds message.now room.old) budget) }
    ensures room_after { room.new ≡ rounds.rounds_room (rounds.read_rounds message.now room.old) budget room.old }
    ensures count_after { count.new ≡ rounds.rounds_count (rounds.outcome_of (rounds.read_rounds message.now room.old) budget) }
    ensures offset_after { offset.new ≡ answer_offset (rounds.outcome_of (rounds.read_rounds message.now room.old) budget) }
    ensures promise { promise.Promise message.now budget room.old room.new
        (rounds.outcome_of (rounds.read_rounds message.now room.old) budget) }
{
    let outcome = rounds::solve(message, budget, room);
    *count = turns::count(&outcome);
    *offset = refusal::offset(&outcome);
    turns::number(&outcome)
}

// The number of a search's verdict, and 0 for none.
fn found_number(verdict: Option<search::Verdict>) -> u8
    ensures { result ≡ found_number verdict }
{
    match verdict {
        None => 0,
        Some(search::Verdict::Yes) => 1,
        Some(search::Verdict::No) => 2,
    }
}

// Searches from one node of a graph message; gives the verdict's number and how many edges were taken off the stacks.
#[unsafe(no_mangle)]
pub extern "C" fn otzarvim_search(
    message: &[u8],
    root: u32,
    words: &mut [u32],
    verdict: &mut u8,
    count: &mut u64,
    offset: &mut usize,
) -> u8
    ensures value { result ≡ answer_number (searched message.now root words.old) }
    ensures words_after { words.new ≡ search.words_of (search.read_asked message.now root words.old) words.old }
    ensures verdict_after { verdict.new ≡ found_number (search.answer_verdict (searched message.now root words.old)) }
    ensures count_after { count.new ≡ search.answer_count (searched message.now root words.old) }
    ensures offset_after { offset.new ≡ answer_offset (searched message.now root words.old) }
    ensures promise { found.Promise message.now root words.old words.new (searched message.now root words.old) }
{
    let answer = search::decide(message, root, words);
    *verdict = found_number(search::verdict(&answer));
    *count = search::count(&answer);
    *offset = refusal::offset(&answer);
    refusal::number(&answer)
}

// The number of a checker's verdict on claims.
fn judged_verdict(judged: Result<bool, Fault>) -> u8
    ensures { result ≡ judged_verdict judged }
{
    match judged {
        Err(_) => 0,
        Ok(true) => 1,
        Ok(false) => 2,
    }
}

// Checks claims about the graph of a message; gives the verdict's number.
#[unsafe(no_mangle)]
pub extern "C" fn otzarvim_claims_check(
    message: &[u8],
    claims: &[u8],
    verdict: &mut u8,
    offset: &mut usize,
) -> u8
    ensures { JudgedBy message.now claims.now result verdict.new offset.new }
{
    let judged = claims::check(message, claims);
    *verdict = judged_verdict(judged);
    *offset = refusal::offset(&judged);
    refusal::number(&judged)
}

// Writes claims about the graph of a message that the checker accepts.
#[unsafe(no_mangle)]
pub extern "C" fn otzarvim_claims_write(
    message: &[u8],
    claims: &mut [u8],
    words: &mut [u64],
    offset: &mut usize,
) -> u8
    ensures { WrittenBy message.now claims.old words.old claims.new words.new result
        offset.new }
{
    let written = ranks::write(message, claims, words);
    *offset = refusal::offset(&written);
    refusal::number(&written)
}

// Writes the text of a formula message whose propositions are below p; gives its length.
#[unsafe(no_mangle)]
pub extern "C" fn otzarvim_formula_text(
    message: &[u8],
    p: u32,
    room: &mut [u8],
    length: &mut usize,
    offset: &mut usize,
) -> u8
    ensures value { result ≡ answer_number (text.written_of (read_formula p message.now) room.old) }
    ensures room_after { room.new ≡ text.text_room (read_formula p message.now) room.old }
    ensures length_after { length.new ≡ text.written_length (text.written_of (read_formula p message.now) room.old) }
    ensures offset_after { offset.new ≡ answer_offset (text.written_of (read_formula p message.now) room.old) }
{
    let written = text::text(message, p, room);
    *length = written.unwrap_or(0);
    *offset = refusal::offset(&written);
    refusal::number(&written)
}

// The verdict on a state; gives the verdict's number, the count of rounds and the length of the graph.
#[unsafe(no_mangle)]
pub extern "C" fn otzarvim_verdict(
    model: &[u8],
    formula: &[u8],
    state: u32,
    budget: u32,
    bytes: &mut [u8],
    values: &mut [u64],
    verdict: &mut u8,
    count: &mut u32,
    length: &mut usize,
    offset: &mut usize,
) -> u8
    ensures value { result ≡ v.answer_number (asked_one model.now formula.now state budget bytes.old values.old) }
    ensures bytes_after { bytes.new ≡ v.bytes_of (v.read_asked model.now formula.now state bytes.old values.old) bytes.old }
    ensures values_after { values.new ≡ v.values_of (v.read_asked model.now formula.now state bytes.old values.old) budget
        values.old }
    ensures verdict_after { verdict.new ≡ verdict_number (v.answer_verdict (asked_one model.now formula.now state budget
        bytes.old values.old)) }
    ensures count_after { count.new ≡ v.answer_count (asked_one model.now formula.now state budget bytes.old
        values.old) }
    ensures length_after { length.new ≡ v.answer_length (asked_one model.now formula.now state budget bytes.old
        values.old) }
    ensures offset_after { offset.new ≡ answer_offset (asked_one model.now formula.now state budget bytes.old
        values.old) }
    ensures promise { Promise model.now formula.now state budget bytes.old values.old bytes.new
        values.new (asked_one model.now formula.now state budget bytes.old values.old) }
{
    let answer = verdict::decide(model, formula, state, budget, bytes, values);
    *verdict = settling::verdict_number(settling::verdict_in(&answer));
    *count = turns::count(&answer);
    *length = settling::length(&answer);
    *offset = refusal::offset(&answer);
    turns::number(&answer)
}

// The graph of a model and a formula alone; gives its length.
#[unsafe(no_mangle)]
pub extern "C" fn otzarvim_graph(
    model: &[u8],
    formula: &[u8],
    bytes: &mut [u8],
    length: &mut usize,
    offset: &mut usize,
) -> u8
    ensures value { result ≡ answer_number (v.built_alone (v.read_built model.now formula.now bytes.old)) }
    ensures bytes_after { bytes.new ≡ v.bytes_of (v.read_built model.now formula.now bytes.old) bytes.old }
    ensures length_after { length.new ≡ b.built_length (v.built_alone (v.read_built model.now formula.now bytes.old)) }
    ensures offset_after { offset.new ≡ answer_offset (v.built_alone (v.read_built model.now formula.now bytes.old)) }
    ensures promise_graph { PromiseGraph model.now formula.now bytes.old bytes.new
        (v.built_alone (v.read_built model.now formula.now bytes.old)) }
{
    let built = verdict::graph(model, formula, bytes);
    *length = built.unwrap_or(0);
    *offset = refusal::offset(&built);
    refusal::number(&built)
}

// All states at once; gives the count of rounds, the length of the graph, the place of state 0's number and how many states there are, where it settled.
#[unsafe(no_mangle)]
pub extern "C" fn otzarvim_settle(
    model: &[u8],
    formula: &[u8],
    budget: u32,
    bytes: &mut [u8],
    values: &mut [u64],
    count: &mut u32,
    length: &mut usize,
    states: &mut [u32; 2],
    offset: &mut usize,
) -> u8
    ensures value { result ≡ v.all_number (asked_all model.now formula.now budget bytes.old values.old) }
    ensures bytes_after { bytes.new ≡ v.bytes_of (v.read_settled model.now formula.now bytes.old values.old) bytes.old }
    ensures values_after { values.new ≡ v.values_of (v.read_settled model.now formula.now bytes.old values.old) budget
        values.old }
    ensures count_after { count.new ≡ v.all_count (asked_all model.now formula.now budget bytes.old
        values.old) }
    ensures length_after { length.new ≡ v.all_length (asked_all model.now formula.now budget bytes.old
        values.old) }
    ensures states_after { states.new ≡ states_lent (asked_all model.now formula.now budget bytes.old
        values.old) states.old }
    ensures offset_after { offset.new ≡ answer_offset (asked_all model.now formula.now budget bytes.old
        values.old) }
    ensures promise_all { PromiseAll model.now formula.now budget bytes.old values.old bytes.new
        values.new (asked_all model.now formula.now budget bytes.old values.old) }
{
    let settled = verdict::settle(model, formula, budget, bytes, values);
    if let Ok(
        AllStates::Settled {
            first,
            states: many,
            ..
        },
    ) = settled
    {
        *states = [first, many];
    }
    *count = turns::count(&settled);
    *length = settling::length(&settled);
    *offset = refusal::offset(&settled);
    turns::number(&settled)
}

// The tally after an entry, and the number of the answer.
#[derive(Drop)]
pub struct Noted {
    pub tally: Tally,
    pub number: u8,
}

// Enters what a call returned into a tally by value.
fn note(tally: Tally, number: u8, verdict: u8, rounds: u32) -> Noted
    ensures { result ≡ noted_of (t.enter_of tally (entry_of number verdict rounds)) }
{
    let entered = tally.enter(Entry::returned(number, verdict, rounds));
    Noted {
        tally: entered.tally,
        number: refusal::number(&entered.answer),
    }
}

// Enters what a call returned into the tally that is lent: the one function that is lent a struct.
#[unsafe(no_mangle)]
pub extern "C" fn otzarvim_tally_enter(
    tally: &mut Tally,
    number: u8,
    verdict: u8,
    rounds: u32,
) -> u8
    ensures { EnteredInto tally.old (entry_of number verdict rounds) result tally.new }
{
    let noted = note(*tally, number, verdict, rounds);
    *tally = noted.tally;
    noted.number
}

// Writes the report of a tally, which is its numbers as they lie in memory; gives its length.
#[unsafe(no_mangle)]
pub extern "C" fn otzarvim_tally_report(
    numbers: &[u64; 15],
    room: &mut [u8],
    length: &mut usize,
) -> u8
    ensures value { result ≡ answer_number (report.reported_of numbers.now room.old) }
    ensures room_after { room.new ≡ report.report_room numbers.now room.old }
    ensures length_after { length.new ≡ report.reported_length (report.reported_of numbers.now room.old) }
{
    let reported = tally::report(numbers, room);
    *length = reported.unwrap_or(0);
    refusal::number(&reported)
}
