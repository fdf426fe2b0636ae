// The nightly sheet of a message of entries, of 6 bytes each: kind, the refusal's number, rounds.
use crate::line::Line;
use crate::sums;
use tally::{Entry, Tally};
use wire::Width;

// The tally after the entries, how many were accepted, and the sum of the numbers that were answered.
#[derive(Drop)]
struct Sheet {
    tally: Tally,
    accepted: u64,
    answers: u32,
}

// The entry of these bytes, if it is of a kind that there is.
fn entry_of(s: &[u8; 6]) -> Option<Entry> {
    let rounds = wire::number_at(s, 2, Width::Four);
    match s[0] {
        0 => Some(Entry::Yes(rounds)),
        1 => Some(Entry::No(rounds)),
        2 => Some(Entry::Refused(s[1], rounds)),
        _ => None,
    }
}

impl Sheet {
    // A sheet with one entry more. A message has far fewer entries than would wrap the count.
    fn with(self, entry: Entry) -> Sheet {
        let entered = self.tally.enter(entry);
        let number = refusal::number(&entered.answer);
        Sheet {
            tally: entered.tally,
            accepted: self.accepted.wrapping_add((number == 0) as u64),
            answers: sums::add(self.answers, number),
        }
    }

    // All entries, into one tally that starts at zero; none where the message has bytes that are no entry.
    fn of(message: &[u8]) -> Option<Sheet> {
        let (entries, rest) = message.as_chunks::<6>();
        if !rest.is_empty() {
            return None;
        }
        let mut sheet = Sheet {
            tally: Tally::zero(),
            accepted: 0,
            answers: 1,
        };
        for entry in entries {
            sheet = sheet.with(entry_of(entry)?);
        }
        Some(sheet)
    }

    // How many were accepted, the sum of the answers, and the numbers of the report.
    fn line(self) -> Line {
        let mut line = Line::new()
            .byte(b'N')
            .number(self.accepted)
            .sum(self.answers);
        for number in self.tally.numbers() {
            line = line.number(number);
        }
        line
    }
}

// The line of a message of entries, where it is one.
pub fn line(message: &[u8]) -> Option<Line> {
    Some(Sheet::of(message)?.line())
}
