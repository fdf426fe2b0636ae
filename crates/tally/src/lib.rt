// The nightly sheet: one running tally that each verdict is entered into. The tally goes in by value and comes back.
#![tactic(auto)]

ghost use Rattle.std.specs.Prelude.{◌≡◌, ◌+◌, ◌<◌, ◌^◌, get_or, ltb};
ghost use Rattle.tally.specs.Tally.{most_accepted, together, at_zero, takes_more, counted_at};
ghost use Rattle.tally.specs.Entered.{enter_of};
ghost use Rattle.tally.specs.Report.{numbers_of};

pub use entries::Entry;
pub use lines::{number, report};
use refusal::Fault;

// How many entries were yes, no, and each refusal number from 1 to 11; the sum of their rounds, and the largest.
#[repr(C)]
#[derive(Clone, Copy)]
pub struct Tally {
    pub counts: [u64; 13],
    pub sum: u64,
    pub largest: u64,
}

// The tally after an entry, and whether the entry was taken.
#[derive(Clone, Copy)]
pub struct Entered {
    pub tally: Tally,
    pub answer: Result<(), Fault>,
}

// Whether fewer than 4,294,967,295 are counted. What is left is counted down, so that no content of the counts can pass 64 bits.
fn below_most(counts: [u64; 13]) -> bool
    ensures { result ≡ ltb (together counts) most_accepted }
{
    let mut left: u64 = 4294967295;
    for count in counts {
        if left <= count {
            return false;
        }
        left -= count;
    }
    true
}

impl Tally {
    // Where every tally starts.
    pub fn zero() -> Self
        ensures { result ≡ at_zero }
    {
        Tally {
            counts: [0; 13],
            sum: 0,
            largest: 0,
        }
    }

    // Whether one entry more with these rounds can be counted.
    fn takes_more(self, rounds: u64) -> bool
        ensures { result ≡ takes_more self rounds }
    {
        below_most(self.counts) && rounds <= u64::MAX - self.sum
    }

    // One more at a place, with these rounds.
    fn counted(mut self, at: usize, rounds: u64) -> Self
        requires { (at < 13) × (get_or self.counts at 0 + 1 < 2 ^ 64) × (self.sum + rounds < 2 ^ 64) }
        ensures { result ≡ counted_at self at rounds }
    {
        self.counts[at] += 1;
        self.sum += rounds;
        self.largest = self.largest.max(rounds);
        self
    }

    // The tally after an entry: NAME, then LIMIT, leave it as it came.
    pub fn enter(self, entry: Entry) -> Entered
        ensures { result ≡ enter_of self entry }
    {
        if !entry.is_entry() {
            return Entered {
                tally: self,
                answer: Err(refusal::NAME),
            };
        }
        let rounds = entry.rounds();
        if !self.takes_more(rounds) {
            return Entered {
                tally: self,
                answer: Err(refusal::LIMIT),
            };
        }
        let tally = self.counted(entry.place(), rounds);
        Entered {
            tally,
            answer: Ok(()),
        }
    }

    // The numbers of the report, in its order.
    pub fn numbers(self) -> [u64; 15]
        ensures { result ≡ numbers_of self }
    {
        let mut numbers = [0; 15];
        numbers[..13].copy_from_slice(&self.counts);
        numbers[13] = self.sum;
        numbers[14] = self.largest;
        numbers
    }
}
