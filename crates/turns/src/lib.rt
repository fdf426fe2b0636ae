// How the rounds on a message end, and where each of their turns begins.
#![tactic(auto)]

ghost use Rattle.std.specs.Prelude.{◌≡◌, ℕ, ◌≤◌};
ghost use Rattle.refusal.specs.Number.{over_budget};
ghost use Rattle.turns.specs.Outcome.{outcome_number, outcome_count, outcome_within, ended_number, ended_count};

use refusal::Fault;

// How rounds ended: settled, or the budget spent, after so many of them.
#[derive(Clone, Copy)]
pub enum Outcome {
    Settled(u32),
    Spent(u32),
}

// What rounds that a budget bounds come to, where nothing is refused.
pub trait Ended {
    // The number that the paper gives it: OK, or BUDGET where the budget was spent.
    ghost number: { Self → ℕ };

    // The reported count of rounds.
    ghost count: { Self → ℕ };

    fn number(&self) -> u8
        ensures { result ≡ number self.now };

    fn count(&self) -> u32
        ensures { result ≡ count self.now };

    // No refusal has its number.
    ghost within: { (x : Self) → number x ≤ over_budget };
}

impl Ended for Outcome {
    ghost number = { outcome_number };

    ghost count = { outcome_count };

    ghost within = { outcome_within };

    fn number(&self) -> u8 {
        match self {
            Outcome::Settled(_) => 0,
            Outcome::Spent(_) => 1,
        }
    }

    fn count(&self) -> u32 {
        match *self {
            Outcome::Settled(m) | Outcome::Spent(m) => m,
        }
    }
}

// The number that the paper gives an answer: that of how it ended, or the refusal's.
pub fn number<E: Ended>(answer: &Result<E, Fault>) -> u8
    ensures { result ≡ ended_number E.number answer.now }
{
    match answer {
        Ok(end) => end.number(),
        Err(fault) => fault.number(),
    }
}

// The reported count of rounds: none with a refusal.
pub fn count<E: Ended>(answer: &Result<E, Fault>) -> u32
    ensures { result ≡ ended_count E.count answer.now }
{
    match answer {
        Ok(end) => end.count(),
        Err(_) => 0,
    }
}
