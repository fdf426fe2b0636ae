// What is entered into the nightly sheet, and the entry of what a call of the library returned.
#![tactic(auto)]

ghost use Rattle.std.specs.Prelude.{◌≡◌};
ghost use Rattle.entries.specs.Entries.{is_entry, rounds_of, count_place};
ghost use Rattle.entries.specs.Returned.{entry_of};

// What is entered: yes, no or a refusal's number, with the rounds that were reported.
#[derive(Clone, Copy, Debug, PartialEq, Eq)]
pub enum Entry {
    Yes(u32),
    No(u32),
    Refused(u8, u32),
}

impl Entry {
    // The entry of what a call returned: yes or no where it returned OK, else its refusal. What no call returns is an entry that the table
    // doesn't have.
    pub fn returned(number: u8, verdict: u8, rounds: u32) -> Self
        ensures { result ≡ entry_of number verdict rounds }
    {
        match (verdict, number) {
            (0, _) => Entry::Refused(number, rounds),
            (1, 0) => Entry::Yes(rounds),
            (2, 0) => Entry::No(rounds),
            _ => Entry::Refused(0, rounds),
        }
    }

    // Whether it is yes, no or a number of the table.
    pub fn is_entry(self) -> bool
        ensures { result ≡ is_entry self }
    {
        match self {
            Entry::Yes(_) | Entry::No(_) => true,
            Entry::Refused(n, _) => 1 <= n && n <= 11,
        }
    }

    // Which of the counts it goes into.
    pub fn place(self) -> usize
        ensures { result ≡ count_place self }
    {
        match self {
            Entry::Yes(_) => 0,
            Entry::No(_) => 1,
            Entry::Refused(n, _) => n as usize + 1,
        }
    }

    // The rounds that count: BUDGET is the one refusal that has any.
    pub fn rounds(self) -> u64
        ensures { result ≡ rounds_of self }
    {
        match self {
            Entry::Yes(rounds) | Entry::No(rounds) | Entry::Refused(1, rounds) => rounds as u64,
            Entry::Refused(_, _) => 0,
        }
    }
}
