// Why a call is refused. The paper's number of each case is one definition, `number_of`. BUDGET is no case of it: a spent budget is an
// answer of its own, with its count. Nor is DEAD, number 7: it is no longer given, since runs may stop.
#![tactic(auto)]

ghost use Rattle.std.specs.Prelude.{◌≡◌};
ghost use Rattle.refusal.specs.Number.{number_of, answer_number, answer_offset};

#[derive(Clone, Copy, Debug, PartialEq, Eq)]
pub enum Refusal {
    Length,
    Version,
    Limit,
    Order,
    Name,
    Size,
    Room,
    Form,
    Profile,
}

// A refusal, and where in the message at fault the field starts that was found wrong: its offset, and 0 where no field is at fault.
#[derive(Clone, Copy, Debug, PartialEq, Eq)]
pub struct Fault {
    pub refusal: Refusal,
    pub offset: usize,
}

// Faults that no field of a message has.
pub const NAME: Fault = Fault {
    refusal: Refusal::Name,
    offset: 0,
};

pub const LIMIT: Fault = Fault {
    refusal: Refusal::Limit,
    offset: 0,
};

pub const SIZE: Fault = Fault {
    refusal: Refusal::Size,
    offset: 0,
};

pub const ROOM: Fault = Fault {
    refusal: Refusal::Room,
    offset: 0,
};

pub const PROFILE: Fault = Fault {
    refusal: Refusal::Profile,
    offset: 0,
};

impl Refusal {
    // The number that the paper gives the refusal.
    pub fn number(self) -> u8
        ensures { result ≡ number_of self }
    {
        match self {
            Refusal::Length => 2,
            Refusal::Version => 3,
            Refusal::Limit => 4,
            Refusal::Order => 5,
            Refusal::Name => 6,
            Refusal::Size => 8,
            Refusal::Room => 9,
            Refusal::Form => 10,
            Refusal::Profile => 11,
        }
    }
}

impl Fault {
    // The number that the paper gives its refusal.
    pub fn number(self) -> u8
        ensures { result ≡ number_of self.refusal }
    {
        let refusal = self.refusal;
        refusal.number()
    }
}

// The number that the paper gives an answer: 0 is OK.
pub fn number<T>(answer: &Result<T, Fault>) -> u8
    ensures { result ≡ answer_number answer.now }
{
    match answer {
        Ok(_) => 0,
        Err(e) => e.number(),
    }
}

// Where the field starts that an answer found wrong, and 0 where none was.
pub fn offset<T>(answer: &Result<T, Fault>) -> usize
    ensures { result ≡ answer_offset answer.now }
{
    match answer {
        Ok(_) => 0,
        Err(e) => e.offset,
    }
}
