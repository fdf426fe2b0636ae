// Words and decimal numbers, written one after another into a lent room.
#![tactic(auto)]

ghost use Rattle.std.specs.Prelude.{◌≡◌, ◌+◌, ◌≤◌, ◌++◌, length};
ghost use Rattle.decimals.specs.Decimal.{decimal, long_decimal};
ghost use Rattle.decimals.specs.Writer.{RoomFor, Wrote};

// A lent room, and the position past what is written there.
#[derive(Drop)]
pub struct Writer<'a> {
    pub room: &'a mut [u8],
    pub at: usize,
}

impl Writer<'_> {
    // Writes a word.
    pub fn word(&mut self, word: &[u8])
        requires { RoomFor self.old word.now }
        ensures { Wrote self.old word.now self.new }
    {
        let end = self.at + word.len();
        self.room[self.at..end].copy_from_slice(word);
        self.at = end;
    }

    // Writes a number of 64 bits in decimal.
    pub fn long(&mut self, n: u64)
        requires { RoomFor self.old (long_decimal n) }
        ensures { Wrote self.old (long_decimal n) self.new }
    {
        if 10 <= n {
            self.long(n / 10);
        }
        self.word(&[b'0' + (n % 10) as u8]);
    }

    // Writes a number in decimal. Document 01's texts have numbers of 4 bytes, whose ten digits its contract names; no plainer without it.
    pub fn decimal(&mut self, n: u32)
        requires { RoomFor self.old (decimal n) }
        ensures { Wrote self.old (decimal n) self.new }
    {
        self.long(n as u64);
    }

    // Writes a word and a number after it.
    #[tactic(auto, using(crate::proofs::Writing::both))]
    pub fn number(&mut self, word: &[u8], n: u32)
        requires { RoomFor self.old (word.now ++ decimal n) }
        ensures { Wrote self.old (word.now ++ decimal n) self.new }
    {
        self.word(word);
        self.decimal(n);
    }
}

// How many digits a number has in decimal.
pub fn decimal_length(n: u32) -> usize
    ensures { result ≡ length (decimal n) }
{
    if n < 10 {
        1
    } else {
        decimal_length(n / 10) + 1
    }
}
