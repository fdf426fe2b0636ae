// A line of output, gathered and then written at once.
ghost use Rattle.std.specs.Prelude.{◌≡◌, ◌≤◌, ℕ, List, [], ◌∷◌, length, take, OnOk, OnErr};
ghost use Rattle.std.specs.Io.KnownBytes.{Appends};
ghost use Rattle.io.specs.Digits.{last_digits};
ghost use Rattle.intake.specs.Fronts.{AppendsFront};
ghost use Rattle.trials.specs.Lines.{more, WithNumber};

use std::io::{Result, Write};
use std::marker::Model;

// The first len bytes are the line's; what would run past the end is dropped.
#[derive(Drop)]
pub struct Line {
    bytes: [u8; 256],
    len: usize,
}

// A line is seen as its text.
impl Model for Line {
    ghost Value = { List ℕ };

    ghost view = { λ l. take l.len l.bytes };

    ghost invariant = { λ l. (length l.bytes ≡ 256) × (l.len ≤ 256) };
}

impl Line {
    // No bytes yet.
    pub fn new() -> Self
        ensures { result ≡ [] }
    {
        Line {
            bytes: [0; 256],
            len: 0,
        }
    }

    // One byte more.
    pub fn byte(self, b: u8) -> Self
        ensures { result ≡ more self (b ∷ []) }
    {
        self.text(&[b])
    }

    // These bytes more.
    pub fn text(mut self, s: &[u8]) -> Self
        ensures { result ≡ more self s.now }
    {
        let start = self.len;
        let k = s.len().min(256 - start);
        self.bytes[start..start + k].copy_from_slice(&s[..k]);
        self.len = start + k;
        self
    }

    // A field: a space, and a number in decimal.
    pub fn number(self, n: u64) -> Self
        ensures { WithNumber self n result }
    {
        let mut digits = [0u8; 20];
        let k = io::decimal(n, &mut digits);
        self.byte(b' ').text(&digits[..k])
    }

    // A field: a space, and a sum in 8 hex digits.
    pub fn sum(self, n: u32) -> Self
        ensures { result ≡ more self (32 ∷ last_digits 16 8 n) }
    {
        let mut digits = [0u8; 16];
        let k = io::hex(n as u64, 8, &mut digits);
        self.byte(b' ').text(&digits[..k])
    }

    // Writes the line with its end; at an error some front of it is written.
    pub fn write<W: Write>(self, to: &mut W) -> Result<()>
        ensures ok { OnOk result (Appends (W.contents to.old) (W.contents to.new) (more self (10 ∷ []))) }
        ensures err { OnErr result (AppendsFront (W.contents to.old) (W.contents to.new) (more self (10 ∷ []))) }
    {
        let whole = self.byte(b'\n');
        intake::put(to, &whole.bytes[..whole.len])
    }
}
