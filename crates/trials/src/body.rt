// The body of a call: numbers of 4 bytes first, then messages, each behind its length.

// The longest message that a call may hand over.
const MOST: u32 = 65536;

// What is not yet read of a body.
#[derive(Clone, Copy)]
pub struct Body<'a> {
    rest: &'a [u8],
}

impl<'a> Body<'a> {
    pub fn new(bytes: &'a [u8]) -> Self {
        Body { rest: bytes }
    }

    // The next number, if there is one.
    pub fn number(&mut self) -> Option<u32> {
        let (bytes, rest) = self.rest.split_first_chunk::<4>()?;
        self.rest = rest;
        Some(u32::from_be_bytes(*bytes))
    }

    // The next message, where it is there whole and no longer than a call's may be.
    pub fn message(&mut self) -> Option<&'a [u8]> {
        let long = self.number()?;
        if MOST < long {
            return None;
        }
        let (message, rest) = self.rest.split_at_checked(long as usize)?;
        self.rest = rest;
        Some(message)
    }

    // The last message: nothing stands behind it.
    pub fn last_message(&mut self) -> Option<&'a [u8]> {
        let message = self.message()?;
        if self.rest.is_empty() {
            Some(message)
        } else {
            None
        }
    }
}
