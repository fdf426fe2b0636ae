// How a program takes its input in and gives its output out: a lent room is filled from a reader, and bytes are written to a writer.
#![tactic(auto)]

ghost use Rattle.std.specs.Prelude.{◌≡◌, ◌<◌, length, take, IfOk, OnOk, OnErr};
ghost use Rattle.std.specs.Io.{ReadsAtMost};
ghost use Rattle.std.specs.Io.KnownBytes.{Consumes, Appends, IsAtEnd};
ghost use Rattle.intake.specs.Fronts.{ConsumesFront, AppendsFront};

use std::io::{Error, ErrorKind, Read, Result, Write};

// Reads until the room is full or the input ends, and returns how many bytes now stand at the room's front. A read that fails is
// the error; what was read before it stands at the front.
pub fn fill<R: Read>(from: &mut R, room: &mut [u8]) -> Result<usize>
    ensures prefix_len { ReadsAtMost result room.new }
    ensures bytes { IfOk result (λ n. Consumes (R.remaining from.old) (R.remaining from.new) (take n room.new)) }
    ensures whole { IfOk result (λ n. n < length room.new → IsAtEnd (R.remaining from.new)) }
    ensures err { OnErr result (ConsumesFront (R.remaining from.old) (R.remaining from.new) room.new) }
{
    let mut done = 0;
    while done < room.len() {
        let n = from.read(&mut room[done..])?;
        if n == 0 {
            return Ok(done);
        }
        done += n;
    }
    Ok(done)
}

// Writes all of the bytes. A write that fails is the error, and one that takes none of them is `WriteZero`; what was written before
// it is the bytes' front.
pub fn put<W: Write>(to: &mut W, bytes: &[u8]) -> Result<()>
    ensures ok { OnOk result (Appends (W.contents to.old) (W.contents to.new) bytes.now) }
    ensures err { OnErr result (AppendsFront (W.contents to.old) (W.contents to.new) bytes.now) }
{
    let mut done = 0;
    while done < bytes.len() {
        let n = to.write(&bytes[done..])?;
        if n == 0 {
            return Err(Error::from(ErrorKind::WriteZero));
        }
        done += n;
    }
    Ok(())
}
