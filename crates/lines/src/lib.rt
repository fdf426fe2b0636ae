// The report of the nightly sheet: numbers, one on a line.
#![tactic(auto)]

ghost use Rattle.std.specs.Prelude.{◌≡◌, ◌≤◌, length};
ghost use Rattle.decimals.specs.Writer.{RoomFor, Wrote};
ghost use Rattle.lines.specs.Lines.{lines, reported_of, report_room};

use decimals::Writer;
use refusal::Fault;
pub use refusal::number;

// Writes numbers in decimal, each ended by a line feed.
fn put_lines(out: &mut Writer<'_>, numbers: &[u64])
    requires { RoomFor out.old (lines numbers.now) }
    ensures { Wrote out.old (lines numbers.now) out.new }
{
    for n in numbers {
        out.long(*n);
        out.word(b"\n");
    }
}

// Writes the report of a tally's numbers, where it fits, and tells its length. 15 numbers of at most 20 digits and a line feed fit 315 bytes.
pub fn report(numbers: &[u64; 15], room: &mut [u8]) -> Result<usize, Fault>
    ensures answer { result ≡ reported_of numbers.now room.old }
    ensures room { room.new ≡ report_room numbers.now room.old }
{
    let mut text = [0u8; 315];
    let mut out = Writer {
        room: &mut text,
        at: 0,
    };
    put_lines(&mut out, numbers);
    let length = out.at;
    if room.len() < length {
        return Err(refusal::ROOM);
    }
    room[..length].copy_from_slice(&text[..length]);
    Ok(length)
}
