// The text of a formula message, written into a lent room.
#![tactic(auto)]

ghost use Rattle.std.specs.Prelude.{◌≡◌};
ghost use Rattle.text.specs.Written.{written_of, text_room};
ghost use Rattle.syntax.specs.Message.{read_formula};

use decimals::Writer;
use refusal::Fault;

// Writes the text of a formula message, checked with the number of propositions it may name, where it fits, and tells its length.
pub fn text(s: &[u8], p: u32, room: &mut [u8]) -> Result<usize, Fault>
    ensures answer { result ≡ written_of (read_formula p s.now) room.old }
    ensures room { room.new ≡ text_room (read_formula p s.now) room.old }
{
    let rows = formula::check(s, p)?;
    let root = rows - 1;
    if room.len() < wording::row_length(s, root) {
        return Err(refusal::ROOM);
    }
    let mut out = Writer { room, at: 0 };
    wording::put_row(s, root, &mut out);
    Ok(out.at)
}
