// Records that say in their first two bytes where they come from, and in their last two where they lead, tested in order.
#![tactic(auto)]

ghost use Rattle.std.specs.Prelude.{◌≡◌, ◌+◌, ◌*◌, ◌≤◌, length};
ghost use Rattle.ordered.specs.Ordered.{record_width, in_order, source_behind, last_named};

use wire::Width;

// The source behind the target at a position, unless the target is not below n or the source is below the one before. Both are read as one
// number of four bytes, which is below n * 65536 exactly when the target is below n: a number of two bytes is swapped by a rotation, which
// takes a jump's place in the processor, and one of four is not. Here and below no caller sees which fault is told.
fn next_source(s: &[u8], n: u32, at: usize, before: u32) -> Option<u32>
    requires { at + 4 ≤ length s.now }
    ensures { result ≡ source_behind s.now n before at }
{
    let end = at + 4;
    let limit = (n as u64) * wire::TWO_MORE_LONG;
    let both = wire::read_below(&s[at..end], 0, Width::Four, limit, refusal::NAME).ok()?;
    let source = both % wire::TWO_MORE;
    if source < before {
        return None;
    }
    Some(source)
}

// Whether the last of some records, whose source is the greatest, names only what exists.
fn last_named(s: &[u8], n: u32, target: usize, at: usize, greatest: u32) -> bool
    requires { at + record_width target ≤ length s.now }
    ensures { result ≡ last_named s.now n target at greatest }
{
    let last_at = at + target;
    let end = last_at + 2;
    greatest < n
        && wire::read_below(&s[last_at..end], 0, Width::Two, n as u64, refusal::NAME).is_ok()
}

// Whether k records from `first` on name only what exists, which is below n, with sources that do not fall. A source is the first two bytes of
// its record, and a target the last two, from `target` on. The last source is then the greatest, and only it is compared with n. Two records
// are passed in a turn: a processor takes few jumps at a time, and so there is one less. So the loop goes by position and is no for over records.
pub fn in_order(s: &[u8], n: u32, target: usize, k: u32, first: usize) -> bool
    requires { (n ≤ 65535) × (first + k * record_width target ≤ length s.now) }
    ensures { result ≡ in_order s.now n target k 0 first }
{
    if k == 0 {
        return true;
    }
    let width = target + 2;
    let twice = width + width;
    let end = first + (k as usize) * width;
    let behind = first + 2;
    let Ok(source) = wire::read(&s[first..behind], 0, Width::Two) else {
        return false;
    };
    let mut greatest = source;
    let mut at = first;
    while at + twice < end {
        let one = at + target;
        let other = one + width;
        let Some(between) = next_source(s, n, one, greatest) else {
            return false;
        };
        let Some(next) = next_source(s, n, other, between) else {
            return false;
        };
        greatest = next;
        at += twice;
    }
    if at + width < end {
        let left_at = at + target;
        let Some(last) = next_source(s, n, left_at, greatest) else {
            return false;
        };
        return last_named(s, n, target, at + width, last);
    }
    last_named(s, n, target, at, greatest)
}
