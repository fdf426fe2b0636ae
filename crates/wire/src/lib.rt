// Numbers in message bytes, big-endian, over the width, and the start that all messages share.
#![tactic(auto)]

ghost use Rattle.std.specs.Prelude.{◌≡◌, ◌+◌, ◌≤◌, ◌&&◌, length, nat_le, nat_lt};
ghost use Rattle.wire.specs.Bytes.{number, put};
ghost use Rattle.wire.specs.Field.{width_of, long_width};
ghost use Rattle.wire.specs.Read.{field, below, source_from};
ghost use Rattle.wire.specs.Start.{read_start, only};
ghost use Rattle.wire.specs.Counts.{read_count};
ghost use Rattle.wire.specs.Begin.{start};
ghost use Rattle.wire.specs.Runs.{MayRun, Runs};

use refusal::{Fault, Refusal};

// How many bytes a field has. It is a value and no const parameter, since a count of a header carries its own.
#[derive(Clone, Copy)]
pub enum Width {
    One,
    Two,
    Four,
}

impl Width {
    // How many bytes that is.
    pub fn bytes(self) -> usize
        ensures { result ≡ width_of self }
    {
        match self {
            Width::One => 1,
            Width::Two => 2,
            Width::Four => 4,
        }
    }
}

// How many bytes a number of 64 bits has, and half of it.
pub const LONG: usize = 8;

const HALF: usize = 4;

// How many times as large a number is with two bytes more behind it; and the same for a number of 64 bits.
pub const TWO_MORE: u32 = 65536;

pub const TWO_MORE_LONG: u64 = TWO_MORE as u64;

// Too few bytes are LENGTH, and no field's fault.
pub const SHORT: Fault = Fault {
    refusal: Refusal::Length,
    offset: 0,
};

// The header of a kind of message: how long it is, its version and its kind.
#[derive(Clone, Copy)]
pub struct Head {
    pub length: usize,
    pub version: u32,
    pub kind: u32,
}

// A count in a header: where it stands, how wide it is, and what is allowed.
#[derive(Clone, Copy)]
pub struct Count {
    pub at: usize,
    pub width: Width,
    pub least: u32,
    pub most: u32,
}

// Where the version and the kind stand, behind the length field, and where a header goes on behind them.
pub const VERSION_AT: usize = 4;

pub const KIND_AT: usize = 5;

pub const START: usize = 6;

// Where a reading of records stands: the position, a count that the message's own rules need, and the source before. Two numbers of
// 32 bits would share the bytes in which a step has a fault's offset, and the compiler would put them together and take them apart.
#[derive(Clone, Copy)]
pub struct State {
    pub at: usize,
    pub seen: usize,
    pub prev: u32,
}

impl State {
    // Where the records of a list start: none was seen, and no source stands before them.
    pub fn start(at: usize) -> State
        ensures { result ≡ start at }
    {
        State {
            at,
            seen: 0,
            prev: 0,
        }
    }
}

// The number of a field that is known to fit. Where the width is known, the compiler makes one load of the loop.
pub fn number_at(s: &[u8], at: usize, width: Width) -> u32
    requires { at + width_of width ≤ length s.now }
    ensures { result ≡ number (width_of width) s.now at }
{
    let mut n: u32 = 0;
    for i in 0..width.bytes() {
        n = n * 256 + (s[at + i] as u32);
    }
    n
}

// The number of a field of 8 bytes that is known to fit: two numbers of 4 bytes, each of which the compiler makes one load.
pub fn long_at(s: &[u8], at: usize) -> u64
    requires { at + long_width ≤ length s.now }
    ensures { result ≡ number long_width s.now at }
{
    let behind = at + HALF;
    let high = number_at(s, at, Width::Four) as u64;
    let low = number_at(s, behind, Width::Four) as u64;
    high * 4294967296 + low
}

// The field at a position. The last position where one fits does not depend on this one, so a loop needs a single test for each.
#[tactic(auto, unfolding(crate::specs::Read::field))]
pub fn read(s: &[u8], at: usize, width: Width) -> Result<u32, Fault>
    ensures { result ≡ field (width_of width) s.now at }
{
    let k = width.bytes();
    if s.len() < k {
        return Err(SHORT);
    }
    let last = s.len() - k;
    if last < at {
        return Err(SHORT);
    }
    Ok(number_at(s, at, width))
}

// Stores a number's bytes where they fit: the compiler makes one store of the copy.
pub fn store(b: &mut [u8], at: usize, width: Width, v: u32)
    requires { at + width_of width ≤ length b.old }
    ensures { b.new ≡ put b.old at (width_of width) v }
{
    match width {
        Width::One => {
            b[at] = (v % 256) as u8;
        }
        Width::Two => {
            let low = (v % TWO_MORE) as u16;
            b[at..at + 2].copy_from_slice(&low.to_be_bytes());
        }
        Width::Four => b[at..at + 4].copy_from_slice(&v.to_be_bytes()),
    }
}

// Stores the 8 bytes of a number where they fit.
pub fn store_long(b: &mut [u8], at: usize, v: u64)
    requires { at + long_width ≤ length b.old }
    ensures { b.new ≡ put b.old at long_width v }
{
    b[at..at + LONG].copy_from_slice(&v.to_be_bytes());
}

// A field whose number must be below a limit, or this is its fault.
#[tactic(auto, using(crate::proofs::Reading::reading), unfolding(crate::specs::Read::below))]
pub fn read_below(s: &[u8], at: usize, width: Width, limit: u64, fault: Fault) -> Result<u32, Fault>
    ensures { result ≡ below (width_of width) s.now at limit fault }
{
    let n = read(s, at, width)?;
    if limit <= n as u64 {
        return Err(fault);
    }
    Ok(n)
}

// Whether a source is one of n nodes or states and not below the one before it: how far it is above that one, which is at most n, tells
// both in one test.
pub fn follows(source: u32, n: u32, prev: u32) -> bool
    requires { prev ≤ n }
    ensures { result ≡ (nat_lt source n && nat_le prev source) }
{
    let above = source.wrapping_sub(prev);
    let room = n - prev;
    above < room
}

// A source, one of n nodes or states and not below the one before it, that stands here in its message.
#[tactic(auto, using(crate::proofs::Reading::reading), unfolding(crate::specs::Read::below, crate::specs::Read::source_from))]
pub fn read_source(s: &[u8], at: usize, n: u32, prev: u32, offset: usize) -> Result<u32, Fault>
    requires { prev ≤ n }
    ensures { result ≡ source_from s.now at n prev offset }
{
    let source = read(s, at, Width::Two)?;
    if follows(source, n, prev) {
        return Ok(source);
    }
    let refusal = if n <= source {
        Refusal::Name
    } else {
        Refusal::Order
    };
    Err(Fault { refusal, offset })
}

// The start of a message: enough bytes for its header, its length field, version and kind.
#[tactic(auto, using(crate::proofs::Reading::reading), unfolding(crate::specs::Start::read_start))]
pub fn open(s: &[u8], head: Head) -> Result<(), Fault>
    ensures { result ≡ read_start s.now head }
{
    if s.len() < head.length {
        return Err(SHORT);
    }
    let total = read(s, 0, Width::Four)?;
    if total as usize != s.len() {
        return Err(SHORT);
    }
    read_only(s, VERSION_AT, head.version)?;
    read_only(s, KIND_AT, head.kind)?;
    Ok(())
}

// A byte that may be this number only: the version or the kind of a message.
#[tactic(auto, using(crate::proofs::Reading::reading), unfolding(crate::specs::Start::only))]
fn read_only(s: &[u8], at: usize, allowed: u32) -> Result<u32, Fault>
    ensures { result ≡ only s.now at allowed }
{
    let n = read(s, at, Width::One)?;
    if n != allowed {
        return Err(Fault {
            refusal: Refusal::Version,
            offset: at,
        });
    }
    Ok(n)
}

// A count of a header, in what is allowed.
#[tactic(auto, using(crate::proofs::Reading::reading), unfolding(crate::specs::Counts::read_count))]
pub fn read_count(s: &[u8], count: Count) -> Result<u32, Fault>
    ensures { result ≡ read_count s.now count }
{
    let n = read(s, count.at, count.width)?;
    if n < count.least || count.most < n {
        return Err(Fault {
            refusal: Refusal::Limit,
            offset: count.at,
        });
    }
    Ok(n)
}

// k records one behind another, each read by the closure in the state that the ones before it left: the state past them, or the first fault.
// Their count goes down, so that it alone takes a register.
pub fn run<F: Fn(State) -> Result<State, Fault>>(
    k: u32,
    first: State,
    read: F,
) -> Result<State, Fault>
    requires { MayRun (F.pre read) (F.post read) k first }
    ensures { Runs (F.post read) k first result }
{
    let mut st = first;
    for _ in (0..k).rev() {
        st = read(st)?;
    }
    Ok(st)
}
