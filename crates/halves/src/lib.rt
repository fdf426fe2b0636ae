// The lent room of values in two halves: a round in the first n numbers, the next in the n behind them.
#![tactic(auto)]

ghost use Rattle.std.specs.Prelude.{◌≡◌, true, false, ℕ, ◌+◌, ◌≤◌, min, length};
ghost use Rattle.halves.specs.Room.{Cleared, Raised, Alike, Level, Same, Beside};

use value::Value;

// Sets the first k values to infinity.
pub fn clear(k: usize, room: &mut [u64])
    requires { k ≤ length room.old }
    ensures { Cleared k room.old room.new }
{
    room[..k].fill(Value::INFINITE.0);
}

// Brings the first half up to the second.
pub fn raise(n: usize, room: &mut [u64])
    requires { n + n ≤ length room.old }
    ensures { Raised n n room.old room.new }
{
    room.copy_within(n..n + n, 0);
}

// So many values are compared without a stop.
const BLOCK: usize = 128;

// How many of the values left are.
pub fn block(left: usize) -> usize
    ensures { result ≡ min left 128 }
{
    left.min(BLOCK)
}

// Whether the k values at a position are the same in both halves; it never stops early, so that several are compared at once, and gathers
// the bits in which they differ, which a processor does in fewer steps than to gather whether they do.
pub fn alike(n: usize, at: usize, k: usize, room: &[u64]) -> bool
    requires k_bound { at + k ≤ n }
    requires n_in_bounds { n + n ≤ length room.now }
    ensures { (result ≡ true → Alike n at k room.now) × (result ≡ false → ¬ Alike n at k room.now) }
{
    let mut apart: u64 = 0;
    for j in at..at + k {
        apart |= room[j] ^ room[n + j];
    }
    apart == 0
}

// Whether both halves are the same from a node to before another. Not a `for` over `step_by`: of where that ends a proof learns too little.
pub fn between(n: usize, from: usize, to: usize, room: &[u64]) -> bool
    requires n_in_bounds { n + n ≤ length room.now }
    requires to_le_n { to ≤ n }
    ensures { (result ≡ true → Level n from to room.now) × (result ≡ false → ¬ Level n from to room.now) }
{
    let mut i = from;
    while i < to {
        let k = block(to - i);
        if !alike(n, i, k, room) {
            return false;
        }
        i += k;
    }
    true
}

// Whether both halves are the same, where they are but for the nodes from lo to before hi.
pub fn same(n: usize, lo: usize, hi: usize, room: &[u64]) -> bool
    requires n_in_bounds { n + n ≤ length room.now }
    requires hi_le_n { hi ≤ n }
    requires beside { Beside n lo hi room.now }
    ensures { (result ≡ true → Same n room.now) × (result ≡ false → ¬ Same n room.now) }
{
    between(n, lo, hi, room)
}
