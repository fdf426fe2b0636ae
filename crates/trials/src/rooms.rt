// The rooms that calls are lent: fronts of what the program has, filled afresh.
ghost use Rattle.std.specs.Prelude.{◌≡◌, ℕ, ◌+◌, ◌^◌, ◌<◌, ◌≤◌, length, IfSome};
ghost use Rattle.trials.specs.Rooms.{Each, byte_at, value_at, word_at};

// How many items a call asks for, where there are so many.
pub fn front<T>(asked: u32, room: &[T]) -> Option<usize>
    ensures { IfSome result (λ n. (n ≡ asked) × (n ≤ length room.now)) }
{
    let n = asked as usize;
    if n <= room.len() { Some(n) } else { None }
}

// What a room of such items holds at each place before a call.
pub trait Filled: Copy {
    ghost filled_at: { ℕ → Self };

    fn filled(place: usize) -> Self
        requires { place + 1 < 2 ^ 64 }
        ensures { result ≡ filled_at place };
}

impl Filled for u8 {
    ghost filled_at = { byte_at };

    fn filled(place: usize) -> u8 {
        (place % 251) as u8
    }
}

impl Filled for u64 {
    ghost filled_at = { value_at };

    fn filled(place: usize) -> u64 {
        place as u64 + 1
    }
}

// No room of the program has so many words that one wouldn't fit.
impl Filled for u32 {
    ghost filled_at = { word_at };

    fn filled(place: usize) -> u32 {
        ((place + 1) % 4294967296) as u32
    }
}

// Fills a room, place by place.
pub fn fill<T: Filled>(room: &mut [T])
    ensures { Each T.filled_at room.new }
{
    for (place, item) in room.iter_mut().enumerate() {
        *item = T::filled(place);
    }
}
