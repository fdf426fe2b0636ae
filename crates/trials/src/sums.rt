// Adler-32 sums of rooms.
ghost use Rattle.std.specs.Prelude.{◌≡◌, ℕ, List};
ghost use Rattle.wire.specs.Bytes.{bytes};
ghost use Rattle.trials.specs.Sums.{after, after_all, adler, spread, one_byte, eight_bytes, four_bytes, claimed_values};

// A sum with one byte more.
pub fn add(sum: u32, x: u8) -> u32
    ensures { result ≡ after sum x }
{
    let a = (sum % 65536 + x as u32) % 65521;
    let b = (sum / 65536 + a) % 65521;
    b * 65536 + a
}

// A sum with the last k bytes of a number more.
fn add_number(sum: u32, n: u64, k: u32) -> u32
    ensures { result ≡ after_all sum (bytes k n) }
{
    if 0 < k {
        let before = add_number(sum, n / 256, k - 1);
        return add(before, (n % 256) as u8);
    }
    sum
}

// What a room's item adds to a sum: its bytes.
pub trait Summed: Copy {
    ghost bytes_of: { Self → List ℕ };

    fn added_to(self, sum: u32) -> u32
        ensures { result ≡ after_all sum (bytes_of self) };
}

impl Summed for u8 {
    ghost bytes_of = { one_byte };

    fn added_to(self, sum: u32) -> u32 {
        add(sum, self)
    }
}

impl Summed for u64 {
    ghost bytes_of = { eight_bytes };

    fn added_to(self, sum: u32) -> u32 {
        add_number(sum, self, 8)
    }
}

impl Summed for u32 {
    ghost bytes_of = { four_bytes };

    fn added_to(self, sum: u32) -> u32 {
        add_number(sum, self as u64, 4)
    }
}

// The sum of a room's items.
pub fn of<T: Summed>(s: &[T]) -> u32
    ensures { result ≡ adler (spread T.bytes_of s.now) }
{
    let mut sum = 1;
    for item in s {
        sum = item.added_to(sum);
    }
    sum
}

// The sum of the first half of each claim, the claimed values.
pub fn of_claimed(s: &[u8]) -> u32
    ensures { result ≡ adler (claimed_values 0 s.now) }
{
    let mut sum = 1;
    for (at, byte) in s.iter().enumerate() {
        if at % 16 < 8 {
            sum = add(sum, *byte);
        }
    }
    sum
}
