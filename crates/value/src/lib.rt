// The value of a node, and the bound of a cover edge.
#![tactic(auto)]

ghost use Rattle.std.specs.Prelude.{◌≡◌, ℕ, ◌≤◌, leb};
ghost use Rattle.value.specs.Value.{plus, greatest, least, meets};
ghost use Rattle.value.specs.Coded.{bound_of, code_of};
ghost use Rattle.value.specs.Stored.{infinite, meaning, stored};

// How large a value may be: at most a number, or anything finite.
#[derive(Clone, Copy)]
pub enum Bound {
    Within(u32),
    Unbounded,
}

impl Bound {
    // The bound that a number of 4 bytes says: 4,294,967,295 means no bound.
    pub fn coded(code: u32) -> Bound
        ensures { result ≡ bound_of code }
    {
        if code == 4294967295 {
            return Bound::Unbounded;
        }
        Bound::Within(code)
    }

    // The number of 4 bytes that says the bound.
    pub fn code(self) -> u32
        ensures { result ≡ code_of self }
    {
        match self {
            Bound::Within(k) => k,
            Bound::Unbounded => 4294967295,
        }
    }

    // The greatest stored number that is within the bound: one comparison tells whether a value is.
    fn limit(self) -> u64
        ensures { (k : ℕ) → k ≤ infinite → leb k result ≡ meets self (meaning k) }
    {
        match self {
            Bound::Within(k) => k as u64,
            Bound::Unbounded => Value::INFINITE.0 - 1,
        }
    }
}

// A whole number or infinity, as it is stored.
#[derive(Clone, Copy)]
pub struct Value(pub u64);

impl Value {
    pub const INFINITE: Value = Value(18446744073709551615);

    // This and a weight: one test serves infinity and a sum that no 64 bits hold.
    pub fn add(self, weight: u32) -> Value
        ensures { result.0 ≡ stored (plus weight (meaning self.0)) }
    {
        let wide = weight as u64;
        if Value::INFINITE.0 - wide <= self.0 {
            return Value::INFINITE;
        }
        Value(wide + self.0)
    }

    // The greater of this and another.
    pub fn greatest(self, other: Value) -> Value
        ensures { result.0 ≡ stored (greatest (meaning self.0) (meaning other.0)) }
    {
        if self.0 < other.0 { other } else { self }
    }

    // The lesser of this and another.
    pub fn least(self, other: Value) -> Value
        ensures { result.0 ≡ stored (least (meaning self.0) (meaning other.0)) }
    {
        if self.0 < other.0 { self } else { other }
    }

    // Whether this is within a bound.
    pub fn within(self, bound: Bound) -> bool
        ensures { result ≡ meets bound (meaning self.0) }
    {
        self.0 <= bound.limit()
    }
}
