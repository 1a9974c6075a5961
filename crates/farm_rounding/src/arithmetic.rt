//! Whole-number arithmetic of the figures: one signed operation a function, so that each bound is proved once.

ghost use Rattle.std.specs.Prelude.{◌≡◌, ◌≤◌, ◌+◌, ◌*◌, ◌^◌, max, pos, neg_ℤ, ◌≤ℤ◌, ◌*ℤ◌, ◌+ℤ◌, ◌-ℤ◌};
ghost use Rattle.std.specs.Int.RustNames.{unsigned_abs};

/// The product of two numbers of magnitudes at most `A` and `B`.
pub fn product<const A: u64, const B: u64>(a: i64, b: i64) -> i128
    requires a { unsigned_abs a ≤ A }
    requires b { unsigned_abs b ≤ B }
    ensures product { result ≡ a *ℤ b }
    ensures size { unsigned_abs result ≤ A * B }
    ensures positive { pos 1 ≤ℤ a → pos 1 ≤ℤ b → pos 1 ≤ℤ result }
{
    a as i128 * b as i128
}

/// The sum of two numbers of magnitudes at most 10^36.
pub fn sum(a: i128, b: i128) -> i128
    requires a { unsigned_abs a ≤ 10 ^ 36 }
    requires b { unsigned_abs b ≤ 10 ^ 36 }
    ensures sum { result ≡ a +ℤ b }
    ensures size { unsigned_abs result ≤ unsigned_abs a + unsigned_abs b }
{
    a + b
}

/// The first of two numbers of magnitudes at most 10^36, less the second.
pub fn wide_difference(a: i128, b: i128) -> i128
    requires a { unsigned_abs a ≤ 10 ^ 36 }
    requires b { unsigned_abs b ≤ 10 ^ 36 }
    ensures difference { result ≡ a -ℤ b }
    ensures size { unsigned_abs result ≤ unsigned_abs a + unsigned_abs b }
{
    a - b
}

/// The first of two numbers of magnitudes at most 10^18, less the second.
pub fn difference(a: i64, b: i64) -> i64
    requires a { unsigned_abs a ≤ 10 ^ 18 }
    requires b { unsigned_abs b ≤ 10 ^ 18 }
    ensures difference { result ≡ a -ℤ b }
    ensures size { unsigned_abs result ≤ unsigned_abs a + unsigned_abs b }
    ensures size_above_zero { pos 0 ≤ℤ a → pos 0 ≤ℤ b → unsigned_abs result ≤ max (unsigned_abs a) (unsigned_abs b) }
{
    a - b
}

/// A number of magnitude at most 10^36 with its sign turned.
pub fn negated(a: i128) -> i128
    requires fits { unsigned_abs a ≤ 10 ^ 36 }
    ensures negated { result ≡ neg_ℤ a }
    ensures size { unsigned_abs result ≡ unsigned_abs a }
{
    -a
}
