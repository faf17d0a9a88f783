//! 64-bit arithmetic as the language has it: it wraps, and division truncates toward zero.

ghost use Rattle.std.specs.Prelude.{◌≡◌, ◌≢◌, ◌↔◌, ◌<◌, ℤ, pos, negsuc, unsigned_abs, ◌+ℤ◌, ◌-ℤ◌, ◌*ℤ◌, ◌<ℤ◌, ◌≤ℤ◌, int_div, int_rem, FitsSigned, IsTrue, IsErr, IfOk};
ghost use Rattle.std.specs.Int.{w64};
ghost use Rattle.loft_base.specs.Arithmetic.{wrapped, AreCongruent, least};

use crate::errors::Div;

/// Law of wrapping: the result lies in the range of `i64`, is equal to the number modulo 2^64,
/// and is the only such number.
pub fn wrapping_law()
    ensures in_range { (z : ℤ) → FitsSigned w64 (wrapped z) }
    ensures congruent { (z : ℤ) → AreCongruent (wrapped z) z }
    ensures only { (z x : ℤ) → FitsSigned w64 x → AreCongruent x z → x ≡ wrapped z }
{}

/// Laws of division: quotient and remainder make up the dividend; the remainder is nearer to 0
/// than the divisor and isn't on the other side of 0 than the dividend; the least number over -1
/// is itself and leaves 0.
pub fn division_law()
    ensures whole { (a b : ℤ) → int_div a b *ℤ b +ℤ int_rem a b ≡ a }
    ensures near { (a b : ℤ) → b ≢ pos 0 → unsigned_abs (int_rem a b) < unsigned_abs b }
    ensures not_below { (a b : ℤ) → pos 0 ≤ℤ a → pos 0 ≤ℤ int_rem a b }
    ensures not_above { (a b : ℤ) → a ≤ℤ pos 0 → int_rem a b ≤ℤ pos 0 }
    ensures least_quotient { wrapped (int_div least (negsuc 0)) ≡ least }
    ensures least_remainder { int_rem least (negsuc 0) ≡ pos 0 }
{}

/// The sum, wrapped.
pub fn add(a: i64, b: i64) -> i64
    ensures { result ≡ wrapped (a +ℤ b) }
{
    a.wrapping_add(b)
}

/// The difference, wrapped.
pub fn sub(a: i64, b: i64) -> i64
    ensures { result ≡ wrapped (a -ℤ b) }
{
    a.wrapping_sub(b)
}

/// The product, wrapped.
pub fn mul(a: i64, b: i64) -> i64
    ensures { result ≡ wrapped (a *ℤ b) }
{
    a.wrapping_mul(b)
}

/// The quotient, truncated toward zero and wrapped: the least number over -1 is itself.
/// `Div` comes exactly where the divisor is 0.
pub fn quot(a: i64, b: i64) -> Result<i64, Div>
    ensures zero { IsErr result ↔ (b ≡ pos 0) }
    ensures value { IfOk result (λ q. q ≡ wrapped (int_div a b)) }
{
    if b == 0 {
        return Err(Div);
    }
    Ok(a.wrapping_div(b))
}

/// What the truncated quotient leaves: it has the sign of the dividend, and is 0 for a divisor
/// of -1. `Div` comes exactly where the divisor is 0.
pub fn rem(a: i64, b: i64) -> Result<i64, Div>
    ensures zero { IsErr result ↔ (b ≡ pos 0) }
    ensures value { IfOk result (λ r. r ≡ int_rem a b) }
{
    if b == 0 {
        return Err(Div);
    }
    Ok(a.wrapping_rem(b))
}

/// Whether the first number is below the second.
pub fn less(a: i64, b: i64) -> bool
    ensures { IsTrue result ↔ (a <ℤ b) }
{
    a < b
}
