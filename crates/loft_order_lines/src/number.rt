//! Numbers.

ghost use Rattle.std.specs.Prelude.{◌≡◌, ℕ, ℤ, ◌<◌, ◌^◌, Some, IfSome};
ghost use Rattle.std.specs.Fmt.{decimal, signed_decimal};
ghost use Rattle.loft_order_lines.specs.Texts.{NumberHasText};

use std::str;

/// The number that the digits write, if they write one.
pub fn number_of(digits: &[u8]) -> Option<u64>
    ensures range { IfSome result (λ n. n < 2 ^ 64) }
    ensures read { (n : ℕ) → n < 2 ^ 64 → digits.now ≡ decimal n → result ≡ Some n }
{
    str::from_utf8(digits).ok()?.parse::<u64>().ok()
}

/// The number that the bytes write, if they write one, with a sign or without.
pub fn integer_of(bytes: &[u8]) -> Option<i64>
    ensures text { IfSome result NumberHasText }
    ensures read { (z : ℤ) → NumberHasText z → bytes.now ≡ signed_decimal z → result ≡ Some z }
{
    str::from_utf8(bytes).ok()?.parse::<i64>().ok()
}
