//! Ids, values and points.

ghost use Rattle.std.specs.Prelude.{◌≡◌, ◌<◌, ◌^◌, ℕ, Some, IfSome};
ghost use Rattle.std.specs.Fmt.{decimal, signed_decimal};
ghost use Rattle.loft_order_lines.specs.Texts.{begins_number};
ghost use Rattle.loft_base.specs.declared.ids.ThreadId.{ThreadId};
ghost use Rattle.loft_base.specs.declared.ids.Value.{Value};
ghost use Rattle.loft_orders.specs.declared.order.At.{At};
ghost use Rattle.loft_orders.specs.Text.{id_text, value_text, at_text};
ghost use Rattle.loft_order_lines.specs.Texts.{OwnNames, IdHasText, NumberHasText, ValueHasText, PointHasText};

use crate::cut::cut_at;
use crate::list::Item;
use crate::names::{maker_named, module_named};
use crate::number::{integer_of, number_of};
use loft_base::{Room, ThreadId, Value};
use loft_orders::At;
use loft_tree::Heads;

/// The id that has this text, if one has.
pub fn id_of(heads: &Heads, bytes: &[u8]) -> Option<ThreadId>
    requires { OwnNames heads.now }
    ensures text { IfSome result (IdHasText heads.now) }
    ensures read { (t : ThreadId) → IdHasText heads.now t → bytes.now ≡ id_text heads.now t
        → result ≡ Some t }
{
    let (maker, number) = cut_at(bytes, b'.');
    let maker = maker_named(heads, maker)?;
    let seq = number_of(number)?;
    Some(ThreadId { maker, seq })
}

/// Whether the bytes begin as a number does.
fn begins_number(bytes: &[u8]) -> bool
    ensures { result ≡ begins_number bytes.now }
{
    match bytes {
        [] => false,
        [b, ..] => *b == b'-' || *b >= b'0' && *b <= b'9',
    }
}

/// The value that has this text, if one has.
pub fn value_of(heads: &Heads, bytes: &[u8]) -> Option<Value>
    requires { OwnNames heads.now }
    ensures text { IfSome result (ValueHasText heads.now) }
    ensures read { (v : Value) → ValueHasText heads.now v → bytes.now ≡ value_text heads.now v
        → result ≡ Some v }
{
    if begins_number(bytes) {
        Some(Value::Int(integer_of(bytes)?))
    } else {
        Some(Value::Thread(id_of(heads, bytes)?))
    }
}

/// The number of a stop that the digits write, if they write one.
pub fn stop_of(digits: &[u8]) -> Option<u32>
    ensures range { IfSome result (λ n. n < 2 ^ 32) }
    ensures read { (n : ℕ) → n < 2 ^ 32 → digits.now ≡ decimal n → result ≡ Some n }
{
    let number = number_of(digits)?;
    u32::try_from(number).ok()
}

/// The point of a program that has this text, if one has.
pub fn point_of(heads: &Heads, bytes: &[u8]) -> Option<At>
    requires { OwnNames heads.now }
    ensures text { IfSome result (PointHasText heads.now) }
    ensures read { (at : At) → PointHasText heads.now at → bytes.now ≡ at_text heads.now at
        → result ≡ Some at }
{
    let (module, stop) = cut_at(bytes, b':');
    let module = module_named(heads, module)?;
    let stop = stop_of(stop)?;
    Some(At { module, stop })
}

impl Item for Value {
    ghost text = { value_text };

    ghost has_text = { ValueHasText };

    fn read(_room: &mut Room, heads: &Heads, bytes: &[u8]) -> Option<Value> {
        value_of(heads, bytes)
    }
}

impl Item for i64 {
    ghost text = { λ _ number. signed_decimal number };

    ghost has_text = { λ _ number. NumberHasText number };

    fn read(_room: &mut Room, _heads: &Heads, bytes: &[u8]) -> Option<i64> {
        integer_of(bytes)
    }
}
