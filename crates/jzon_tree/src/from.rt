//! Values from types whose conversion allocates nothing (docs/RULES.md, "Conversions"). An integer
//! becomes a number with exponent 0 (`integer_parts` in clauses).

ghost use Rattle.std.specs.Prelude.{◌≡◌, pos, string_bytes};
ghost use Rattle.jzon_base.specs.Decimal.{integer_parts};
ghost use Rattle.jzon_tree.specs.Value.{Value, boolean, long, number, text};
ghost use Rattle.jzon_tree.specs.View.{view, view_object};

use crate::object::Object;
use crate::value::JsonValue;
use jzon_base::number::Number;

/// Types that convert into a value without an allocation, so without an error. `JsonValue`
/// implements `From` for each, and each implements `IntoJson`. No other crate can name this trait.
pub trait Direct: Drop {
    // The meaning of the value that `self` becomes.
    ghost value: { Self → Value };

    /// Converts into the value that `value` names.
    fn into_value(self) -> JsonValue
        ensures { view result ≡ value self };
}

/// Allocates nothing.
impl<T: Direct> From<T> for JsonValue {
    ghost from_gives = { λ x v. view v ≡ T.value x };

    fn from(source: T) -> JsonValue {
        source.into_value()
    }
}

impl Direct for u8 {
    ghost value = { λ n. number (integer_parts (pos n)) };

    fn into_value(self) -> JsonValue {
        JsonValue::Number(Number::from(self))
    }
}

impl Direct for u16 {
    ghost value = { λ n. number (integer_parts (pos n)) };

    fn into_value(self) -> JsonValue {
        JsonValue::Number(Number::from(self))
    }
}

impl Direct for u32 {
    ghost value = { λ n. number (integer_parts (pos n)) };

    fn into_value(self) -> JsonValue {
        JsonValue::Number(Number::from(self))
    }
}

impl Direct for u64 {
    ghost value = { λ n. number (integer_parts (pos n)) };

    fn into_value(self) -> JsonValue {
        JsonValue::Number(Number::from(self))
    }
}

impl Direct for usize {
    ghost value = { λ n. number (integer_parts (pos n)) };

    fn into_value(self) -> JsonValue {
        JsonValue::Number(Number::from(self))
    }
}

impl Direct for i8 {
    ghost value = { λ n. number (integer_parts n) };

    fn into_value(self) -> JsonValue {
        JsonValue::Number(Number::from(self))
    }
}

impl Direct for i16 {
    ghost value = { λ n. number (integer_parts n) };

    fn into_value(self) -> JsonValue {
        JsonValue::Number(Number::from(self))
    }
}

impl Direct for i32 {
    ghost value = { λ n. number (integer_parts n) };

    fn into_value(self) -> JsonValue {
        JsonValue::Number(Number::from(self))
    }
}

impl Direct for i64 {
    ghost value = { λ n. number (integer_parts n) };

    fn into_value(self) -> JsonValue {
        JsonValue::Number(Number::from(self))
    }
}

impl Direct for isize {
    ghost value = { λ n. number (integer_parts n) };

    fn into_value(self) -> JsonValue {
        JsonValue::Number(Number::from(self))
    }
}

impl Direct for bool {
    ghost value = { boolean };

    fn into_value(self) -> JsonValue {
        JsonValue::Boolean(self)
    }
}

impl Direct for Number {
    ghost value = { number };

    fn into_value(self) -> JsonValue {
        JsonValue::Number(self)
    }
}

/// A `JsonValue::String`, however short.
impl Direct for String {
    ghost value = { λ s. text long (string_bytes s) };

    fn into_value(self) -> JsonValue {
        JsonValue::String(self)
    }
}

impl Direct for Object {
    ghost value = { view_object };

    #[tactic(auto, using(crate::proofs::Values::Views::views))]
    fn into_value(self) -> JsonValue {
        JsonValue::Object(self)
    }
}
