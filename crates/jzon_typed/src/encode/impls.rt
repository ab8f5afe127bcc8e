//! How the types of std are written.

ghost use Rattle.std.specs.Prelude.{◌≡◌, ◌<◌, ◌^◌, ◌∷◌, [], encode_utf8, pos, string_bytes, FitsSigned, IfOk, IsOkUnless};
ghost use Rattle.std.specs.BTreeMap as tree;
ghost use Rattle.std.specs.Char.{IsScalar};
ghost use Rattle.std.specs.Int.{w8, w16, w32, w64};
ghost use Rattle.std.specs.String.{string_cmp};
ghost use Rattle.jzon.specs.Decimal.{integer_parts};
ghost use Rattle.jzon.specs.Value.{Value, array, boolean, kind_of, number, text, values_of};
ghost use Rattle.jzon.specs.IntoJson.{ListMeans, MapMeans, OptionMeans};
ghost use Rattle.jzon.specs.View.{view};

use super::{Members, ToJson};
use jzon::number::Number;
use jzon::{Error, IntoJson, JsonValue, Result};
use std::alloc::Global;
use std::collections::BTreeMap;

/// A copy of the value.
impl ToJson for JsonValue {
    ghost shows = { λ w v. v ≡ view w };

    fn to_json(&self, alloc: Global) -> Result<JsonValue> {
        self.clone(alloc)
    }
}

impl ToJson for String {
    ghost shows = { λ s v. v ≡ text (kind_of (string_bytes s)) (string_bytes s) };

    fn to_json(&self, alloc: Global) -> Result<JsonValue> {
        self.as_str().into_json(alloc)
    }
}

impl ToJson for &str {
    ghost shows = { λ s v. v ≡ text (kind_of s.now) s.now };

    fn to_json(&self, alloc: Global) -> Result<JsonValue> {
        (*self).into_json(alloc)
    }
}

/// The string of the character.
impl ToJson for char {
    ghost shows = { λ c v. (v ≡ text (kind_of (encode_utf8 c)) (encode_utf8 c)) × IsScalar c };

    fn to_json(&self, alloc: Global) -> Result<JsonValue> {
        let mut bytes = [0; 4];
        self.encode_utf8(&mut bytes).into_json(alloc)
    }
}

impl ToJson for bool {
    ghost shows = { λ b v. v ≡ boolean b };

    fn to_json(&self, _alloc: Global) -> Result<JsonValue> {
        Ok(JsonValue::Boolean(*self))
    }
}

impl ToJson for Number {
    ghost shows = { λ n v. v ≡ number n };

    fn to_json(&self, _alloc: Global) -> Result<JsonValue> {
        Ok(JsonValue::Number(*self))
    }
}

impl ToJson for u8 {
    ghost shows = { λ n v. (v ≡ number (integer_parts (pos n))) × (n < 2 ^ 8) };

    fn to_json(&self, _alloc: Global) -> Result<JsonValue> {
        Ok(JsonValue::Number(Number::from(*self)))
    }
}

impl ToJson for u16 {
    ghost shows = { λ n v. (v ≡ number (integer_parts (pos n))) × (n < 2 ^ 16) };

    fn to_json(&self, _alloc: Global) -> Result<JsonValue> {
        Ok(JsonValue::Number(Number::from(*self)))
    }
}

impl ToJson for u32 {
    ghost shows = { λ n v. (v ≡ number (integer_parts (pos n))) × (n < 2 ^ 32) };

    fn to_json(&self, _alloc: Global) -> Result<JsonValue> {
        Ok(JsonValue::Number(Number::from(*self)))
    }
}

impl ToJson for u64 {
    ghost shows = { λ n v. (v ≡ number (integer_parts (pos n))) × (n < 2 ^ 64) };

    fn to_json(&self, _alloc: Global) -> Result<JsonValue> {
        Ok(JsonValue::Number(Number::from(*self)))
    }
}

impl ToJson for usize {
    ghost shows = { λ n v. (v ≡ number (integer_parts (pos n))) × (n < 2 ^ 64) };

    fn to_json(&self, _alloc: Global) -> Result<JsonValue> {
        Ok(JsonValue::Number(Number::from(*self)))
    }
}

impl ToJson for i8 {
    ghost shows = { λ n v. (v ≡ number (integer_parts n)) × FitsSigned w8 n };

    fn to_json(&self, _alloc: Global) -> Result<JsonValue> {
        Ok(JsonValue::Number(Number::from(*self)))
    }
}

impl ToJson for i16 {
    ghost shows = { λ n v. (v ≡ number (integer_parts n)) × FitsSigned w16 n };

    fn to_json(&self, _alloc: Global) -> Result<JsonValue> {
        Ok(JsonValue::Number(Number::from(*self)))
    }
}

impl ToJson for i32 {
    ghost shows = { λ n v. (v ≡ number (integer_parts n)) × FitsSigned w32 n };

    fn to_json(&self, _alloc: Global) -> Result<JsonValue> {
        Ok(JsonValue::Number(Number::from(*self)))
    }
}

impl ToJson for i64 {
    ghost shows = { λ n v. (v ≡ number (integer_parts n)) × FitsSigned w64 n };

    fn to_json(&self, _alloc: Global) -> Result<JsonValue> {
        Ok(JsonValue::Number(Number::from(*self)))
    }
}

impl ToJson for isize {
    ghost shows = { λ n v. (v ≡ number (integer_parts n)) × FitsSigned w64 n };

    fn to_json(&self, _alloc: Global) -> Result<JsonValue> {
        Ok(JsonValue::Number(Number::from(*self)))
    }
}

/// `None` is null.
impl<T: ToJson> ToJson for Option<T> {
    ghost shows = { OptionMeans T.shows };

    fn to_json(&self, alloc: Global) -> Result<JsonValue> {
        match self {
            Some(source) => source.to_json(alloc),
            None => Ok(JsonValue::Null),
        }
    }
}

impl<T: ToJson> ToJson for Vec<T> {
    ghost shows = { λ list v. ListMeans T.shows list.items v };

    fn to_json(&self, alloc: Global) -> Result<JsonValue> {
        array_of(alloc, self.as_slice())
    }
}

impl<T: ToJson> ToJson for &[T] {
    ghost shows = { λ list v. ListMeans T.shows list.now v };

    fn to_json(&self, alloc: Global) -> Result<JsonValue> {
        array_of(alloc, *self)
    }
}

impl<T: ToJson> ToJson for Box<T> {
    ghost shows = { λ b v. T.shows b.value v };

    fn to_json(&self, alloc: Global) -> Result<JsonValue> {
        T::to_json(&**self, alloc)
    }
}

/// The array of both.
impl<A: ToJson, B: ToJson> ToJson for (A, B) {
    ghost shows = { λ p v. (x y : Value) × A.shows p.0 x × B.shows p.1 y
        × (v ≡ array (values_of (x ∷ y ∷ []))) };

    fn to_json(&self, alloc: Global) -> Result<JsonValue> {
        let mut items = Vec::with_capacity(alloc, 2)?;
        items.push(self.0.to_json(alloc)?)?;
        items.push(self.1.to_json(alloc)?)?;
        Ok(JsonValue::Array(items))
    }
}

/// The array of the three.
impl<A: ToJson, B: ToJson, C: ToJson> ToJson for (A, B, C) {
    ghost shows = { λ p v. (x y z : Value) × A.shows p.0 x × B.shows p.1 y × C.shows p.2 z
        × (v ≡ array (values_of (x ∷ y ∷ z ∷ []))) };

    fn to_json(&self, alloc: Global) -> Result<JsonValue> {
        let mut items = Vec::with_capacity(alloc, 3)?;
        items.push(self.0.to_json(alloc)?)?;
        items.push(self.1.to_json(alloc)?)?;
        items.push(self.2.to_json(alloc)?)?;
        Ok(JsonValue::Array(items))
    }
}

/// The object of its entries, in the map's order.
impl<T: ToJson> ToJson for BTreeMap<String, T> {
    ghost shows = { λ m v. MapMeans string_bytes T.shows m.entries v × tree.IsOrdered string_cmp m };

    fn to_json(&self, alloc: Global) -> Result<JsonValue> {
        let mut members = Members::new(alloc);
        for (key, source) in self.iter() {
            members = members.put(key.as_str(), source)?;
        }
        members.done()
    }
}

/// The array of what the elements show, in order.
fn array_of<T: ToJson>(alloc: Global, list: &[T]) -> Result<JsonValue>
    ensures value { IfOk result (λ v. ListMeans T.shows list.now (view v)) }
    ensures memory { IsOkUnless result Error.OutOfMemory }
{
    let mut items = Vec::with_capacity(alloc, list.len())?;
    for source in list {
        items.push(source.to_json(alloc)?)?;
    }
    Ok(JsonValue::Array(items))
}
