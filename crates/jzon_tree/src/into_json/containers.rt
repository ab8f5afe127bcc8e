//! Options, lists and maps as values. An array or an object needs memory, so `is_free` is `⊥`: no
//! conversion to one is promised to succeed.

ghost use Rattle.std.specs.Prelude.{⊤, string_bytes, MatchOption};
ghost use Rattle.jzon_tree.specs.IntoJson.{OptionMeans, ListMeans, CloneListMeans, MapMeans, AnyOrderMeans};

use super::IntoJson;
use crate::object::Object;
use crate::value::JsonValue;
use jzon_base::error::Result;
use std::alloc::Global;
use std::collections::{BTreeMap, HashMap};

/// `None` is null, and `Some` means what its content means. Only the conversion of the content can
/// fail.
impl<T: IntoJson> IntoJson for Option<T> {
    ghost means = { OptionMeans T.means };

    ghost is_free = { λ o. MatchOption o ⊤ T.is_free };

    fn into_json(self, alloc: Global) -> Result<JsonValue> {
        match self {
            Some(value) => value.into_json(alloc),
            None => Ok(JsonValue::Null),
        }
    }
}

/// The array of what the elements mean, in order.
impl<T: IntoJson> IntoJson for Vec<T> {
    ghost means = { λ list v. ListMeans T.means list.items v };

    ghost is_free = { λ _. ⊥ };

    fn into_json(self, alloc: Global) -> Result<JsonValue> {
        let mut items = Vec::with_capacity(alloc, self.len())?;
        for item in self {
            items.push(item.into_json(alloc)?)?;
        }
        Ok(JsonValue::Array(items))
    }
}

/// The array of what clones of the elements mean, in order: `into_json` consumes an element.
impl<T: IntoJson + Clone> IntoJson for &[T] {
    ghost means = { λ list v. CloneListMeans T.is_clone T.means list.now v };

    ghost is_free = { λ _. ⊥ };

    fn into_json(self, alloc: Global) -> Result<JsonValue> {
        let mut items = Vec::with_capacity(alloc, self.len())?;
        for item in self {
            items.push(item.clone()?.into_json(alloc)?)?;
        }
        Ok(JsonValue::Array(items))
    }
}

/// The object of its entries, ascending by key.
impl<T: IntoJson> IntoJson for BTreeMap<String, T> {
    ghost means = { λ pairs v. MapMeans string_bytes T.means pairs.entries v };

    ghost is_free = { λ _. ⊥ };

    fn into_json(self, alloc: Global) -> Result<JsonValue> {
        Ok(JsonValue::Object(Object::from_pairs(alloc, self.into_iter())?))
    }
}

/// The object of its entries, ascending by key.
impl<T: IntoJson> IntoJson for BTreeMap<&str, T> {
    ghost means = { λ pairs v. MapMeans (λ key. key.now) T.means pairs.entries v };

    ghost is_free = { λ _. ⊥ };

    fn into_json(self, alloc: Global) -> Result<JsonValue> {
        Ok(JsonValue::Object(Object::from_pairs(alloc, self.into_iter())?))
    }
}

/// The object of its entries, in any order.
impl<T: IntoJson> IntoJson for HashMap<String, T> {
    ghost means = { λ pairs v. AnyOrderMeans string_bytes T.means pairs.entries v };

    ghost is_free = { λ _. ⊥ };

    fn into_json(self, alloc: Global) -> Result<JsonValue> {
        Ok(JsonValue::Object(Object::from_pairs(alloc, self.into_iter())?))
    }
}

/// The object of its entries, in any order.
impl<T: IntoJson> IntoJson for HashMap<&str, T> {
    ghost means = { λ pairs v. AnyOrderMeans (λ key. key.now) T.means pairs.entries v };

    ghost is_free = { λ _. ⊥ };

    fn into_json(self, alloc: Global) -> Result<JsonValue> {
        Ok(JsonValue::Object(Object::from_pairs(alloc, self.into_iter())?))
    }
}
