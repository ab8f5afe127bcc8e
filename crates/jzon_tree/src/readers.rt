//! Reading values (docs/RULES.md, "Readers"), without an allocation. In clauses `view` is what a
//! value means, `entries` are those of an object and `items` the elements of an array, and `find`
//! looks a key up.
#![tactic(auto, using(crate::proofs::Values::Views::views, crate::proofs::Values::PartViews::seen))]

ghost use Rattle.std.specs.Prelude.{◌≡◌, map, is_some, option_map};
ghost use Rattle.std.specs.List.{list_any};
ghost use Rattle.std.specs.Option.{option_copied};
ghost use Rattle.std.specs.Slice.Iter.{iter_rest};
ghost use Rattle.jzon_base.specs.PairList.{find};
ghost use Rattle.jzon_tree.specs.Readers.{is_null, is_boolean, is_number, is_text, is_object, is_array, is_empty, truth_in, number_in, text_in, object_of, array_of, items, entries, count};
ghost use Rattle.jzon_tree.specs.Same.{same};
ghost use Rattle.jzon_tree.specs.Value.{array, boolean, short, text};
ghost use Rattle.jzon_tree.specs.View.{view, view_object, view_values, viewed};

mod integers;

use crate::object::{self, Object};
use crate::value::JsonValue;
use jzon_base::number::Number;
use std::slice;

/// Double-ended iterator over elements.
pub type Members<'a> = slice::Iter<'a, JsonValue>;

/// Double-ended iterator over entries, each as its key's text and its value.
pub type Entries<'a> = object::Iter<'a>;

impl JsonValue {
    /// Whether it is null.
    pub fn is_null(&self) -> bool
        ensures { result ≡ is_null (view self.now) }
    {
        matches!(self, JsonValue::Null)
    }

    /// Whether it is a boolean.
    pub fn is_boolean(&self) -> bool
        ensures { result ≡ is_boolean (view self.now) }
    {
        matches!(self, JsonValue::Boolean(_))
    }

    /// Whether it is a number. NaN is one.
    pub fn is_number(&self) -> bool
        ensures { result ≡ is_number (view self.now) }
    {
        matches!(self, JsonValue::Number(_))
    }

    /// Whether it is a string, however it is stored.
    pub fn is_string(&self) -> bool
        ensures { result ≡ is_text (view self.now) }
    {
        matches!(self, JsonValue::Short(_) | JsonValue::String(_))
    }

    /// Whether it is an object.
    pub fn is_object(&self) -> bool
        ensures { result ≡ is_object (view self.now) }
    {
        matches!(self, JsonValue::Object(_))
    }

    /// Whether it is an array.
    pub fn is_array(&self) -> bool
        ensures { result ≡ is_array (view self.now) }
    {
        matches!(self, JsonValue::Array(_))
    }

    /// Whether it is null, false, a zero, NaN, an empty string or an empty container.
    pub fn is_empty(&self) -> bool
        ensures { result ≡ is_empty (view self.now) }
    {
        match self {
            JsonValue::Null => true,
            JsonValue::Short(text) => text.as_str().is_empty(),
            JsonValue::String(text) => text.is_empty(),
            JsonValue::Number(number) => number.is_empty(),
            JsonValue::Boolean(truth) => !truth,
            JsonValue::Object(object) => object.is_empty(),
            JsonValue::Array(items) => items.is_empty(),
        }
    }

    /// The number of entries of an object or of elements of an array, else 0.
    pub fn len(&self) -> usize
        ensures { result ≡ count (view self.now) }
    {
        match self {
            JsonValue::Object(object) => object.len(),
            JsonValue::Array(items) => items.len(),
            _ => 0,
        }
    }

    /// The string, however it is stored, else `None`.
    pub fn as_str(&self) -> Option<&str>
        ensures { option_copied result ≡ text_in (view self.now) }
    {
        match self {
            JsonValue::Short(text) => Some(text.as_str()),
            JsonValue::String(text) => Some(text.as_str()),
            _ => None,
        }
    }

    /// The number, with mantissa and exponent as they were parsed or set, else `None`.
    pub fn as_number(&self) -> Option<Number>
        ensures { result ≡ number_in (view self.now) }
    {
        match self {
            JsonValue::Number(number) => Some(*number),
            _ => None,
        }
    }

    /// The boolean, else `None`.
    pub fn as_bool(&self) -> Option<bool>
        ensures { result ≡ truth_in (view self.now) }
    {
        match self {
            JsonValue::Boolean(truth) => Some(*truth),
            _ => None,
        }
    }

    /// The object, else `None`.
    pub fn as_object(&self) -> Option<&Object>
        ensures { option_map (λ o. view_object o.now) result ≡ object_of (view self.now) }
    {
        match self {
            JsonValue::Object(object) => Some(object),
            _ => None,
        }
    }

    /// The elements of an array, else `None`.
    pub fn as_array(&self) -> Option<&Vec<JsonValue>>
        ensures { option_map (λ vs. array (view_values vs.now.items)) result
            ≡ array_of (view self.now) }
    {
        match self {
            JsonValue::Array(items) => Some(items),
            _ => None,
        }
    }

    /// The value of an object's key. `None` if the key is missing, and for any other value.
    pub fn get(&self, key: &str) -> Option<&JsonValue>
        ensures { option_map (λ v. view v.now) result ≡ find key.now (entries (view self.now)) }
    {
        self.as_object()?.get(key)
    }

    /// Whether it is an object that has the key.
    pub fn has_key(&self, key: &str) -> bool
        ensures { result ≡ is_some (find key.now (entries (view self.now))) }
    {
        self.get(key).is_some()
    }

    /// Iterates over the elements of an array in order, else over nothing.
    ///
    /// ```rust
    /// for order in orders.members() {
    ///     sum = sum.checked_add(order.at("amount").as_u64()?)?;
    /// }
    /// ```
    pub fn members(&self) -> Members<'_>
        ensures { map view (iter_rest result) ≡ items (view self.now) }
    {
        match self {
            JsonValue::Array(items) => items.iter(),
            _ => [].iter(),
        }
    }

    /// Iterates over the entries of an object in order, else over nothing.
    ///
    /// ```rust
    /// for (key, value) in config.entries() {
    ///     if value.is_null() {
    ///         keys.push(String::from_str(alloc, key)?)?;
    ///     }
    /// }
    /// ```
    pub fn entries(&self) -> Entries<'_>
        ensures { viewed result ≡ entries (view self.now) }
    {
        let JsonValue::Object(object) = self else {
            return Entries::empty();
        };
        object.iter()
    }

    /// Whether it is an array that contains an element equal to `value`.
    pub fn contains(&self, value: &JsonValue) -> bool
        ensures { result ≡ list_any (λ v. same v (view value.now)) (items (view self.now)) }
    {
        match self {
            JsonValue::Array(items) => items.contains(value),
            _ => false,
        }
    }

    /// Whether it is the string `other`, however stored.
    pub fn eq_str(&self, other: &str) -> bool
        ensures { result ≡ same (view self.now) (text short other.now) }
    {
        self.as_str() == Some(other)
    }

    /// Whether it is the boolean `other`.
    pub fn eq_bool(&self, other: bool) -> bool
        ensures { result ≡ same (view self.now) (boolean other) }
    {
        self.as_bool() == Some(other)
    }
}
