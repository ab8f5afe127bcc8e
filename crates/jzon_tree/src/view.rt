//! References to a value inside a value, which may be *missing* (docs/RULES.md, "Readers"). The readers
//! of a `View` return what those of `JsonValue` do, and of a missing value what they return of null:
//! `None`, `false`, 0 or nothing, and `true` from `is_null` and `is_empty`. In clauses `shown` is an
//! `Option` of the value, and `seen` the value or else null.
#![tactic(auto, using(crate::proofs::Values::Views::views, crate::proofs::Values::PartViews::seen))]

ghost use Rattle.std.specs.Prelude.{◌≡◌, ◌<◌, ◌^◌, pos, map, is_some, option_map, slice_get, FitsSigned, Some};
ghost use Rattle.std.specs.Int.{w8, w16, w32, w64};
ghost use Rattle.std.specs.List.{list_any};
ghost use Rattle.std.specs.Option.{option_copied};
ghost use Rattle.std.specs.Slice.Iter.{iter_rest};
ghost use Rattle.jzon_base.specs.Decimal.{integer_parts, SomeWhere};
ghost use Rattle.jzon_base.specs.PairList.{find};
ghost use Rattle.jzon_tree.specs.Place.{shown, seen};
ghost use Rattle.jzon_tree.specs.Readers.{is_null, is_boolean, is_number, is_text, is_object, is_array, is_empty, truth_in, number_in, integer_in, unsigned_in, fixed_point_in, unsigned_fixed_point_in, text_in, object_of, array_of, items, entries, count, exact_fixed_point_in, exact_unsigned_fixed_point_in};
ghost use Rattle.jzon_tree.specs.Same.{same};
ghost use Rattle.jzon_tree.specs.Value.{array, boolean, number, short, text};
ghost use Rattle.jzon_tree.specs.View.{view, view_object, view_values, viewed};
ghost use Rattle.jzon_tree.specs.Entries.{entries_of};

use crate::object::Object;
use crate::readers::{Entries, Members};
use crate::value::JsonValue;
use jzon_base::number::Number;

/// A reference to a value, or missing. A missing view reads as null (`None`, `false`, 0), so a chain
/// of `at` and `at_index` needs no test between its links.
#[derive(Clone, Copy)]
pub struct View<'a> {
    value: Option<&'a JsonValue>,
}

impl JsonValue {
    /// A view of the value itself, from which `at` and `at_index` go on.
    pub fn as_view(&self) -> View<'_>
        ensures { shown result ≡ Some (view self.now) }
    {
        View { value: Some(self) }
    }

    /// The value of an object's key. Missing if there is no such key, and for any other value.
    ///
    /// ```rust
    /// let is_named = data.at("name").eq_str("x");
    /// let first = data.at("list").at_index(0).as_u64();
    /// ```
    pub fn at(&self, key: &str) -> View<'_>
        ensures { shown result ≡ find key.now (entries (view self.now)) }
    {
        let value = self.get(key);
        View { value }
    }

    /// The element at a position of an array. Missing past the end, and for any other value.
    pub fn at_index(&self, index: usize) -> View<'_>
        ensures { shown result ≡ slice_get (items (view self.now)) index }
    {
        match self {
            JsonValue::Array(items) => View {
                value: items.get(index),
            },
            _ => View { value: None },
        }
    }
}

impl Object {
    /// The value of the key; missing if there is no such key.
    pub fn at(&self, key: &str) -> View<'_>
        ensures { shown result ≡ find key.now (viewed (entries_of self.now)) }
    {
        let value = self.get(key);
        View { value }
    }
}

impl<'a> View<'a> {
    /// The value; `None` if missing.
    pub fn value(self) -> Option<&'a JsonValue>
        ensures { option_map (λ v. view v.now) result ≡ shown self.entry }
    {
        self.value
    }

    /// As `JsonValue::at`. Missing if this view is.
    pub fn at(self, key: &str) -> View<'a>
        ensures { shown result ≡ find key.now (entries (seen self.entry)) }
    {
        self.value.map_or(self, |value| value.at(key))
    }

    /// As `JsonValue::at_index`. Missing if this view is.
    pub fn at_index(self, index: usize) -> View<'a>
        ensures { shown result ≡ slice_get (items (seen self.entry)) index }
    {
        self.value.map_or(self, |value| value.at_index(index))
    }

    /// Whether it is null or missing.
    pub fn is_null(self) -> bool
        ensures { result ≡ is_null (seen self.entry) }
    {
        self.value.is_none_or(JsonValue::is_null)
    }

    /// As `JsonValue::is_boolean`.
    pub fn is_boolean(self) -> bool
        ensures { result ≡ is_boolean (seen self.entry) }
    {
        self.value.is_some_and(JsonValue::is_boolean)
    }

    /// As `JsonValue::is_number`.
    pub fn is_number(self) -> bool
        ensures { result ≡ is_number (seen self.entry) }
    {
        self.value.is_some_and(JsonValue::is_number)
    }

    /// As `JsonValue::is_string`.
    pub fn is_string(self) -> bool
        ensures { result ≡ is_text (seen self.entry) }
    {
        self.value.is_some_and(JsonValue::is_string)
    }

    /// As `JsonValue::is_object`.
    pub fn is_object(self) -> bool
        ensures { result ≡ is_object (seen self.entry) }
    {
        self.value.is_some_and(JsonValue::is_object)
    }

    /// As `JsonValue::is_array`.
    pub fn is_array(self) -> bool
        ensures { result ≡ is_array (seen self.entry) }
    {
        self.value.is_some_and(JsonValue::is_array)
    }

    /// As `JsonValue::is_empty`. `true` if missing.
    pub fn is_empty(self) -> bool
        ensures { result ≡ is_empty (seen self.entry) }
    {
        self.value.is_none_or(JsonValue::is_empty)
    }

    /// As `JsonValue::len`. 0 if missing.
    pub fn len(self) -> usize
        ensures { result ≡ count (seen self.entry) }
    {
        self.value.map_or(0, JsonValue::len)
    }

    /// As `JsonValue::as_str`. `None` if missing.
    pub fn as_str(self) -> Option<&'a str>
        ensures { option_copied result ≡ text_in (seen self.entry) }
    {
        self.value?.as_str()
    }

    /// As `JsonValue::as_number`. `None` if missing.
    pub fn as_number(self) -> Option<Number>
        ensures { result ≡ number_in (seen self.entry) }
    {
        self.value?.as_number()
    }

    /// As `JsonValue::as_bool`. `None` if missing.
    pub fn as_bool(self) -> Option<bool>
        ensures { result ≡ truth_in (seen self.entry) }
    {
        self.value?.as_bool()
    }

    /// As `JsonValue::as_object`. `None` if missing.
    pub fn as_object(self) -> Option<&'a Object>
        ensures { option_map (λ o. view_object o.now) result ≡ object_of (seen self.entry) }
    {
        self.value?.as_object()
    }

    /// As `JsonValue::as_array`. `None` if missing.
    pub fn as_array(self) -> Option<&'a Vec<JsonValue>>
        ensures { option_map (λ vs. array (view_values vs.now.items)) result
            ≡ array_of (seen self.entry) }
    {
        self.value?.as_array()
    }

    /// As `JsonValue::has_key`.
    pub fn has_key(self, key: &str) -> bool
        ensures { result ≡ is_some (find key.now (entries (seen self.entry))) }
    {
        self.at(key).value.is_some()
    }

    /// As `JsonValue::members`. Over nothing if missing.
    pub fn members(self) -> Members<'a>
        ensures { map view (iter_rest result) ≡ items (seen self.entry) }
    {
        self.value.map_or([].iter(), JsonValue::members)
    }

    /// As `JsonValue::entries`. Over nothing if missing.
    pub fn entries(self) -> Entries<'a>
        ensures { viewed result ≡ entries (seen self.entry) }
    {
        self.value.map_or(Entries::empty(), JsonValue::entries)
    }

    /// As `JsonValue::contains`.
    pub fn contains(self, value: &JsonValue) -> bool
        ensures { result ≡ list_any (λ v. same v (view value.now)) (items (seen self.entry)) }
    {
        self.value.is_some_and(|array| array.contains(value))
    }

    /// As `JsonValue::eq_str`.
    pub fn eq_str(self, other: &str) -> bool
        ensures { result ≡ same (seen self.entry) (text short other.now) }
    {
        self.as_str() == Some(other)
    }

    /// As `JsonValue::eq_bool`.
    pub fn eq_bool(self, other: bool) -> bool
        ensures { result ≡ same (seen self.entry) (boolean other) }
    {
        self.as_bool() == Some(other)
    }

    /// As `JsonValue::as_u64`. `None` if missing.
    pub fn as_u64(self) -> Option<u64>
        ensures { SomeWhere (unsigned_in (seen self.entry)) (λ n. n < 2 ^ 64) result }
    {
        self.value?.as_u64()
    }

    /// As `JsonValue::as_u32`. `None` if missing.
    pub fn as_u32(self) -> Option<u32>
        ensures { SomeWhere (unsigned_in (seen self.entry)) (λ n. n < 2 ^ 32) result }
    {
        self.value?.as_u32()
    }

    /// As `JsonValue::as_u16`. `None` if missing.
    pub fn as_u16(self) -> Option<u16>
        ensures { SomeWhere (unsigned_in (seen self.entry)) (λ n. n < 2 ^ 16) result }
    {
        self.value?.as_u16()
    }

    /// As `JsonValue::as_u8`. `None` if missing.
    pub fn as_u8(self) -> Option<u8>
        ensures { SomeWhere (unsigned_in (seen self.entry)) (λ n. n < 2 ^ 8) result }
    {
        self.value?.as_u8()
    }

    /// As `JsonValue::as_usize`. `None` if missing.
    pub fn as_usize(self) -> Option<usize>
        ensures { SomeWhere (unsigned_in (seen self.entry)) (λ n. n < 2 ^ 64) result }
    {
        self.value?.as_usize()
    }

    /// As `JsonValue::as_i64`. `None` if missing.
    pub fn as_i64(self) -> Option<i64>
        ensures { SomeWhere (integer_in (seen self.entry)) (FitsSigned w64) result }
    {
        self.value?.as_i64()
    }

    /// As `JsonValue::as_i32`. `None` if missing.
    pub fn as_i32(self) -> Option<i32>
        ensures { SomeWhere (integer_in (seen self.entry)) (FitsSigned w32) result }
    {
        self.value?.as_i32()
    }

    /// As `JsonValue::as_i16`. `None` if missing.
    pub fn as_i16(self) -> Option<i16>
        ensures { SomeWhere (integer_in (seen self.entry)) (FitsSigned w16) result }
    {
        self.value?.as_i16()
    }

    /// As `JsonValue::as_i8`. `None` if missing.
    pub fn as_i8(self) -> Option<i8>
        ensures { SomeWhere (integer_in (seen self.entry)) (FitsSigned w8) result }
    {
        self.value?.as_i8()
    }

    /// As `JsonValue::as_isize`. `None` if missing.
    pub fn as_isize(self) -> Option<isize>
        ensures { SomeWhere (integer_in (seen self.entry)) (FitsSigned w64) result }
    {
        self.value?.as_isize()
    }

    /// As `JsonValue::as_fixed_point_u64`. `None` if missing.
    pub fn as_fixed_point_u64(self, point: u16) -> Option<u64>
        ensures { SomeWhere (unsigned_fixed_point_in (seen self.entry) point)
            (λ n. n < 2 ^ 64) result }
    {
        self.value?.as_fixed_point_u64(point)
    }

    /// As `JsonValue::as_fixed_point_i64`. `None` if missing.
    pub fn as_fixed_point_i64(self, point: u16) -> Option<i64>
        ensures { SomeWhere (fixed_point_in (seen self.entry) point) (FitsSigned w64) result }
    {
        self.value?.as_fixed_point_i64(point)
    }

    /// As `JsonValue::as_exact_fixed_point_u64`. `None` if missing.
    pub fn as_exact_fixed_point_u64(self, point: u16) -> Option<u64>
        ensures { SomeWhere (exact_unsigned_fixed_point_in (seen self.entry) point)
            (λ n. n < 2 ^ 64) result }
    {
        self.value?.as_exact_fixed_point_u64(point)
    }

    /// As `JsonValue::as_exact_fixed_point_i64`. `None` if missing.
    pub fn as_exact_fixed_point_i64(self, point: u16) -> Option<i64>
        ensures { SomeWhere (exact_fixed_point_in (seen self.entry) point) (FitsSigned w64) result }
    {
        self.value?.as_exact_fixed_point_i64(point)
    }

    /// As `JsonValue::eq_i64`.
    pub fn eq_i64(self, other: i64) -> bool
        ensures { result ≡ same (seen self.entry) (number (integer_parts other)) }
    {
        self.value.is_some_and(|value| value.eq_i64(other))
    }

    /// As `JsonValue::eq_u64`.
    pub fn eq_u64(self, other: u64) -> bool
        ensures { result ≡ same (seen self.entry) (number (integer_parts (pos other))) }
    {
        self.value.is_some_and(|value| value.eq_u64(other))
    }
}
