//! Chains of iterator calls over a value's entries and elements.
//!
//! `YieldsList-from_entries` and `YieldsList-from_elements` say over which list of values such a
//! chain goes; std has a lemma for each call that ends one.

ghost use Rattle.std.specs.Prelude.{◌≡◌, ◌||◌, codes, position};
ghost use Rattle.std.specs.List.{list_all};
ghost use Rattle.std.specs.Str.{bytes_eq};
ghost use Rattle.jzon.specs.Readers.{entries, is_null, items};
ghost use Rattle.jzon.specs.View.{view};

use jzon::JsonValue;

/// Whether a value has no entry but `name` and `port`.
pub fn has_only_known_names(value: &JsonValue) -> bool
    ensures { result ≡ list_all
        (λ p. bytes_eq p.0 (codes "name") || bytes_eq p.0 (codes "port"))
        (entries (view value.now)) }
{
    value
        .entries()
        .all(|(key, _)| key == "name" || key == "port")
}

/// The position of the first null element of an array.
pub fn first_null(value: &JsonValue) -> Option<usize>
    ensures { result ≡ position is_null (items (view value.now)) }
{
    value.members().position(|element| element.is_null())
}
