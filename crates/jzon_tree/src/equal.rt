//! Equality of values and of objects (docs/RULES.md, "Equality"), which clauses call `same`.

ghost use Rattle.std.specs.Prelude.{◌≡◌, Some};
ghost use Rattle.std.specs.Option.{option_copied};
ghost use Rattle.std.specs.Cmp.{on_equiv, on_per, partial_equiv_from_equiv};
ghost use Rattle.jzon_base.specs.PairList.{find};
ghost use Rattle.jzon_tree.specs.Entries.{entries_of};
ghost use Rattle.jzon_tree.specs.Same.{same, same_items};
ghost use Rattle.jzon_tree.specs.SameLaws.{same_equiv};
ghost use Rattle.jzon_tree.specs.View.{view, view_object, view_values};

use crate::object::Object;
use crate::value::JsonValue;

/// Compares what the values mean, as `JsonValue` says.
impl PartialEq for JsonValue {
    ghost eq = { λ v w. same (view v) (view w) };

    ghost laws = { on_per view (partial_equiv_from_equiv same_equiv) };

    #[cycle(same)]
    #[tactic(auto, using(crate::proofs::Values::Views::views))]
    fn eq(&self, other: &JsonValue) -> bool {
        match (self, other) {
            (JsonValue::Null, JsonValue::Null) => true,
            (JsonValue::Short(text), JsonValue::Short(other)) => text == other,
            (JsonValue::Short(text), JsonValue::String(other)) => text.eq_str(other),
            (JsonValue::String(text), JsonValue::Short(other)) => other.eq_str(text),
            (JsonValue::String(text), JsonValue::String(other)) => text == other,
            (JsonValue::Number(number), JsonValue::Number(other)) => number == other,
            (JsonValue::Boolean(truth), JsonValue::Boolean(other)) => truth == other,
            (JsonValue::Object(object), JsonValue::Object(other)) => object.eq(other),
            (JsonValue::Array(items), JsonValue::Array(others)) => same_array(items, others),
            _ => false,
        }
    }
}

impl Eq for JsonValue {
    ghost laws = { on_equiv view same_equiv };
}

/// Whether both have the same keys, in any order, and equal values under each.
impl PartialEq for Object {
    ghost eq = { λ v w. same (view_object v) (view_object w) };

    ghost laws = { on_per view_object (partial_equiv_from_equiv same_equiv) };

    // Not inlined, so that comparing two primitives needn't save registers.
    #[inline(never)]
    #[cycle(same)]
    fn eq(&self, other: &Object) -> bool {
        // Keys are distinct: with as many entries, and each key of `self`, `other` has no other key.
        if self.len() != other.len() {
            return false;
        }
        for ((key, value), entry) in self.iter().zip(other) {
            let Some(found) = find_with_guess(other, key, entry) else {
                return false;
            };
            if !value.eq(found) {
                return false;
            }
        }
        true
    }
}

impl Eq for Object {
    ghost laws = { on_equiv view_object same_equiv };
}

/// Whether both have equal elements in the same order. Not inlined, so that comparing two primitives
/// needn't save registers.
#[inline(never)]
#[cycle(same)]
fn same_array(items: &[JsonValue], others: &[JsonValue]) -> bool
    ensures { result ≡ same_items (view_values items.now) (view_values others.now) }
{
    if items.len() != others.len() {
        return false;
    }
    for (item, other) in items.iter().zip(others) {
        if !item.eq(other) {
            return false;
        }
    }
    true
}

/// The value of the key in `object`; `None` if missing. `guess`, an entry of `object`, is tried
/// first: equal objects mostly have their keys in one order.
#[inline(always)]
fn find_with_guess<'a>(
    object: &'a Object,
    key: &str,
    guess: (&str, &'a JsonValue),
) -> Option<&'a JsonValue>
    requires { find guess.0.now (entries_of object.now) ≡ Some guess.1.now }
    ensures { option_copied result ≡ find key.now (entries_of object.now) }
{
    if key == guess.0 {
        Some(guess.1)
    } else {
        object.get(key)
    }
}
