//! Whether a parser reads a value's texts as equal values. `_text` and `see_number` are for the
//! proof, which learns from them what the types promise.

ghost use Rattle.std.specs.Prelude.{◌<◌, ◌≤◌, ◌↔◌, IsTrue};
ghost use Rattle.jzon_tree.specs.Lawful.{IsValue, HasNoNan};
ghost use Rattle.jzon_tree.specs.Value.{array, nest};
ghost use Rattle.jzon_tree.specs.View.{view, view_object, view_values};

use crate::object::Object;
use crate::value::JsonValue;
use crate::value::inspect::see_number;

/// Whether no number in the value is NaN, and at most `depth` non-empty containers nest in it, a
/// parser's limit. Allocates nothing.
#[cycle(is_readable)]
#[tactic(auto, using(crate::proofs::Values::Views::views))]
pub fn is_readable(value: &JsonValue, depth: u16) -> bool
    ensures value { IsTrue result → IsValue (view value.now) }
    ensures readable { IsTrue result ↔ (HasNoNan (view value.now)
        × (nest (view value.now) ≤ depth)) }
{
    match value {
        JsonValue::Null | JsonValue::Boolean(_) => true,
        JsonValue::Short(text) => {
            let _text = text.as_str();
            true
        }
        JsonValue::String(text) => {
            let _text = text.as_str();
            true
        }
        JsonValue::Number(number) => {
            see_number(number);
            !number.is_nan()
        }
        JsonValue::Object(object) => is_object_readable(object, depth),
        JsonValue::Array(items) => are_items_readable(items, depth),
    }
}

/// Whether a value in a container is readable, where the limit `depth` counts that container too:
/// at 0 none is.
#[cycle(is_readable)]
#[inline(always)]
fn is_readable_inside(value: &JsonValue, depth: u16) -> bool
    ensures value { IsTrue result → IsValue (view value.now) }
    ensures readable { IsTrue result ↔ (HasNoNan (view value.now)
        × (nest (view value.now) < depth)) }
{
    0 < depth && is_readable(value, depth - 1)
}

/// `is_readable` of an object: all its values are, one container deeper.
#[cycle(is_readable)]
fn is_object_readable(object: &Object, depth: u16) -> bool
    ensures value { IsTrue result → IsValue (view_object object.now) }
    ensures readable { IsTrue result ↔ (HasNoNan (view_object object.now)
        × (nest (view_object object.now) ≤ depth)) }
{
    for index in 0..object.len() {
        let (_key, value) = object.pairs.get_at(index);
        if !is_readable_inside(value, depth) {
            return false;
        }
    }
    true
}

/// `is_readable` of an array: all its elements are, one container deeper.
#[cycle(is_readable)]
fn are_items_readable(items: &[JsonValue], depth: u16) -> bool
    ensures value { IsTrue result → IsValue (array (view_values items.now)) }
    ensures readable { IsTrue result ↔ (HasNoNan (array (view_values items.now))
        × (nest (array (view_values items.now)) ≤ depth)) }
{
    for item in items {
        if !is_readable_inside(item, depth) {
            return false;
        }
    }
    true
}
