//! Goes over all parts of a value. Each part's type promises something (a number in range, UTF-8,
//! distinct keys), and the proof learns it where the part is read. In clauses `IsInspected v n`
//! says that this holds of all parts of `v`, which nests `n` deep.

ghost use Rattle.std.specs.Prelude.{◌≡◌, ◌<◌, ◌≤◌, ◌^◌, ◌∷◌, ◌++◌, [], List};
ghost use Rattle.jzon_tree.specs.Private.Inspected.{IsInspected};
ghost use Rattle.jzon_tree.specs.Lawful.{InRange};
ghost use Rattle.jzon_tree.specs.Value.{Value, array, nest, values_of};
ghost use Rattle.jzon_tree.specs.View.{view, view_object, view_values};

use crate::object::Object;
use crate::value::JsonValue;
use jzon_base::error::Error;
use jzon_base::number::Number;

/// What a walk over a value found.
#[derive(Clone, Copy)]
pub(crate) struct Inspection {
    /// How many non-empty containers nest, saturating at `u128::MAX`.
    nest: u128,
}

impl Inspection {
    /// No nesting, as in a primitive or an empty container.
    const PLAIN: Inspection = Inspection { nest: 0 };

    /// What is found in a container so far (`self`), with one more element or entry (`item`). An
    /// object counts as the array of its values.
    fn with(self, item: Inspection) -> Inspection
        ensures { (vs : List Value) (v : Value)
            → IsInspected (array (values_of vs)) self.nest
            → IsInspected v item.nest
            → IsInspected (array (values_of (vs ++ v ∷ []))) result.nest }
    {
        Inspection {
            nest: self.nest.max(item.nest.saturating_add(1)),
        }
    }

    /// Why printing the value into memory failed: it is at least 2^64 deep, more than a generator's
    /// `u64` of open indents counts, or else an allocation failed.
    pub(crate) fn printing_error(self) -> Error
        ensures memory { (v : Value) → IsInspected v self.nest → nest v < 2 ^ 64
            → result ≡ Error.OutOfMemory }
        ensures depth { (v : Value) → IsInspected v self.nest → 2 ^ 64 ≤ nest v
            → result ≡ Error.ExceededDepthLimit }
    {
        if self.nest <= u128::from(u64::MAX) {
            Error::OutOfMemory
        } else {
            Error::ExceededDepthLimit
        }
    }
}

/// How deep non-empty containers nest in the value.
#[cycle(inspect)]
#[tactic(auto, using(crate::proofs::Values::Views::views))]
pub(crate) fn inspect(value: &JsonValue) -> Inspection
    ensures { IsInspected (view value.now) result.nest }
{
    match value {
        JsonValue::Null | JsonValue::Boolean(_) => Inspection::PLAIN,
        // `_text` and `see_number` are for the proof.
        JsonValue::Short(text) => {
            let _text = text.as_str();
            Inspection::PLAIN
        }
        JsonValue::String(text) => {
            let _text = text.as_str();
            Inspection::PLAIN
        }
        JsonValue::Number(number) => {
            see_number(number);
            Inspection::PLAIN
        }
        JsonValue::Object(object) => inspect_object(object),
        JsonValue::Array(items) => inspect_items(items),
    }
}

/// How deep the object is: one more than its deepest value, or 0 if empty.
#[cycle(inspect)]
pub(crate) fn inspect_object(object: &Object) -> Inspection
    ensures { IsInspected (view_object object.now) result.nest }
{
    let mut found = Inspection::PLAIN;
    // By position, for the proof's loop invariant; `len` promises distinct keys.
    for index in 0..object.len() {
        let (_key, value) = object.pairs.get_at(index);
        found = found.with(inspect(value));
    }
    found
}

/// How deep the array is: one more than its deepest element, or 0 if empty.
#[cycle(inspect)]
fn inspect_items(items: &[JsonValue]) -> Inspection
    ensures { IsInspected (array (view_values items.now)) result.nest }
{
    let mut found = Inspection::PLAIN;
    for item in items {
        found = found.with(inspect(item));
    }
    found
}

/// Only for the proof, which learns that the number is in range.
pub(crate) fn see_number(number: &Number)
    ensures { InRange number.now }
{
    let _parts = number.as_parts();
}
