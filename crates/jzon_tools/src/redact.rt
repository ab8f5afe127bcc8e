//! Redaction: the value of each entry with one of some names is replaced by a fixed string, at any
//! depth, in place.
//!
//! `redacted` of specs/Redact.antt says it over values. Loops write entries by
//! position, and elements by `iter_mut`: of both a contract can say what is written. Nothing is
//! copied or allocated.

ghost use Rattle.std.specs.Prelude.{◌≡◌, ◌-◌, ◌^◌, min, map, slice_get, if◌then◌else◌};
ghost use Rattle.std.specs.List.{sum_by};
ghost use Rattle.jzon.specs.Entries.{entries_of};
ghost use Rattle.jzon.specs.View.{view, viewed};
ghost use Rattle.jzon_tools.specs.Redact.{hidden, hidden_count, names_among, redacted};
ghost use Rattle.jzon_tools.specs.Redact.{hidden_count_member, redacted_member};

use jzon::JsonValue;
use jzon::object::Object;
use jzon::short::Short;
use jzon_pointer::names::is_among;

/// Replaces the value of each entry whose name is one of `names` by the string `***`, at any
/// depth. Returns how many values it replaced, or `usize::MAX` if there were more. Compares each key
/// with each name.
#[cycle(redact)]
#[tactic(auto, using(crate::proofs::RedactSteps::redaction))]
pub fn redact(value: &mut JsonValue, names: &[&str]) -> usize
    ensures value { view value.new ≡ redacted (map (λ n. n.now) names.now) (view value.old) }
    ensures count { result
        ≡ min (hidden_count (map (λ n. n.now) names.now) (view value.old)) (2 ^ 64 - 1) }
{
    match value {
        JsonValue::Array(items) => redact_elements(items, names),
        JsonValue::Object(object) => redact_members(object, names),
        _ => 0,
    }
}

/// Redacts the elements of an array, and counts what it replaced.
#[cycle(redact)]
#[tactic(auto, using(crate::proofs::RedactSteps::redaction))]
fn redact_elements(items: &mut Vec<JsonValue>, names: &[&str]) -> usize
    ensures value { map view items.new.items
        ≡ map (redacted (map (λ n. n.now) names.now)) (map view items.old.items) }
    ensures count { result ≡ min (sum_by (hidden_count (map (λ n. n.now) names.now))
        (map view items.old.items)) (2 ^ 64 - 1) }
{
    let mut count = 0usize;
    for item in items.iter_mut() {
        count = count.saturating_add(redact(item, names));
    }
    count
}

/// Redacts the entries of an object, and counts what it replaced.
#[cycle(redact)]
#[tactic(auto, using(crate::proofs::RedactSteps::redaction))]
fn redact_members(object: &mut Object, names: &[&str]) -> usize
    ensures value { viewed (entries_of object.new)
        ≡ map (redacted_member (map (λ n. n.now) names.now)) (viewed (entries_of object.old)) }
    ensures count { result ≡ min (sum_by (hidden_count_member (map (λ n. n.now) names.now))
        (viewed (entries_of object.old))) (2 ^ 64 - 1) }
{
    let mut count = 0usize;
    for index in 0..object.len() {
        let hides = hides_member(object, index, names);
        if let Some(value) = object.get_index_mut(index) {
            count = count.saturating_add(redact_member(value, hides, names));
        }
    }
    count
}

/// Replaces the value of an entry if its name `hides` it, and otherwise redacts it; counts what it
/// replaced.
#[cycle(redact)]
#[tactic(auto, using(crate::proofs::RedactSteps::redaction))]
fn redact_member(value: &mut JsonValue, hides: bool, names: &[&str]) -> usize
    ensures value { view value.new ≡
        (if hides then hidden else redacted (map (λ n. n.now) names.now) (view value.old)) }
    ensures count { result ≡ min
        (if hides then 1 else hidden_count (map (λ n. n.now) names.now) (view value.old))
        (2 ^ 64 - 1) }
{
    if hides {
        *value = JsonValue::Short(Short::from_slice("***"));
        return 1;
    }
    redact(value, names)
}

/// Whether the name of the entry at a position is one of `names`.
fn hides_member(object: &Object, index: usize, names: &[&str]) -> bool
    ensures { result ≡ names_among (map (λ n. n.now) names.now)
        (slice_get (entries_of object.now) index) }
{
    match object.get_index(index) {
        Some((key, _)) => is_among(names, key),
        None => false,
    }
}
