//! Goes over a value, and calls the methods (*hooks*) of a generator. The error of a hook is stored
//! in `slot` (`error_slot`), by a hook `try_..` or by `store`; nothing is written after it.
//!
//! In clauses `PrintsIf` and `PrintsValue` say which text was added; after an error a prefix, if
//! the value is valid (`IsValue`), which isn't known of unread parts.

ghost use Rattle.std.specs.Prelude.{◌≡◌, ◌-◌, ◌<◌, [], length, map, slice_index_or, OnOk, OnErr, IsSome};
ghost use Rattle.jzon_base.specs.PairList.{keys_of};
ghost use Rattle.jzon_tree.specs.Entries.{entries_of};
ghost use Rattle.jzon_tree.specs.Generator.{Emits, IsAnswer, Prints, positions};
ghost use Rattle.jzon_tree.specs.Lawful.{IsValue, AreValues, ArePairs, IsPair};
ghost use Rattle.jzon_tree.specs.Private.Printing.{IsBetween, IsClosing, ArePrintedItems, IsEntry, ArePrintedMembers, PrintsIf, PrintsValue};
ghost use Rattle.jzon_tree.specs.Value.{array};
ghost use Rattle.jzon_tree.specs.View.{view, view_object, view_values, view_pairs, viewed};
ghost use Rattle.jzon_tree.specs.Writing.{Writes};

use crate::codegen::error_slot::{ErrorSlot, SlotResult, store, take_result};
use crate::codegen::generator::Generator;
use crate::object::Object;
use crate::value::JsonValue;
use crate::value::inspect::{inspect, inspect_object, see_number};
use std::io;

/// Writes the value in the generator's style, inside the indents that are open. The entries of each
/// object are in the order that `order` returned.
///
/// An `Err` is that of the first hook that failed. The bytes added are then a prefix of a text of
/// the value, and the open indents stay open. The whole value is read once more, which only the
/// proof needs.
///
/// ```rust
/// match write_json(&mut generator, value) {
///     Ok(()) => String::from_utf8(generator.text).map_err(|_| Error::FailedUtf8Parsing),
///     Err(_) => Err(Error::OutOfMemory),
/// }
/// ```
pub fn write_json<G: Generator>(g: &mut G, json: &JsonValue) -> io::Result<()>
    ensures written { Prints (Writes (G.meaning g.old).style (G.meaning g.old).dent (view json.now))
        (G.meaning g.old) (G.meaning g.new) result }
    ensures value { IsValue (view json.now) }
{
    let mut slot = None;
    let step = write_value(g, json, &mut slot);
    if step.is_err() {
        let _found = inspect(json);
    }
    take_result(step, slot)
}

/// Writes the object in the generator's style. An `Err` is that of the first hook that failed; a
/// prefix of the object's text is then added.
pub fn write_object<G: Generator>(g: &mut G, object: &Object) -> io::Result<()>
    ensures written { Prints (Writes (G.meaning g.old).style (G.meaning g.old).dent
        (view_object object.now))
        (G.meaning g.old) (G.meaning g.new) result }
    ensures value { IsValue (view_object object.now) }
{
    let mut slot = None;
    let step = write_pairs(g, object, &mut slot);
    if step.is_err() {
        // For the proof: unwritten parts are valid too.
        let _found = inspect_object(object);
    }
    take_result(step, slot)
}

/// Writes the value. Inlined into the loops over elements and entries, so that only containers
/// recurse.
#[inline(always)]
#[cycle(write_value)]
#[tactic(auto, using(crate::proofs::Values::Views::views))]
pub(crate) fn write_value<G: Generator>(
    g: &mut G,
    json: &JsonValue,
    slot: &mut ErrorSlot,
) -> SlotResult<()>
    ensures written { PrintsValue (view json.now) (G.meaning g.old) (G.meaning g.new) result }
    ensures slot { OnErr result (IsSome slot.new) }
    ensures value { OnOk result (IsValue (view json.now)) }
{
    match json {
        JsonValue::Null => g.try_write(b"null", slot),
        JsonValue::Short(text) => g.try_write_string(text.as_str(), slot),
        JsonValue::String(text) => g.try_write_string(text.as_str(), slot),
        JsonValue::Number(number) => {
            see_number(number);
            g.try_write_number(number, slot)
        }
        JsonValue::Boolean(true) => g.try_write(b"true", slot),
        JsonValue::Boolean(false) => g.try_write(b"false", slot),
        JsonValue::Object(object) => write_pairs(g, object, slot),
        JsonValue::Array(items) => write_array(g, items, slot),
    }
}

/// Writes `[]`, or the brackets and, with one more indent open, the elements.
#[cycle(write_value)]
#[inline(never)]
fn write_array<G: Generator>(g: &mut G, items: &[JsonValue], slot: &mut ErrorSlot) -> SlotResult<()>
    ensures written { PrintsValue (array (view_values items.now)) (G.meaning g.old)
        (G.meaning g.new) result }
    ensures slot { OnErr result (IsSome slot.new) }
    ensures value { OnOk result (AreValues (view_values items.now)) }
{
    if items.is_empty() {
        return g.try_write(b"[]", slot);
    }
    g.try_write_char(b'[', slot)?;
    store(g.indent(), slot)?;
    write_items(g, items, slot)?;
    close(g, b']', slot)
}

/// Writes the elements, each after a comma, except the first, and whitespace.
#[cycle(write_value)]
fn write_items<G: Generator>(g: &mut G, items: &[JsonValue], slot: &mut ErrorSlot) -> SlotResult<()>
    ensures written { PrintsIf (AreValues (view_values items.now))
        (ArePrintedItems (G.meaning g.old).style (G.meaning g.old).dent (map view items.now))
        (G.meaning g.old) (G.meaning g.new) result }
    ensures slot { OnErr result (IsSome slot.new) }
    ensures value { OnOk result (AreValues (view_values items.now)) }
{
    for (index, item) in items.iter().enumerate() {
        begin_item(g, index > 0, slot)?;
        write_value(g, item, slot)?;
    }
    Ok(())
}

/// Asks for the order of the entries. Writes `{}`, or the braces and, with one more indent open,
/// the entries.
#[cycle(write_value)]
#[inline(never)]
pub(crate) fn write_pairs<G: Generator>(
    g: &mut G,
    object: &Object,
    slot: &mut ErrorSlot,
) -> SlotResult<()>
    ensures written { PrintsValue (view_object object.now) (G.meaning g.old) (G.meaning g.new)
        result }
    ensures slot { OnErr result (IsSome slot.new) }
    ensures value { OnOk result (IsValue (view_object object.now)) }
{
    let order = store(g.order(object), slot)?;
    if object.is_empty() {
        return g.try_write(b"{}", slot);
    }
    g.try_write_char(b'{', slot)?;
    store(g.indent(), slot)?;
    write_members(g, object, &order, slot)?;
    close(g, b'}', slot)
}

/// Writes the entries in the order returned by the hook `order`, each after a comma, except the
/// first, and whitespace.
#[cycle(write_value)]
fn write_members<G: Generator>(
    g: &mut G,
    object: &Object,
    order: &Option<Vec<usize>>,
    slot: &mut ErrorSlot,
) -> SlotResult<()>
    requires { IsAnswer (G.meaning g.old).style (keys_of (entries_of object.now)) order.now }
    ensures written { PrintsIf (ArePairs (view_pairs (entries_of object.now)))
        (ArePrintedMembers (G.meaning g.old).style (G.meaning g.old).dent
        (viewed (entries_of object.now)) (positions (length (entries_of object.now)) order.now))
        (G.meaning g.old) (G.meaning g.new) result }
    ensures slot { OnErr result (IsSome slot.new) }
    ensures value { OnOk result (IsValue (view_object object.now)) }
{
    for index in 0..object.len() {
        let position = position_of(order, index, object.len());
        let (key, value) = object.pairs.get_at(position);
        begin_item(g, index > 0, slot)?;
        write_pair(g, key, value, slot)?;
    }
    Ok(())
}

/// The position of the entry that is written after `index` others; `None` is the order of
/// insertion. `count`, the number of entries, is for the clauses.
fn position_of(order: &Option<Vec<usize>>, index: usize, count: usize) -> usize
    requires index_in_range { index < length (positions count order.now) }
    ensures { result ≡ slice_index_or (positions count order.now) index 0 }
{
    match order {
        Some(positions) => positions[index],
        None => index,
    }
}

/// Writes the key, its colon and the value.
#[cycle(write_value)]
fn write_pair<G: Generator>(
    g: &mut G,
    key: &str,
    value: &JsonValue,
    slot: &mut ErrorSlot,
) -> SlotResult<()>
    ensures written { PrintsIf (IsValue (view value.now))
        (IsEntry (G.meaning g.old).style (G.meaning g.old).dent (key.now, view value.now))
        (G.meaning g.old) (G.meaning g.new) result }
    ensures slot { OnErr result (IsSome slot.new) }
    ensures value { OnOk result (IsPair (key.now, view value.now)) }
{
    g.try_write_key(key, slot)?;
    write_value(g, value, slot)
}

/// Writes what precedes an element or entry: a comma if `comma`, and whitespace.
#[inline(always)]
fn begin_item<G: Generator>(g: &mut G, comma: bool, slot: &mut ErrorSlot) -> SlotResult<()>
    ensures bytes { Emits (IsBetween (G.meaning g.old).style (G.meaning g.old).dent comma)
        (G.meaning g.old) (G.meaning g.new) result }
    ensures slot { OnErr result (IsSome slot.new) }
{
    if comma {
        g.try_write_char(b',', slot)?;
    }
    g.try_new_line(slot)
}

/// Closes an indent, also if a write then fails, and writes whitespace and the bracket.
#[inline(always)]
fn close<G: Generator>(g: &mut G, bracket: u8, slot: &mut ErrorSlot) -> SlotResult<()>
    requires { 0 < (G.meaning g.old).dent }
    ensures bytes { Emits (IsClosing (G.meaning g.old).style ((G.meaning g.old).dent - 1) bracket)
        (record (G.meaning g.old) { dent = (G.meaning g.old).dent - 1 }) (G.meaning g.new) result }
    ensures slot { OnErr result (IsSome slot.new) }
{
    g.dedent();
    g.try_new_line(slot)?;
    g.try_write_char(bracket, slot)
}
