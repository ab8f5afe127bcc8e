//! What calls request, hold and free where no allocation fails, at sizes that no test of failing
//! allocations has.

use crate::common::*;
use jzon::IntoJson;
use jzon::codegen::{Compact, DumpGenerator, Pretty, write_json};
use jzon::lent::{write_at, write_at_index, write_present};
use jzon::object::Object;
use std::collections::{BTreeMap, HashMap};

/// Few, more than are compared one by one, and more than 16 bits count. At the last one five runs of
/// an index have been joined, which first happens at 75,776 keys that are put one by one.
const COUNTS: &[u32] = &[3, 300, 80_000];

/// The most bytes that a call requests for each element or entry.
const MOST_OF_ENTRY: usize = 4096;

/// The most bytes that it requests besides.
const MOST_OF_NONE: usize = 65536;

/// A text of more than 32 bytes with this number.
fn long_text(alloc: Global, number: u32) -> Result<String> {
    Ok(format!(in alloc; "{number:05}, a text of more than thirty bytes")?)
}

fn long_item(alloc: Global) -> Result<JsonValue> {
    LONG_TEXT.into_json(alloc)
}

/// `count` long texts.
fn texts(alloc: Global, count: u32) -> Result<Vec<String>> {
    let mut texts = Vec::new(alloc);
    for number in 0..count {
        texts.push(long_text(alloc, number)?)?;
    }
    Ok(texts)
}

fn owned_array(alloc: Global, count: u32) -> Result<JsonValue> {
    texts(alloc, count)?.into_json(alloc)
}

/// `count` entries of long keys and long strings.
fn owned_object(alloc: Global, count: u32) -> Result<Object> {
    let pairs = texts(alloc, count)?.into_iter().zip(texts(alloc, count)?);
    Object::from_pairs(alloc, pairs)
}

fn sliced(alloc: Global, count: u32) -> Result<()> {
    drop(texts(alloc, count)?.as_slice().into_json(alloc)?);
    Ok(())
}

/// What a call makes is dropped.
fn dropped<T: Drop>(made: Result<T>) -> Result<()> {
    drop(made?);
    Ok(())
}

/// A call that uses up what it is passed, or replaces or removes parts of it.
#[derive(Clone, Copy)]
enum Freed {
    Drop,
    Clear,
    Retain,
    Remove,
    RemoveAt,
    DropUnread,
    DropHalfRead,
    Read,
    OverrideLast,
    Clone,
    StdClone,
    Insert,
    AtMut,
    WriteAt,
    WritePresent,
    InsertNew,
    AtMutNew,
    FromPairs,
    Map,
    HashMap,
    Print,
}

/// Reads half of the entries, and the last one.
fn half_read(object: Object, alloc: Global) -> Result<()> {
    let half = object.len() / 2;
    let mut entries = object.into_iter();
    for _ in 0..half {
        if let Some((key, _)) = entries.next() {
            drop(key.into_string(alloc)?);
        }
    }
    drop(entries.next_back());
    Ok(())
}

/// Replaces the value of each key.
fn replace(call: Freed, value: &mut JsonValue, alloc: Global, key: &str) -> Result<()> {
    let item = long_item(alloc)?;
    match call {
        Freed::Insert => value.insert(alloc, key, item)?,
        Freed::AtMut => *value.at_mut(alloc, key)? = item,
        Freed::WriteAt => write_at(value, alloc, key, item)?,
        _ => {
            write_present(value, key, item);
        }
    }
    Ok(())
}

fn replace_each(call: Freed, alloc: Global, count: u32) -> Result<()> {
    let mut value = JsonValue::Object(owned_object(alloc, count)?);
    for number in 0..count {
        replace(call, &mut value, alloc, long_text(alloc, number)?.as_str())?;
    }
    Ok(())
}

/// Puts each key, one by one.
fn insert_each(call: Freed, alloc: Global, count: u32) -> Result<()> {
    let mut value = JsonValue::new_object(alloc);
    for number in 0..count {
        let key = long_text(alloc, number)?;
        match call {
            Freed::AtMutNew => *value.at_mut(alloc, key.as_str())? = long_item(alloc)?,
            _ => value.insert(alloc, key.as_str(), long_item(alloc)?)?,
        }
    }
    Ok(())
}

/// Each key twice.
fn paired(alloc: Global, count: u32) -> Result<()> {
    let mut keys = Vec::new(alloc);
    for number in (0..count).chain(0..count) {
        keys.push(long_text(alloc, number)?)?;
    }
    let texts = keys.iter().map(|key| key.as_str());
    let pairs = keys.iter().map(|key| key.as_str()).zip(texts);
    drop(Object::from_pairs(alloc, pairs)?);
    Ok(())
}

fn map(alloc: Global, count: u32) -> Result<()> {
    drop(mapped!(BTreeMap, alloc, n in 0..count, long_text(alloc, n), long_item(alloc)));
    Ok(())
}

fn hash_map(alloc: Global, count: u32) -> Result<()> {
    drop(mapped!(HashMap, alloc, n in 0..count, long_text(alloc, n), long_item(alloc)));
    Ok(())
}

fn std_clone(object: &Object) -> Result<()> {
    drop(Clone::clone(object)?);
    Ok(())
}

/// Both texts are there at one time.
fn printed_object(object: &Object, alloc: Global) -> Result<()> {
    drop((object.dump(alloc)?, object.pretty(alloc, 2)?));
    Ok(())
}

impl Freed {
    /// On an object of its own.
    fn call_on(self, mut object: Object, alloc: Global) -> Result<()> {
        match self {
            Freed::DropHalfRead => return half_read(object, alloc),
            Freed::OverrideLast => object.override_last(long_item(alloc)?),
            Freed::Clone => return dropped(object.clone(alloc)),
            Freed::StdClone => return std_clone(&object),
            Freed::Print => return printed_object(&object, alloc),
            _ => self.use_up(object),
        }
        Ok(())
    }

    /// By a call that allocates nothing.
    fn use_up(self, mut object: Object) {
        match self {
            Freed::Clear => object.clear(),
            Freed::Retain => object.retain(|key, _value| key.starts_with("00000")),
            Freed::Remove => drop(object.remove("00001, a text of more than thirty bytes")),
            Freed::RemoveAt => drop(object.shift_remove_index(0)),
            Freed::DropUnread => drop(object.into_iter()),
            Freed::Read => {
                for (key, value) in object.into_iter().rev() {
                    drop((key, value));
                }
            }
            _ => {}
        }
    }
}

/// The same on an array, and on the text of one.
#[derive(Clone, Copy)]
enum FreedOfArray {
    Drop,
    Clear,
    Pop,
    ArrayRemove,
    MembersMut,
    WriteAtIndex,
    AtMut,
    AtIndexMut,
    Take,
    TakeString,
    Clone,
    StdClone,
    Slice,
    Push,
    Append,
    Print,
    DropGenerator,
}

fn write_each(array: &mut JsonValue, alloc: Global, count: u32) -> Result<()> {
    for number in 0..count {
        write_at_index(array, alloc, number as usize, long_item(alloc)?)?;
    }
    Ok(())
}

/// Adds each to an array of its own, by `push` or past its end.
fn append_each(call: FreedOfArray, alloc: Global, count: u32) -> Result<()> {
    let mut array = JsonValue::new_array(alloc);
    for number in 0..count {
        match call {
            FreedOfArray::Push => array.push(alloc, long_item(alloc)?)?,
            _ => *array.at_index_mut(alloc, number as usize)? = long_item(alloc)?,
        }
    }
    Ok(())
}

fn assign_each(array: &mut JsonValue, alloc: Global) -> Result<()> {
    for member in array.members_mut() {
        *member = long_item(alloc)?;
    }
    Ok(())
}

fn pop_each(array: &mut JsonValue, count: u32) {
    for _ in 0..count {
        drop(array.pop());
    }
}

fn take_strings(array: &mut JsonValue, alloc: Global) -> Result<()> {
    for member in array.members_mut() {
        drop(member.take_string(alloc)?);
    }
    Ok(())
}

fn printed(array: &JsonValue, alloc: Global) -> Result<()> {
    drop(array.dump(alloc)?);
    drop(array.pretty(alloc, 2)?);
    drop(array.lay_out(alloc, Compact)?);
    drop(array.lay_out(alloc, Pretty(2))?);
    Ok(())
}

/// Neither the generator nor its text is asked for.
fn drop_generator(array: &JsonValue, alloc: Global) -> Result<()> {
    let mut generator = DumpGenerator::new(alloc);
    match write_json(&mut generator, array) {
        Ok(()) => Ok(()),
        Err(_) => Err(Error::OutOfMemory),
    }
}

impl FreedOfArray {
    fn call_on(self, array: &mut JsonValue, alloc: Global, count: u32) -> Result<()> {
        match self {
            FreedOfArray::Clear => array.clear(),
            FreedOfArray::Pop => pop_each(array, count),
            FreedOfArray::ArrayRemove => drop(array.array_remove(1)),
            FreedOfArray::MembersMut => return assign_each(array, alloc),
            FreedOfArray::WriteAtIndex => return write_each(array, alloc, count),
            FreedOfArray::AtMut => *array.at_mut(alloc, LONG_KEY)? = long_item(alloc)?,
            FreedOfArray::AtIndexMut => *array.at_index_mut(alloc, 1)? = long_item(alloc)?,
            FreedOfArray::Take => drop(array.take()),
            FreedOfArray::TakeString => return take_strings(array, alloc),
            FreedOfArray::Clone => return dropped(array.clone(alloc)),
            FreedOfArray::StdClone => drop(Clone::clone(array)?),
            FreedOfArray::Print => return printed(array, alloc),
            FreedOfArray::DropGenerator => return drop_generator(array, alloc),
            _ => {}
        }
        Ok(())
    }
}

/// A call on this many entries or elements of its own.
trait Counted: Copy {
    fn call(self, alloc: Global, count: u32) -> Result<()>;
}

impl Counted for Freed {
    fn call(self, alloc: Global, count: u32) -> Result<()> {
        match self {
            Freed::Insert | Freed::AtMut | Freed::WriteAt | Freed::WritePresent => {
                replace_each(self, alloc, count)
            }
            Freed::InsertNew | Freed::AtMutNew => insert_each(self, alloc, count),
            Freed::FromPairs => paired(alloc, count),
            Freed::Map => map(alloc, count),
            Freed::HashMap => hash_map(alloc, count),
            _ => self.call_on(owned_object(alloc, count)?, alloc),
        }
    }
}

impl Counted for FreedOfArray {
    fn call(self, alloc: Global, count: u32) -> Result<()> {
        match self {
            FreedOfArray::Slice => sliced(alloc, count),
            FreedOfArray::Push | FreedOfArray::Append => append_each(self, alloc, count),
            _ => self.call_on(&mut owned_array(alloc, count)?, alloc, count),
        }
    }
}

/// A run of the call frees each block, and requests no more bytes than its entries need.
fn expect_freed<C: Counted>(
    rt: &(impl Eprint + Abort),
    alloc: Global,
    (call, name): (C, &str),
    count: u32,
) -> Tested {
    let mut refusals = Refusals::new(alloc);
    refusals.open();
    call.call(alloc, count)?;
    refusals.close();
    let most = MOST_OF_NONE.saturating_add(MOST_OF_ENTRY.saturating_mul(count as usize));
    refusals.expect_within(rt, name, most)?;
    refusals.expect_even()?;
    Ok(())
}

const FREED: &[(Freed, &str)] = rows! {
    (Freed::Drop, "drop of an object")
    (Freed::Clear, "Object::clear")
    (Freed::Retain, "Object::retain")
    (Freed::Remove, "Object::remove")
    (Freed::RemoveAt, "Object::shift_remove_index")
    (Freed::DropUnread, "into_iter that isn't read")
    (Freed::DropHalfRead, "into_iter that is read half")
    (Freed::Read, "into_iter from the back")
    (Freed::OverrideLast, "Object::override_last")
    (Freed::Clone, "Object::clone")
    (Freed::StdClone, "std's Clone of an object")
    (Freed::Insert, "insert over each string")
    (Freed::AtMut, "at_mut of each string")
    (Freed::WriteAt, "write_at over each string")
    (Freed::WritePresent, "write_present over each string")
    (Freed::InsertNew, "insert of each key")
    (Freed::AtMutNew, "at_mut of each key")
    (Freed::FromPairs, "Object::from_pairs")
    (Freed::Map, "into_json of a map")
    (Freed::HashMap, "into_json of a hash map")
    (Freed::Print, "texts of an object")
};

const FREED_OF_ARRAY: &[(FreedOfArray, &str)] = rows! {
    (FreedOfArray::Drop, "drop of an array")
    (FreedOfArray::Clear, "clear of an array")
    (FreedOfArray::Pop, "pop of each string")
    (FreedOfArray::ArrayRemove, "array_remove")
    (FreedOfArray::MembersMut, "members_mut, each written")
    (FreedOfArray::WriteAtIndex, "write_at_index over each string")
    (FreedOfArray::AtMut, "at_mut of an array")
    (FreedOfArray::AtIndexMut, "at_index_mut, written")
    (FreedOfArray::Take, "take of an array")
    (FreedOfArray::TakeString, "take_string of each string")
    (FreedOfArray::Clone, "clone of an array")
    (FreedOfArray::StdClone, "std's Clone of an array")
    (FreedOfArray::Slice, "into_json of a slice of strings")
    (FreedOfArray::Push, "push of each string")
    (FreedOfArray::Append, "at_index_mut past the end")
    (FreedOfArray::Print, "texts of an array")
    (FreedOfArray::DropGenerator, "drop of a generator")
};

#[test]
fn freed_counted(rt: HostRuntime) -> Tested {
    for count in COUNTS {
        for row in FREED {
            expect_freed(&rt, rt.alloc(), *row, *count)?;
        }
        for row in FREED_OF_ARRAY {
            expect_freed(&rt, rt.alloc(), *row, *count)?;
        }
    }
    Ok(())
}
