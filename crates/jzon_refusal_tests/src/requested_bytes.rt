//! Calls that request no memory, on values of 70,000 entries or elements; and how much room copies
//! and built objects hold.

use crate::common::*;
use jzon::codegen::{
    DumpGenerator, Generator, Pretty, PrettyGenerator, PrettyWriterGenerator, WriterGenerator,
    write_json, write_object,
};
use jzon::lent::{write_at, write_at_index, write_present};
use jzon::object::{Key, Object};
use jzon::short::Short;
use jzon::{IntoJson, Reading, parse_as};
use jzon_test_support::{joined, keys_by_hash, object_text};
use std::fmt::Write;
use std::{fmt, io};

const COUNT: u32 = 70_000;

/// The key of this number.
fn named(alloc: Global, number: u32) -> Result<String> {
    Ok(format!(in alloc; "{number}")?)
}

/// Keys of up to five digits, and a long one, with their numbers and a long string.
fn numbered(alloc: Global) -> Result<JsonValue> {
    let mut object = Object::new(alloc);
    for number in 0..COUNT {
        object.insert(
            alloc,
            named(alloc, number)?.as_str(),
            JsonValue::from(number),
        )?;
    }
    object.insert(alloc, LONG_KEY, LONG_TEXT.into_json(alloc)?)?;
    Ok(JsonValue::Object(object))
}

fn numbers(alloc: Global) -> Result<JsonValue> {
    let numbers: Vec<u32> = (0..COUNT).collect(alloc)?;
    numbers.into_json(alloc)
}

/// Takes all that is written, and keeps nothing.
#[derive(Drop)]
struct Sink;

impl io::Write for Sink {
    fn write(&mut self, buf: &[u8]) -> io::Result<usize> {
        Ok(buf.len())
    }

    fn flush(&mut self) -> io::Result<()> {
        Ok(())
    }
}

impl fmt::Write for Sink {
    fn write_str(&mut self, _text: &str) -> fmt::Result {
        Ok(())
    }
}

#[derive(Clone, Copy)]
enum Frugal {
    Insert(&'static str),
    AtMut(&'static str),
    WriteAt(&'static str),
    WritePresent,
    GetMut,
    Remove,
    ArrayRemove,
    Pop,
    AtIndexMut,
    WriteAtIndex,
    Clear,
    Take,
    Read,
    Lend,
    Equal,
    Write,
    Generate,
    Order,
    Admits,
    Display,
    IntoJson,
    From,
    ObjectInsert(&'static str),
    ObjectAtMut(&'static str),
    OverrideLast,
    Retain,
    IntoIter,
    New,
    Inline,
    Parse,
    TakeString,
}

/// Calls that read it, from both ends.
fn read(value: &JsonValue) -> bool {
    let whole = value.as_view();
    let is_there = whole.at("1").eq_u64(1) || whole.at_index(1).eq_u64(1);
    let has_null = value.contains(&JsonValue::Null) || value.has_key("null");
    let last = value.members().rev().next().is_some() || value.entries().rev().next().is_some();
    is_there && last && !has_null && !value.eq_str("1") && value.len() >= COUNT as usize
}

/// Calls that lend its parts, also from the back.
fn lend(value: &mut JsonValue) -> bool {
    let has_members = value.members_mut().rev().next().is_some() && value.as_array_mut().is_some();
    let has_entries = value.entries_mut().rev().next().is_some();
    if let Some(object) = value.as_object_mut() {
        return has_entries
            && object.iter_mut().next().is_some()
            && object.get_index_mut(1).is_some();
    }
    has_members == value.is_array()
}

/// Half of the entries, and the last one.
fn half_read(value: JsonValue) {
    if let JsonValue::Object(object) = value {
        let half = object.len() / 2;
        let mut entries = object.into_iter();
        for _ in 0..half {
            drop(entries.next());
        }
        drop(entries.next_back());
    }
}

/// `Ok` if it holds.
fn of_truth(holds: bool) -> Result<()> {
    if holds {
        Ok(())
    } else {
        Err(Error::UnexpectedEndOfJson)
    }
}

fn write(value: &JsonValue) -> Result<()> {
    let mut sink = Sink;
    of_truth(
        value.write(&mut sink).is_ok()
            && value.write_pretty(&mut sink, 2).is_ok()
            && value.write_layout(&mut sink, Pretty(0)).is_ok(),
    )
}

/// By the generators over a writer.
fn generate(value: &JsonValue) -> Result<()> {
    let mut sink = Sink;
    of_truth(
        write_json(&mut WriterGenerator::new(&mut sink), value).is_ok()
            && write_json(&mut PrettyWriterGenerator::new(&mut sink, 100), value).is_ok(),
    )?;
    match value.as_object() {
        Some(object) => {
            of_truth(write_object(&mut WriterGenerator::new(&mut sink), object).is_ok())
        }
        None => Ok(()),
    }
}

/// The hook `order` of an object, if the value is one.
fn order(value: &JsonValue, alloc: Global) -> Result<()> {
    match value.as_object() {
        Some(object) => of_truth(matches!(DumpGenerator::new(alloc).order(object), Ok(None))),
        None => Ok(()),
    }
}

fn admits(value: &JsonValue) -> Result<()> {
    of_truth(Reading::new(true, 512).is_some_and(|reading| reading.admits(value)))
}

fn show(value: &JsonValue) -> Result<()> {
    let mut sink = Sink;
    of_truth(write!(sink, "{value}").is_ok())
}

/// By `From`, if it is a string or an object.
fn convert(value: JsonValue) -> JsonValue {
    match value {
        JsonValue::String(text) => JsonValue::from(text),
        JsonValue::Object(object) => JsonValue::from(object),
        other => other,
    }
}

/// What makes something empty.
fn make_empty(alloc: Global) {
    drop((
        Object::new(alloc),
        JsonValue::new_object(alloc),
        JsonValue::new_array(alloc),
    ));
    drop((DumpGenerator::new(alloc), PrettyGenerator::new(alloc, 2)));
}

/// What is stored inline.
fn make_inline(alloc: Global) -> Result<()> {
    let key = Key::new(alloc, "0123456789abcdef0123456789abcdef")?;
    drop((key.clone(alloc)?, key));
    drop(Short::from_slice("abcdefghijklmnopqrstuvwxyz0123"));
    drop("abcdefghijklmnopqrstuvwxyz0123".into_json(alloc)?);
    drop((Some(5u64).into_json(alloc)?, true.into_json(alloc)?));
    Ok(())
}

/// Texts without strings and containers.
const PRIMITIVES: &[&str] = &[
    "null",
    " true ",
    "-12.50e3",
    "1e99999",
    "18446744073709551616",
    "-9.99999999999999999999999999999999999999999999999999999999999999999999e1 ",
];

/// Texts without strings and containers that are rejected.
const NO_PRIMITIVES: &[&str] = &[
    "",
    "nul",
    "01",
    "-x",
    "1 2",
    "1111111111111111111111111111111111111111111111111111111111111111111111x",
];

/// By both readings.
fn parse_primitives(alloc: Global) -> Result<()> {
    let Some(strict) = Reading::new(true, 512) else {
        return of_truth(false);
    };
    for text in PRIMITIVES {
        parse(alloc, text)?;
        parse_as(alloc, text, &strict)?;
    }
    for text in NO_PRIMITIVES {
        of_truth(parse(alloc, text).is_err() && parse_as(alloc, text, &strict).is_err())?;
    }
    Ok(())
}

impl Frugal {
    fn change(self, object: &mut Object, alloc: Global) -> Result<()> {
        match self {
            Frugal::ObjectInsert(key) => object.insert(alloc, key, JsonValue::Null)?,
            Frugal::ObjectAtMut(key) => *object.at_mut(alloc, key)? = JsonValue::Null,
            Frugal::OverrideLast => object.override_last(JsonValue::Null),
            Frugal::Retain => object.retain(|key, _value| key.ends_with("9")),
            _ => {}
        }
        Ok(())
    }

    /// Calls on a value of any kind, and those that take none.
    fn use_up(self, value: &mut JsonValue, alloc: Global) -> Result<()> {
        match self {
            Frugal::Clear => value.clear(),
            Frugal::Take => drop(value.take()),
            Frugal::Read => return of_truth(read(value)),
            Frugal::Lend => return of_truth(lend(value)),
            Frugal::Equal => {
                let whole = &*value;
                return of_truth(*whole == *whole);
            }
            Frugal::Write => return write(value),
            Frugal::Generate => return generate(value),
            Frugal::Order => return order(value, alloc),
            Frugal::Admits => return admits(value),
            Frugal::Display => return show(value),
            Frugal::IntoJson => drop(value.take().into_json(alloc)?),
            Frugal::From => drop(convert(value.take())),
            Frugal::IntoIter => half_read(value.take()),
            Frugal::New => make_empty(alloc),
            Frugal::Inline => return make_inline(alloc),
            Frugal::Parse => return parse_primitives(alloc),
            Frugal::TakeString => return of_truth(value.take_string(alloc)?.is_some()),
            _ => {
                if let JsonValue::Object(object) = value {
                    return self.change(object, alloc);
                }
            }
        }
        Ok(())
    }
}

impl Call for Frugal {
    fn call(self, value: &mut JsonValue, alloc: Global) -> Result<()> {
        match self {
            Frugal::Insert(key) => return value.insert(alloc, key, "short"),
            Frugal::AtMut(key) => *value.at_mut(alloc, key)? = JsonValue::Null,
            Frugal::WriteAt(key) => return write_at(value, alloc, key, JsonValue::Null),
            Frugal::WritePresent => return of_truth(write_present(value, "1", JsonValue::Null)),
            Frugal::GetMut => return of_truth(value.get_mut("1").is_some()),
            Frugal::Remove => drop(value.remove("1")),
            Frugal::ArrayRemove => drop(value.array_remove(1)),
            Frugal::Pop => drop(value.pop()),
            Frugal::AtIndexMut => *value.at_index_mut(alloc, 69999)? = JsonValue::Null,
            Frugal::WriteAtIndex => return write_at_index(value, alloc, 69999, JsonValue::Null),
            _ => return self.use_up(value, alloc),
        }
        Ok(())
    }
}

/// A call, its name, and the kinds of values on which it requests nothing.
const CALLS: &[(Frugal, &str, &str)] = rows! {
    (Frugal::Insert("69999"), "insert of a present key", "object")
    (Frugal::Insert(LONG_KEY), "insert of a present long key", "object")
    (Frugal::AtMut("69999"), "at_mut of a present key", "object")
    (Frugal::AtMut(LONG_KEY), "at_mut of a present long key", "object")
    (Frugal::WriteAt("1"), "write_at of a present key", "object")
    (Frugal::WriteAt(LONG_KEY), "write_at of a present long key", "object")
    (Frugal::WritePresent, "write_present", "object")
    (Frugal::GetMut, "get_mut", "object")
    (Frugal::Remove, "remove", "object nothing")
    (Frugal::ObjectInsert("69999"), "Object::insert of a present key", "object")
    (Frugal::ObjectInsert(LONG_KEY), "Object::insert of a present long key", "object")
    (Frugal::ObjectAtMut("69999"), "Object::at_mut of a present key", "object")
    (Frugal::ObjectAtMut(LONG_KEY), "Object::at_mut of a present long key", "object")
    (Frugal::OverrideLast, "Object::override_last", "object nothing")
    (Frugal::Retain, "Object::retain", "object nothing")
    (Frugal::IntoIter, "into_iter", "object nothing")
    (Frugal::ArrayRemove, "array_remove", "array nothing")
    (Frugal::Pop, "pop", "array nothing")
    (Frugal::AtIndexMut, "at_index_mut in range", "array")
    (Frugal::WriteAtIndex, "write_at_index in range", "array")
    (Frugal::TakeString, "take_string of an allocated string", "string")
    (Frugal::Clear, "clear", "object array string nothing")
    (Frugal::Take, "take", "object array string nothing")
    (Frugal::Read, "readers", "object array")
    (Frugal::Lend, "what lends parts", "object array string")
    (Frugal::Equal, "==", "object array string nothing")
    (Frugal::Write, "what writes", "object array string nothing")
    (Frugal::Generate, "generators", "object array string nothing")
    (Frugal::Order, "order", "object nothing")
    (Frugal::Admits, "admits", "object array string nothing")
    (Frugal::Display, "Display", "object array string nothing")
    (Frugal::IntoJson, "into_json", "object array string nothing")
    (Frugal::From, "From", "object string nothing")
    (Frugal::New, "what makes something empty", "object")
    (Frugal::Inline, "what is stored inline", "object")
    (Frugal::Parse, "parse of primitives", "object")
};

/// Each call of this kind succeeds on a copy of the value, and requests no byte.
fn expect_frugal(
    rt: &(impl Eprint + Abort),
    alloc: Global,
    kind: &str,
    whole: &JsonValue,
) -> Tested {
    for (call, name, kinds) in CALLS {
        if kinds.contains(kind) {
            let name = format!(in alloc; "{kind}: {name}")?;
            let mut value = whole.clone(alloc)?;
            let mut refusals = Refusals::new(alloc);
            refusals.open();
            let outcome = call.call(&mut value, alloc);
            refusals.expect_within(rt, name.as_str(), 0)?;
            expect(rt, name.as_str(), outcome.is_ok());
        }
    }
    Ok(())
}

#[test]
fn no_memory_counted(rt: HostRuntime) -> Tested {
    let alloc = rt.alloc();
    expect_frugal(&rt, alloc, "object", &numbered(alloc)?)?;
    expect_frugal(&rt, alloc, "array", &numbers(alloc)?)?;
    let long = JsonValue::String(joined(alloc, &[("plain\n", 20000)])?);
    expect_frugal(&rt, alloc, "string", &long)
}

/// Also on what is empty or no container, and on an object that was emptied.
#[test]
fn no_memory_for_nothing_counted(rt: HostRuntime) -> Tested {
    let alloc = rt.alloc();
    expect_frugal(&rt, alloc, "nothing", &JsonValue::Null)?;
    expect_frugal(&rt, alloc, "nothing", &JsonValue::new_array(alloc))?;
    expect_frugal(&rt, alloc, "nothing", &JsonValue::new_object(alloc))?;
    let empty = JsonValue::String(String::new(alloc));
    expect_frugal(&rt, alloc, "nothing", &empty)?;
    let mut emptied = parse(alloc, "{\"a\":1}")?;
    drop(emptied.remove("a"));
    expect_frugal(&rt, alloc, "nothing", &emptied)
}

/// What makes an array of `COUNT` elements.
#[derive(Clone, Copy)]
enum Made {
    OfList,
    OfSlice,
    Clone,
    StdClone,
}

impl Made {
    fn make(self, alloc: Global, list: Vec<u32>, array: &JsonValue) -> Result<JsonValue> {
        match self {
            Made::OfList => list.into_json(alloc),
            Made::OfSlice => list.as_slice().into_json(alloc),
            Made::Clone => array.clone(alloc),
            Made::StdClone => Ok(Clone::clone(array)?),
        }
    }
}

const MADE: &[(Made, &str)] = &[
    (Made::OfList, "into_json of a long list"),
    (Made::OfSlice, "into_json of a long slice"),
    (Made::Clone, "clone of a long array"),
    (Made::StdClone, "std's Clone of a long array"),
];

/// Each requests the 48 bytes of each element, once.
#[test]
fn made_counted(rt: HostRuntime) -> Tested {
    let alloc = rt.alloc();
    let array = numbers(alloc)?;
    for (call, name) in MADE {
        let list: Vec<u32> = (0..COUNT).collect(alloc)?;
        let mut refusals = Refusals::new(alloc);
        refusals.open();
        let made = call.make(alloc, list, &array)?;
        refusals.expect_within(&rt, name, 48 * COUNT as usize)?;
        expect(&rt, name, made == array);
    }
    Ok(())
}

/// What holds no more room than its parts need.
#[derive(Clone, Copy)]
enum Held {
    Clone,
    StdClone,
    ObjectClone,
    List,
    Text,
    TextClone,
    Key,
    KeyClone,
    Dump,
    Parsed,
}

/// Five nulls in an array with room for a thousand.
fn roomy_array(alloc: Global) -> Result<JsonValue> {
    let mut items = Vec::with_capacity(alloc, 1000)?;
    for _ in 0..5 {
        items.push(JsonValue::Null)?;
    }
    Ok(JsonValue::Array(items))
}

/// Five nulls in an object with room for a thousand.
fn roomy_object(alloc: Global) -> Result<Object> {
    let mut object = Object::with_capacity(alloc, 1000)?;
    for key in ["a", "b", "c", "d", "e"] {
        object.insert(alloc, key, JsonValue::Null)?;
    }
    Ok(object)
}

/// What removes elements or entries that have far more room than they need.
fn remove_each(array: &mut JsonValue, object: &mut Object) {
    drop(array.array_remove(1));
    drop(object.shift_remove_index(2));
    object.retain(|key, _value| key != "d");
    for key in ["e", "a", "b"] {
        drop(array.pop());
        drop(object.remove(key));
    }
    drop(array.array_remove(0));
}

/// The room stays as it is: nothing is requested.
#[test]
fn removals_counted(rt: HostRuntime) -> Tested {
    let mut array = roomy_array(rt.alloc())?;
    let mut object = roomy_object(rt.alloc())?;
    let mut refusals = Refusals::new(rt.alloc());
    refusals.open();
    remove_each(&mut array, &mut object);
    refusals.expect_within(&rt, "removals from much room", 0)?;
    expect(&rt, "what is left", array.is_empty() && object.is_empty());
    Ok(())
}

impl Held {
    fn make(self, alloc: Global) -> Result<JsonValue> {
        match self {
            Held::Clone => roomy_array(alloc)?.clone(alloc),
            Held::StdClone => Ok(Clone::clone(&roomy_array(alloc)?)?),
            Held::ObjectClone => Ok(JsonValue::Object(roomy_object(alloc)?.clone(alloc)?)),
            Held::List => vec![in alloc; 1u8, 2, 3, 4, 5]?.into_json(alloc),
            Held::Text => LONG_TEXT.into_json(alloc),
            Held::TextClone => {
                let mut text = String::with_capacity(alloc, 1000)?;
                text.push_str(LONG_TEXT)?;
                JsonValue::String(text).clone(alloc)
            }
            Held::Key => {
                let text = joined(alloc, &[("k", 4096)])?;
                Ok(JsonValue::String(Key::new(alloc, text.as_str())?.into_string(alloc)?))
            }
            Held::KeyClone => {
                let copy = Key::new(alloc, LONG_KEY)?.clone(alloc)?;
                Ok(JsonValue::String(copy.into_string(alloc)?))
            }
            Held::Dump => {
                let text = JsonValue::String(joined(alloc, &[("plain", 40000)])?);
                Ok(JsonValue::String(text.dump(alloc)?))
            }
            Held::Parsed => {
                let pieces = &[
                    ("[[0", 1),
                    (",0", 2999),
                    (",[0", 1),
                    (",0", 19_999),
                    ("]],1]", 1),
                ];
                parse(alloc, joined(alloc, pieces)?.as_str())
            }
        }
    }
}

/// A call, its name, and the most bytes that its value holds: those of its parts, and up to 24
/// more for each block.
const HELD: &[(Held, &str, usize)] = &[
    (Held::Clone, "clone of an array with room", 5 * 48 + 24),
    (
        Held::StdClone,
        "std's Clone of an array with room",
        5 * 48 + 24,
    ),
    (Held::ObjectClone, "Object::clone with room", 5 * 96 + 224),
    (Held::List, "into_json of a list", 5 * 48 + 24),
    (Held::Text, "into_json of a long string", 31 + 24),
    (Held::TextClone, "clone of a string with room", 31 + 24),
    (Held::Key, "Key::new of a long key", 4096 + 24),
    (Held::KeyClone, "Key::clone of a long key", 40 + 24),
    // A text that grows may have as much room again, and a block of this size ends with its page.
    (Held::Dump, "dump of a long string", 2 * 200_002 + 4096),
    // Arrays of 20,000, 3,001 and 2 values, of which two blocks end with their pages.
    (
        Held::Parsed,
        "parse of an array in which a longer one ended",
        48 * 23_003 + 2 * 4096 + 24,
    ),
];

#[test]
fn room_counted(rt: HostRuntime) -> Tested {
    let alloc = rt.alloc();
    for (call, name, most) in HELD {
        let mut refusals = Refusals::new(alloc);
        refusals.open();
        let value = call.make(alloc)?;
        refusals.expect_held(&rt, name, *most)?;
        drop(value);
        refusals.close();
        refusals.expect_even()?;
    }
    Ok(())
}

/// The most bytes that the index of `COUNT` keys requests while it grows. Keys and values that grow
/// once request 96 more bytes for each key.
const MOST_OF_INDEX: usize = 256 * COUNT as usize;

/// The bytes of `COUNT` keys and values, and of an index of up to 1,024 of them with what is beside.
const MOST_OF_CAPACITY: usize = 96 * COUNT as usize + 32 * 1024;

/// An object with room for all keys requests memory for its index alone.
#[test]
fn capacity_counted(rt: HostRuntime) -> Tested {
    let alloc = rt.alloc();
    let keys = keys_by_hash(alloc, COUNT)?;
    let mut refusals = Refusals::new(alloc);
    refusals.open();
    let mut object = Object::with_capacity(alloc, keys.len())?;
    refusals.expect_within(&rt, "room for many entries", MOST_OF_CAPACITY)?;
    refusals.open();
    for key in &keys {
        object.insert(alloc, key.as_str(), JsonValue::Null)?;
    }
    refusals.expect_within(&rt, "Object::with_capacity", MOST_OF_INDEX)?;
    Ok(())
}

/// The index of a strict reading is the object's: a new key with memory of its own needs only that.
#[test]
fn strict_index_counted(rt: HostRuntime) -> Tested {
    let alloc = rt.alloc();
    let text = object_text(alloc, keys_by_hash(alloc, 70)?.as_slice())?;
    let mut value = parse_as(alloc, text.as_str(), &Reading::STRICT)?;
    let mut refusals = Refusals::new(alloc);
    refusals.open();
    value.insert(alloc, LONG_KEY, JsonValue::Null)?;
    refusals.expect_within(&rt, "insert after a strict reading", LONG_KEY.len())?;
    Ok(())
}
