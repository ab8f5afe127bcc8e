//! A value as a whole: each call prints it, copies equal it, what it prints is read as it, and each
//! call that adds it to a container keeps it. Tried on each kind of value at its edges, and on
//! generated values.

use crate::common::{
    EACH_KIND, Tested, Tester, display, each_unread, each_value, expect, expect_dump, is_text,
    is_value, parts, read_strictly,
};
use crate::memory::Writing;
use jzon::lent::{write_at, write_at_index, write_present};
use jzon::object::Object;
use jzon::{IntoJson, JsonValue, Result, array, object, parse, stringify};
use jzon_test_support::joined;
use std::alloc::Global;
use std::collections::BTreeMap;

/// The calls and the generators that print in the compact layout.
const COMPACT: &[(Writing, &str)] = &[
    (Writing::Dump, "dump"),
    (Writing::Stringify, "stringify"),
    (Writing::LayOut, "lay_out"),
    (Writing::Write, "write"),
    (Writing::WriteLayout, "write_layout"),
    (Writing::DumpGenerator, "DumpGenerator"),
    (Writing::InMemory, "in_memory"),
    (Writing::WriterGenerator, "WriterGenerator"),
    (Writing::ToWriter, "to_writer"),
];

/// Those that print in the pretty layout.
const LINES: &[(Writing, &str)] = &[
    (Writing::Pretty, "pretty"),
    (Writing::StringifyPretty, "stringify_pretty"),
    (Writing::PrettyLayOut, "lay_out"),
    (Writing::WritePretty, "write_pretty"),
    (Writing::PrettyWriteLayout, "write_layout"),
    (Writing::PrettyGenerator, "PrettyGenerator"),
    (Writing::PrettyInMemory, "in_memory"),
    (Writing::PrettyWriterGenerator, "PrettyWriterGenerator"),
    (Writing::PrettyToWriter, "to_writer"),
];

/// Each of these prints this text of the value.
fn expect_each(
    rt: &impl Tester,
    value: &JsonValue,
    calls: &[(Writing, &str)],
    spaces: u16,
    text: &str,
) {
    for (call, name) in calls {
        let printed = call.text(value, rt.alloc(), spaces);
        expect(rt, name, is_text(printed, text));
    }
}

/// What prints a value in the compact layout prints this text: the calls and the generators.
pub fn expect_compact(rt: &impl Tester, value: &JsonValue, text: &str) {
    expect_each(rt, value, COMPACT, 0, text);
}

/// What prints a value in the pretty layout with this number of spaces prints this text.
pub fn expect_lines(rt: &impl Tester, value: &JsonValue, spaces: u16, text: &str) {
    expect_each(rt, value, LINES, spaces, text);
}

/// What `{}` shows of a value of this compact text.
fn shown<'a>(value: &'a JsonValue, text: &'a str) -> &'a str {
    match value {
        JsonValue::Number(number) if number.is_nan() => "nan",
        _ => value.as_str().unwrap_or(text),
    }
}

/// What prints a value in the pretty layout prints what `pretty` does.
fn expect_pretty(rt: &impl Tester, value: &JsonValue, spaces: u16) -> Tested {
    let lines = value.pretty(rt.alloc(), spaces)?;
    expect_lines(rt, value, spaces, lines.as_str());
    Ok(())
}

/// The value equals its copies, which print this text.
fn expect_copies(rt: &impl Tester, value: &JsonValue, text: &str) -> Tested {
    let copy = value.clone(rt.alloc())?;
    expect(rt, "the copy", is_text(copy.dump(rt.alloc()), text));
    expect(rt, "clone", *value == copy);
    expect(rt, "std's clone", *value == Clone::clone(&copy)?);
    Ok(())
}

/// The value prints this text, and equals its copies.
pub fn expect_printed(rt: &impl Tester, value: &JsonValue, text: &str) -> Tested {
    expect_compact(rt, value, text);
    expect_pretty(rt, value, 0)?;
    expect_pretty(rt, value, 2)?;
    let is_shown = is_text(display(rt.alloc(), value), shown(value, text));
    expect(rt, "Display", is_shown);
    expect_copies(rt, value, text)
}

/// What the value's pretty text is read as.
fn read_lines(alloc: Global, value: &JsonValue) -> Result<JsonValue> {
    let lines = value.pretty(alloc, 2)?;
    parse(alloc, lines.as_str())
}

/// It also equals what this text and its pretty text are read as.
pub fn expect_whole(rt: &impl Tester, value: &JsonValue, text: &str) -> Tested {
    let alloc = rt.alloc();
    expect_printed(rt, value, text)?;
    expect(rt, "parse", is_value(parse(alloc, text), value));
    let is_read = is_value(read_lines(alloc, value), value);
    expect(rt, "parse of lines", is_read);
    expect(rt, "parse_as", is_value(read_strictly(alloc, text), value));
    Ok(())
}

/// How an array of one value is made. For `AtIndexMut` it has room before.
#[derive(Clone, Copy)]
enum ArrayBy {
    Push,
    AtIndexMut,
    WriteAtIndex,
    Slice,
    List,
    Name,
    Expression,
}

const ARRAYS: &[ArrayBy] = &[
    ArrayBy::Push,
    ArrayBy::AtIndexMut,
    ArrayBy::WriteAtIndex,
    ArrayBy::Slice,
    ArrayBy::List,
    ArrayBy::Name,
    ArrayBy::Expression,
];

fn roomy_array(alloc: Global) -> Result<JsonValue> {
    Ok(JsonValue::Array(Vec::with_capacity(alloc, 5)?))
}

fn named_array(alloc: Global, item: JsonValue) -> Result<JsonValue> {
    Ok(array![alloc; item])
}

fn array_of_expression(alloc: Global, value: &JsonValue) -> Result<JsonValue> {
    Ok(array![alloc; value.clone(alloc)?])
}

impl ArrayBy {
    /// To this array.
    fn add(self, mut array: JsonValue, alloc: Global, value: &JsonValue) -> Result<JsonValue> {
        let item = value.clone(alloc)?;
        match self {
            ArrayBy::Push => array.push(alloc, item)?,
            ArrayBy::AtIndexMut => *array.at_index_mut(alloc, 0)? = item,
            _ => write_at_index(&mut array, alloc, 0, item)?,
        }
        Ok(array)
    }

    fn array(self, alloc: Global, value: &JsonValue) -> Result<JsonValue> {
        match self {
            ArrayBy::AtIndexMut => self.add(roomy_array(alloc)?, alloc, value),
            ArrayBy::Slice => vec![in alloc; value.clone(alloc)?]?
                .as_slice()
                .into_json(alloc),
            ArrayBy::List => vec![in alloc; value.clone(alloc)?]?.into_json(alloc),
            ArrayBy::Name => named_array(alloc, value.clone(alloc)?),
            ArrayBy::Expression => array_of_expression(alloc, value),
            _ => self.add(JsonValue::new_array(alloc), alloc, value),
        }
    }
}

/// How an object of one entry is made, of a value whose key is missing or present before.
#[derive(Clone, Copy)]
enum ValueBy {
    Insert,
    InsertOver,
    AtMut,
    WriteAt,
    WritePresent,
    Name,
    Expression,
}

const VALUES: &[ValueBy] = &[
    ValueBy::Insert,
    ValueBy::InsertOver,
    ValueBy::AtMut,
    ValueBy::WriteAt,
    ValueBy::WritePresent,
    ValueBy::Name,
    ValueBy::Expression,
];

fn named_object(alloc: Global, key: &str, item: JsonValue) -> Result<JsonValue> {
    Ok(object! {alloc; [key]: item})
}

fn object_of_expression(alloc: Global, key: &str, value: &JsonValue) -> Result<JsonValue> {
    Ok(object! {alloc; [key]: value.clone(alloc)?})
}

impl ValueBy {
    /// The value before.
    fn before(self, alloc: Global, key: &str) -> Result<JsonValue> {
        match self {
            ValueBy::Insert => Ok(JsonValue::new_object(alloc)),
            ValueBy::InsertOver => Ok(object! {alloc; [key]: 1}),
            ValueBy::WritePresent => Ok(object! {alloc; [key]: true}),
            _ => Ok(JsonValue::Null),
        }
    }

    fn put(self, alloc: Global, key: &str, item: JsonValue) -> Result<JsonValue> {
        let mut object = self.before(alloc, key)?;
        match self {
            ValueBy::AtMut => *object.at_mut(alloc, key)? = item,
            ValueBy::WriteAt => write_at(&mut object, alloc, key, item)?,
            ValueBy::WritePresent => drop(write_present(&mut object, key, item)),
            _ => object.insert(alloc, key, item)?,
        }
        Ok(object)
    }

    fn object(self, alloc: Global, key: &str, value: &JsonValue) -> Result<JsonValue> {
        match self {
            ValueBy::Name => named_object(alloc, key, value.clone(alloc)?),
            ValueBy::Expression => object_of_expression(alloc, key, value),
            _ => self.put(alloc, key, value.clone(alloc)?),
        }
    }
}

/// The same by the calls of objects and of maps. For `AtMut` it has room before.
#[derive(Clone, Copy)]
enum ObjectBy {
    Insert,
    AtMut,
    Pairs,
    Collect,
    Map,
}

const OBJECTS: &[ObjectBy] = &[
    ObjectBy::Insert,
    ObjectBy::AtMut,
    ObjectBy::Pairs,
    ObjectBy::Collect,
    ObjectBy::Map,
];

/// A map of this entry as an object.
fn mapped(alloc: Global, key: &str, item: JsonValue) -> Result<Object> {
    let mut map = BTreeMap::new(alloc);
    map.insert(String::from_str(alloc, key)?, item)?;
    match map.into_json(alloc)? {
        JsonValue::Object(object) => Ok(object),
        _ => Ok(Object::new(alloc)),
    }
}

impl ObjectBy {
    fn object(self, alloc: Global, key: &str, value: &JsonValue) -> Result<Object> {
        let item = value.clone(alloc)?;
        let mut object = Object::new(alloc);
        match self {
            ObjectBy::Insert => object.insert(alloc, key, item)?,
            ObjectBy::AtMut => {
                object = Object::with_capacity(alloc, 5)?;
                *object.at_mut(alloc, key)? = item;
            }
            ObjectBy::Pairs => return Object::from_pairs(alloc, [(key, item)].into_iter()),
            ObjectBy::Collect => return Ok([(key, item)].into_iter().collect(alloc)?),
            ObjectBy::Map => return mapped(alloc, key, item),
        }
        Ok(object)
    }
}

/// Keys that are empty, short and allocated.
const KEYS: &[&str] = &["", "a", "0123456789abcdef0123456789abcdef01234567"];

/// A key, its value, and the text of an object of this entry alone.
type Entry<'a> = (&'a str, &'a JsonValue, &'a str);

/// The array prints this text, and gives the value back.
fn expect_element(rt: &impl Tester, mut array: JsonValue, value: &JsonValue, text: &str) {
    expect_dump(rt, &array, text);
    expect(rt, "pop", array.pop() == *value && array.is_empty());
}

fn expect_entry(rt: &impl Tester, mut object: JsonValue, (key, value, text): Entry<'_>) {
    expect_dump(rt, &object, text);
    let removed = object.remove(key);
    expect(rt, "remove", removed == *value && object.is_empty());
}

fn expect_only(rt: &impl Tester, mut object: Object, (key, value, text): Entry<'_>) -> Tested {
    expect_object(rt, &object, text)?;
    let removed = object.remove(key);
    expect(rt, "Object::remove", removed.as_ref() == Some(value));
    expect(rt, "what is left", object.is_empty());
    Ok(())
}

fn expect_elements(rt: &impl Tester, value: &JsonValue, text: &str) -> Tested {
    let list = joined(rt.alloc(), &[("[", 1), (text, 1), ("]", 1)])?;
    for call in ARRAYS {
        expect_element(rt, call.array(rt.alloc(), value)?, value, list.as_str());
    }
    Ok(())
}

/// The value is held by each of these, and is what they print and give back.
pub fn expect_held(rt: &impl Tester, key: &str, value: &JsonValue, text: &str) -> Tested {
    let alloc = rt.alloc();
    expect_elements(rt, value, text)?;
    let name = stringify(alloc, key)?;
    let whole = format!(in alloc; "{{{name}:{text}}}")?;
    let entry = (key, value, whole.as_str());
    for call in VALUES {
        expect_entry(rt, call.object(alloc, key, value)?, entry);
    }
    for call in OBJECTS {
        expect_only(rt, call.object(alloc, key, value)?, entry)?;
    }
    Ok(())
}

/// The object prints this text, and its copies equal it.
pub fn expect_object(rt: &impl Tester, object: &Object, text: &str) -> Tested {
    let alloc = rt.alloc();
    expect(rt, "dump", is_text(object.dump(alloc), text));
    let lines = JsonValue::Object(object.clone(alloc)?).pretty(alloc, 0)?;
    let pretty = object.pretty(alloc, 0);
    expect(rt, "pretty", is_text(pretty, lines.as_str()));
    expect(rt, "clone", object.clone(alloc)? == *object);
    expect(rt, "std's clone", Clone::clone(object)? == *object);
    Ok(())
}

#[test]
fn holds_each_kind(rt: HostRuntime) -> Tested {
    for (text, value) in each_value(rt.alloc())? {
        for key in KEYS {
            expect_held(&rt, key, &value, text)?;
        }
    }
    Ok(())
}

/// Values that no text is read as are only printed and copied.
#[test]
fn prints_and_copies_each_kind(rt: HostRuntime) -> Tested {
    for text in EACH_KIND {
        expect_whole(&rt, &parse(rt.alloc(), text)?, text)?;
    }
    for (text, value) in each_unread(rt.alloc())? {
        expect_printed(&rt, &value, text)?;
    }
    Ok(())
}

/// Pieces of strings and keys: empty, plain, escaped, of two to four bytes, and controls.
const PIECES: &[&str] = &[
    "", "a", "B7", "é", "\n", "\"", "\\", "\u{1}", "/", "𝄞", " ", "\u{7f}", "01234567", "\u{ffff}",
];

const EXPONENTS: &[i16] = &[0, -1, -17, -300, 2, 17, 300, 32000];

/// A fixed sequence of numbers without a pattern.
#[derive(Drop)]
struct Sequence {
    state: u64,
}

impl Sequence {
    fn next(&mut self) -> u64 {
        self.state = self
            .state
            .wrapping_mul(6364136223846793005)
            .wrapping_add(1442695040888963407);
        self.state >> 20
    }

    fn text(&mut self, alloc: Global) -> Result<String> {
        let mut text = String::new(alloc);
        for _ in 0..self.next() % 8 {
            let piece = PIECES.get((self.next() % 14) as usize);
            text.push_str(piece.copied().unwrap_or(""))?;
        }
        Ok(text)
    }

    fn number(&mut self) -> JsonValue {
        let mantissa = self.next() >> (self.next() % 40);
        let exponent = EXPONENTS.get((self.next() % 8) as usize);
        let exponent = exponent.copied().unwrap_or(0);
        parts(self.next() % 2 == 0, mantissa, exponent)
    }

    /// A value without elements and entries. Of the two kinds of strings one is allocated.
    fn leaf(&mut self, alloc: Global) -> Result<JsonValue> {
        match self.next() % 8 {
            0 => Ok(JsonValue::Null),
            1 => Ok(JsonValue::Boolean(self.next() % 2 == 0)),
            2 => Ok(JsonValue::new_array(alloc)),
            3 => Ok(JsonValue::new_object(alloc)),
            4 => Ok(JsonValue::String(self.text(alloc)?)),
            5 => self.text(alloc)?.as_str().into_json(alloc),
            _ => Ok(self.number()),
        }
    }

    /// The value among others in an array.
    fn array(&mut self, alloc: Global, value: JsonValue) -> Result<JsonValue> {
        let mut array = JsonValue::new_array(alloc);
        for _ in 0..self.next() % 4 {
            array.push(alloc, self.leaf(alloc)?)?;
        }
        array.push(alloc, value)?;
        Ok(array)
    }

    /// The value among others in an object.
    fn object(&mut self, alloc: Global, value: JsonValue) -> Result<JsonValue> {
        let mut object = JsonValue::new_object(alloc);
        for _ in 0..self.next() % 20 {
            let key = self.text(alloc)?;
            object.insert(alloc, key.as_str(), self.leaf(alloc)?)?;
        }
        let key = self.text(alloc)?;
        object.insert(alloc, key.as_str(), value)?;
        Ok(object)
    }

    /// A value, in up to four containers.
    fn value(&mut self, alloc: Global) -> Result<JsonValue> {
        let mut value = self.leaf(alloc)?;
        for _ in 0..self.next() % 5 {
            value = if self.next() % 2 == 0 {
                self.array(alloc, value)?
            } else {
                self.object(alloc, value)?
            };
        }
        Ok(value)
    }
}

fn expect_next_whole(rt: &impl Tester, sequence: &mut Sequence) -> Tested {
    let value = sequence.value(rt.alloc())?;
    expect_whole(rt, &value, value.dump(rt.alloc())?.as_str())
}

fn expect_next_held(rt: &impl Tester, sequence: &mut Sequence) -> Tested {
    let key = sequence.text(rt.alloc())?;
    let value = sequence.value(rt.alloc())?;
    expect_held(rt, key.as_str(), &value, value.dump(rt.alloc())?.as_str())
}

/// The compact text, which `dump` is proved to return, is what the other calls are compared with.
#[test]
fn prints_copies_and_holds_generated_values(rt: HostRuntime) -> Tested {
    let mut printed = Sequence { state: 1 };
    let mut held = Sequence { state: 2 };
    for _ in 0..500 {
        expect_next_whole(&rt, &mut printed)?;
        expect_next_held(&rt, &mut held)?;
    }
    Ok(())
}
