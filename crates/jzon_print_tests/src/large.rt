//! Values far beyond what is kept inline, compared in place, made room for in advance, or counted
//! in 16 bits: each call that may run out of memory succeeds at eleven hundred elements or entries,
//! those that make or print a value also at lengths that rise by a tenth and at 70,000, at long
//! strings, at 70,000 escapes, at arrays and objects 1,100 deep, and at the widest indents.

use crate::common::{LENGTHS, Tested, Tester, display, expect, is_text, is_value, read_strictly};
use crate::whole::{expect_held, expect_lines, expect_object, expect_printed, expect_whole};
use jzon::lent::{write_at, write_at_index};
use jzon::object::Object;
use jzon::{Error, IntoJson, JsonValue, Result, parse, stringify, stringify_pretty};
use jzon_test_support::{joined, keys_by_hash, object_text};
use std::alloc::{AllocError, Global};
use std::collections::{BTreeMap, HashMap};

/// More than the 1,024 up to which an index has its room in advance.
const COUNT: u32 = 1100;

/// More than 16 bits can count.
const MANY: u32 = 70_000;

/// The numbers from 0 on, as texts of five digits, so that they are in the order of their bytes.
fn names(alloc: Global, count: u32) -> std::result::Result<Vec<String>, AllocError> {
    let mut names = Vec::new(alloc);
    for number in 0..count {
        names.push(format!(in alloc; "{number:05}")?)?;
    }
    Ok(names)
}

/// The text of an array of the numbers below `count`, or of an object with each under its name.
fn numbers_text(
    alloc: Global,
    count: u32,
    is_object: bool,
) -> std::result::Result<String, AllocError> {
    let (open, close) = if is_object { ('{', '}') } else { ('[', ']') };
    let mut text = String::new(alloc);
    for number in 0..count {
        text.push(if text.is_empty() { open } else { ',' })?;
        if is_object {
            text.push_str(format!(in alloc; "\"{number:05}\":")?.as_str())?;
        }
        text.push_str(format!(in alloc; "{number}")?.as_str())?;
    }
    text.push(close)?;
    Ok(text)
}

/// What a string begins with, a piece that it repeats, and what comes after the pieces.
type Spelling = [&'static str; 3];

/// How often a string repeats its piece, how it is spelled, and how it is printed: 200,000 bytes that
/// are written as they are, without and with escapes after them, and 200 and 350,000 bytes with an
/// escape in every five.
const STRINGS: &[(u32, Spelling, Spelling)] = &[
    (40000, ["", "plain", ""], ["", "plain", ""]),
    (
        40000,
        ["", "plain", "\u{1}é\""],
        ["", "plain", "\\u0001é\\\""],
    ),
    (40, ["", "ab\né", ""], ["", "ab\\né", ""]),
    (70000, ["", "ab\né", ""], ["", "ab\\né", ""]),
];

/// Strings of each length: plain, and between escapes.
const OF_EACH_LENGTH: &[(Spelling, Spelling)] = &[
    (["", "p", ""], ["", "p", ""]),
    (["\n", "p", "\n"], ["\\n", "p", "\\n"]),
];

/// A string, and its text.
fn string_of(
    alloc: Global,
    count: u32,
    [start, piece, end]: Spelling,
    [printed_start, printed, printed_end]: Spelling,
) -> std::result::Result<(String, String), AllocError> {
    let count = count as usize;
    let string = joined(alloc, &[(start, 1), (piece, count), (end, 1)])?;
    let parts = [
        ("\"", 1),
        (printed_start, 1),
        (printed, count),
        (printed_end, 1),
        ("\"", 1),
    ];
    Ok((string, joined(alloc, &parts)?))
}

/// All these strings, each with its text.
fn strings(alloc: Global) -> std::result::Result<Vec<(String, String)>, AllocError> {
    let mut strings = Vec::new(alloc);
    for (count, spelling, printed) in STRINGS {
        strings.push(string_of(alloc, *count, *spelling, *printed)?)?;
    }
    for len in LENGTHS {
        for (spelling, printed) in OF_EACH_LENGTH {
            strings.push(string_of(alloc, u32::from(*len), *spelling, *printed)?)?;
        }
    }
    Ok(strings)
}

/// Whether this string is taken from the value of the text.
fn is_taken(alloc: Global, string: &str, text: &str) -> Result<bool> {
    let taken = parse(alloc, text)?.take_string(alloc)?;
    Ok(taken.as_deref() == Some(string))
}

/// Whether the text is rejected after a bracket that isn't closed.
fn is_cut(alloc: Global, text: &str) -> Result<bool> {
    let cut = joined(alloc, &[("[", 1), (text, 1)])?;
    Ok(parse(alloc, cut.as_str()).is_err())
}

fn owned_string(alloc: Global, string: &str) -> Result<JsonValue> {
    String::from_str(alloc, string)?.into_json(alloc)
}

/// Each call that makes, takes or prints a string does so with this one. A text that ends after the
/// string isn't read.
fn expect_string(rt: &impl Tester, string: &str, text: &str) -> Tested {
    let alloc = rt.alloc();
    expect_whole(rt, &string.into_json(alloc)?, text)?;
    expect_whole(rt, &owned_string(alloc, string)?, text)?;
    expect(rt, "stringify", is_text(stringify(alloc, string), text));
    let printed = stringify_pretty(alloc, string, 2);
    expect(rt, "stringify_pretty", is_text(printed, text));
    expect(rt, "take_string", is_taken(alloc, string, text)?);
    expect(rt, "no end", is_cut(alloc, text)?);
    Ok(())
}

/// `Display` too shows the strings in an array in quotes and escaped.
#[test]
fn long_strings(rt: HostRuntime) -> Tested {
    let alloc = rt.alloc();
    for (string, text) in &strings(alloc)? {
        expect_string(&rt, string, text)?;
        let inside = joined(alloc, &[("[", 1), (text, 1), ("]", 1)])?;
        expect_whole(&rt, &parse(alloc, inside.as_str())?, inside.as_str())?;
    }
    Ok(())
}

/// Each call that puts an entry puts it under this key, also with the key as its value.
fn expect_key(rt: &impl Tester, key: &str, text: &str) -> Tested {
    let alloc = rt.alloc();
    expect_held(rt, key, &JsonValue::from(1), "1")?;
    let parts = [("{", 1), (text, 1), (":", 1), (text, 1), ("}", 1)];
    let whole = joined(alloc, &parts)?;
    let mut object = JsonValue::new_object(alloc);
    object.insert(alloc, key, key)?;
    expect_whole(rt, &object, whole.as_str())
}

#[test]
fn long_keys(rt: HostRuntime) -> Tested {
    for (key, text) in &strings(rt.alloc())? {
        expect_key(&rt, key, text)?;
    }
    Ok(())
}

/// The calls that make an array longer, and the conversions of a slice and of a list.
#[derive(Clone, Copy)]
enum ArrayBy {
    Slice,
    List,
    Push,
    AtIndexMut,
    WriteAtIndex,
}

const ARRAYS: &[ArrayBy] = &[
    ArrayBy::Slice,
    ArrayBy::List,
    ArrayBy::Push,
    ArrayBy::AtIndexMut,
    ArrayBy::WriteAtIndex,
];

impl ArrayBy {
    fn add(self, array: &mut JsonValue, alloc: Global, number: u32) -> Result<()> {
        match self {
            ArrayBy::Push => array.push(alloc, number)?,
            ArrayBy::AtIndexMut => {
                *array.at_index_mut(alloc, usize::MAX)? = JsonValue::from(number);
            }
            _ => write_at_index(array, alloc, usize::MAX, JsonValue::from(number))?,
        }
        Ok(())
    }

    /// The array of the numbers below `count`.
    fn array(self, alloc: Global, count: u32) -> Result<JsonValue> {
        let numbers: Vec<u32> = (0..count).collect(alloc)?;
        match self {
            ArrayBy::Slice => numbers.as_slice().into_json(alloc),
            ArrayBy::List => numbers.into_json(alloc),
            _ => self.added(alloc, count),
        }
    }

    fn added(self, alloc: Global, count: u32) -> Result<JsonValue> {
        let mut array = JsonValue::new_array(alloc);
        for number in 0..count {
            self.add(&mut array, alloc, number)?;
        }
        Ok(array)
    }
}

fn expect_long_array(rt: &impl Tester, mut array: JsonValue) {
    expect(rt, "pop", array.pop().eq_u64(1099));
    expect(rt, "array_remove", array.array_remove(500).eq_u64(500));
    expect(rt, "the length", array.len() == 1098);
    expect(rt, "at_index", array.at_index(500).eq_u64(501));
}

#[test]
fn long_arrays(rt: HostRuntime) -> Tested {
    let text = numbers_text(rt.alloc(), COUNT, false)?;
    for call in ARRAYS {
        let array = call.array(rt.alloc(), COUNT)?;
        expect_whole(&rt, &array, text.as_str())?;
        expect_long_array(&rt, array);
    }
    Ok(())
}

/// An array of this length by each of these calls is the one of its text.
fn expect_elements(rt: &impl Tester, count: u32) -> Tested {
    let whole = parse(rt.alloc(), numbers_text(rt.alloc(), count, false)?.as_str())?;
    for call in ARRAYS {
        let is_whole = is_value(call.array(rt.alloc(), count), &whole);
        expect(rt, "the whole", is_whole);
    }
    Ok(())
}

#[test]
fn many_elements(rt: HostRuntime) -> Tested {
    for count in LENGTHS {
        expect_elements(&rt, u32::from(*count))?;
    }
    expect_elements(&rt, MANY)?;
    let text = numbers_text(rt.alloc(), MANY, false)?;
    expect_printed(&rt, &parse(rt.alloc(), text.as_str())?, text.as_str())
}

/// Copies of the value equal it, and it prints this text.
fn expect_text(rt: &impl Tester, value: &JsonValue, text: &str) -> Tested {
    let alloc = rt.alloc();
    expect(rt, "clone", is_value(value.clone(alloc), value));
    expect(rt, "dump", is_text(value.dump(alloc), text));
    expect(rt, "Display", is_text(display(alloc, value), text));
    let mut bytes: Vec<u8> = Vec::new(alloc);
    value.write(&mut bytes)?;
    expect(rt, "write", bytes.as_slice() == text.as_bytes());
    Ok(())
}

/// The call returned a container of this length.
fn has_length(found: Result<JsonValue>, len: usize) -> bool {
    match found {
        Ok(found) => found.len() == len,
        Err(_) => false,
    }
}

/// The text is read as a container of this length, also strictly, and also inside an array, which is
/// copied and printed.
fn expect_length(rt: &impl Tester, text: &str, len: usize) -> Tested {
    let alloc = rt.alloc();
    expect(rt, "parse", has_length(parse(alloc, text), len));
    let read = read_strictly(alloc, text);
    expect(rt, "parse_as", has_length(read, len));
    let outer = joined(alloc, &[("[0,", 1), (text, 1), (",0]", 1)])?;
    let value = parse(alloc, outer.as_str())?;
    expect(rt, "inside", value.at_index(1).len() == len);
    expect_text(rt, &value, outer.as_str())
}

/// An array of zeros, and an object of keys whose hashes ascend.
fn expect_containers(rt: &impl Tester, count: u32) -> Tested {
    let alloc = rt.alloc();
    let len = count as usize;
    let array = joined(alloc, &[("[0", 1), (",0", len.saturating_sub(1)), ("]", 1)])?;
    expect_length(rt, array.as_str(), len)?;
    let object = object_text(alloc, keys_by_hash(alloc, count)?.as_slice())?;
    expect_length(rt, object.as_str(), len)
}

/// Also at a length that needs a third byte.
#[test]
fn arrays_and_objects_of_each_length(rt: HostRuntime) -> Tested {
    for count in 1..=300 {
        expect_containers(&rt, count)?;
    }
    for count in LENGTHS {
        expect_containers(&rt, u32::from(*count))?;
    }
    expect_containers(&rt, 65537)
}

/// More than 1,024, and deeper than any text that is read.
const DEPTH: usize = 1100;

/// An array in an array and so on, and an object in an object.
fn nested(alloc: Global) -> Result<[JsonValue; 2]> {
    let mut array = JsonValue::from(1);
    let mut object = JsonValue::from(1);
    for _ in 0..DEPTH {
        array = JsonValue::Array(vec![in alloc; array]?);
        let mut outer = Object::new(alloc);
        outer.insert(alloc, "a", object)?;
        object = JsonValue::Object(outer);
    }
    Ok([array, object])
}

fn expect_deep(
    rt: &impl Tester,
    value: &JsonValue,
    open: &'static str,
    close: &'static str,
) -> Tested {
    let text = joined(rt.alloc(), &[(open, DEPTH), ("1", 1), (close, DEPTH)])?;
    let outcome = parse(rt.alloc(), text.as_str());
    let is_too_deep = matches!(outcome, Err(Error::ExceededDepthLimit));
    expect(rt, "parse", is_too_deep);
    expect_printed(rt, value, text.as_str())
}

/// The values are copied and printed, but their texts aren't read.
#[test]
fn deep_values(rt: HostRuntime) -> Tested {
    let [array, object] = nested(rt.alloc())?;
    expect_deep(&rt, &array, "[", "]")?;
    expect_deep(&rt, &object, "{\"a\":", "}")
}

/// Three open containers, with this number of spaces for each.
fn expect_spaces(rt: &impl Tester, spaces: u16) -> Tested {
    let alloc = rt.alloc();
    let value = parse(alloc, "[[[1]]]")?;
    let i = joined(alloc, &[(" ", usize::from(spaces))])?;
    let text = format!(in alloc; "[\n{i}[\n{i}{i}[\n{i}{i}{i}1\n{i}{i}]\n{i}]\n]")?;
    expect(rt, "parse", is_value(parse(alloc, text.as_str()), &value));
    expect_lines(rt, &value, spaces, text.as_str());
    Ok(())
}

/// Also with the most spaces.
#[test]
fn the_widest_indents(rt: HostRuntime) -> Tested {
    for spaces in 0..=300 {
        expect_spaces(&rt, spaces)?;
    }
    for spaces in LENGTHS {
        expect_spaces(&rt, *spaces)?;
    }
    expect_spaces(&rt, u16::MAX)
}

/// The calls that make an object longer, and the conversions of lists of entries, one of unknown
/// length, and of maps.
#[derive(Clone, Copy)]
enum ObjectBy {
    Insert,
    AtMut,
    WriteAt,
    ObjectAtMut,
    Map,
    OwnedMap,
    Pairs,
    FilteredPairs,
    Collect,
    HashMap,
    OwnedHashMap,
}

const OBJECTS: &[ObjectBy] = &[
    ObjectBy::Insert,
    ObjectBy::AtMut,
    ObjectBy::WriteAt,
    ObjectBy::ObjectAtMut,
    ObjectBy::Map,
    ObjectBy::OwnedMap,
    ObjectBy::Pairs,
    ObjectBy::FilteredPairs,
    ObjectBy::Collect,
];

/// They make an object with its entries in any order.
const UNORDERED: &[ObjectBy] = &[ObjectBy::HashMap, ObjectBy::OwnedHashMap];

type Pairs<'a> = Vec<(&'a str, u32)>;

/// The same, with keys of their own.
fn owned(alloc: Global, pairs: &[(&str, u32)]) -> Result<Vec<(String, u32)>> {
    let mut owned = Vec::with_capacity(alloc, pairs.len())?;
    for (name, number) in pairs {
        owned.push((String::from_str(alloc, name)?, *number))?;
    }
    Ok(owned)
}

fn filtered(alloc: Global, pairs: &[(&str, u32)]) -> Result<Object> {
    let named = pairs.iter().copied().filter(|pair| !pair.0.is_empty());
    Object::from_pairs(alloc, named)
}

impl ObjectBy {
    fn add(self, value: &mut JsonValue, alloc: Global, name: &str, number: u32) -> Result<()> {
        match self {
            ObjectBy::Insert => value.insert(alloc, name, number)?,
            ObjectBy::AtMut => *value.at_mut(alloc, name)? = jzon::from(alloc, number)?,
            ObjectBy::ObjectAtMut => {
                if let Some(object) = value.as_object_mut() {
                    *object.at_mut(alloc, name)? = JsonValue::from(number);
                }
            }
            _ => write_at(value, alloc, name, JsonValue::from(number))?,
        }
        Ok(())
    }

    fn added(self, alloc: Global, mut value: JsonValue, pairs: Pairs<'_>) -> Result<JsonValue> {
        for (name, number) in pairs {
            self.add(&mut value, alloc, name, number)?;
        }
        Ok(value)
    }

    /// The object of these names, each with its position.
    fn object(self, alloc: Global, names: &[String]) -> Result<JsonValue> {
        let texts = names.iter().map(|name| name.as_str());
        let pairs: Pairs<'_> = texts.zip(0u32..).collect(alloc)?;
        match self {
            ObjectBy::AtMut | ObjectBy::WriteAt => self.added(alloc, JsonValue::Null, pairs),
            ObjectBy::Map => {
                let map: BTreeMap<&str, u32> = pairs.into_iter().collect(alloc)?;
                map.into_json(alloc)
            }
            ObjectBy::FilteredPairs => Ok(JsonValue::Object(filtered(alloc, pairs.as_slice())?)),
            ObjectBy::OwnedMap => {
                let owned = owned(alloc, pairs.as_slice())?;
                let map: BTreeMap<String, u32> = owned.into_iter().collect(alloc)?;
                map.into_json(alloc)
            }
            ObjectBy::Pairs => {
                let object = Object::from_pairs(alloc, pairs.iter().copied())?;
                Ok(JsonValue::Object(object))
            }
            ObjectBy::HashMap => {
                let map: HashMap<&str, u32> = pairs.into_iter().collect(alloc)?;
                map.into_json(alloc)
            }
            ObjectBy::Collect => {
                let object: Object = pairs.into_iter().collect(alloc)?;
                Ok(JsonValue::Object(object))
            }
            ObjectBy::OwnedHashMap => {
                let owned = owned(alloc, pairs.as_slice())?;
                let map: HashMap<String, u32> = owned.into_iter().collect(alloc)?;
                map.into_json(alloc)
            }
            _ => self.added(alloc, JsonValue::new_object(alloc), pairs),
        }
    }
}

/// The object has as many entries as `whole`, and is equal to it.
fn expect_entries(rt: &impl Tester, mut object: JsonValue, whole: &JsonValue) {
    expect(rt, "the whole", object == *whole);
    expect(rt, "the length", object.len() == whole.len());
    expect(rt, "remove", object.remove("00500").eq_u64(500));
    expect(rt, "has_key", !object.has_key("00500"));
    expect(rt, "at", object.at("01099").eq_u64(1099));
}

#[test]
fn large_objects(rt: HostRuntime) -> Tested {
    let alloc = rt.alloc();
    let names = names(alloc, COUNT)?;
    let text = numbers_text(alloc, COUNT, true)?;
    let whole = parse(alloc, text.as_str())?;
    for call in OBJECTS {
        let object = call.object(alloc, &names)?;
        expect_whole(&rt, &object, text.as_str())?;
        expect_entries(&rt, object, &whole);
    }
    for call in UNORDERED {
        let object = call.object(alloc, &names)?;
        expect(&rt, "the text", object.dump(alloc)?.len() == text.len());
        expect_entries(&rt, object, &whole);
    }
    Ok(())
}

/// An object of this length by each of these calls is the one of its text.
fn expect_many_entries(rt: &impl Tester, count: u32) -> Tested {
    let alloc = rt.alloc();
    let names = names(alloc, count)?;
    let whole = parse(alloc, numbers_text(alloc, count, true)?.as_str())?;
    for call in OBJECTS {
        let is_whole = is_value(call.object(alloc, &names), &whole);
        expect(rt, "the whole", is_whole);
    }
    for call in UNORDERED {
        let is_whole = is_value(call.object(alloc, &names), &whole);
        expect(rt, "the whole", is_whole);
    }
    Ok(())
}

#[test]
fn many_entries(rt: HostRuntime) -> Tested {
    for count in LENGTHS {
        expect_many_entries(&rt, u32::from(*count))?;
    }
    expect_many_entries(&rt, MANY)
}

/// Calls on an object itself, and those that print a value.
#[test]
fn calls_on_a_large_object(rt: HostRuntime) -> Tested {
    let alloc = rt.alloc();
    let text = numbers_text(alloc, MANY, true)?;
    let value = parse(alloc, text.as_str())?;
    expect_printed(&rt, &value, text.as_str())?;
    if let Some(object) = value.as_object() {
        expect_object(&rt, object, text.as_str())?;
        let collected: Object = object.keys().zip(0u32..).collect(alloc)?;
        expect(&rt, "collect", collected == *object);
    }
    let room = Object::with_capacity(alloc, 100_000)?;
    expect(&rt, "with_capacity", room.is_empty());
    Ok(())
}
