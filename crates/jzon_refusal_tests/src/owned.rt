//! Calls that are passed what owns memory: they drop it where they fail. And texts that are
//! rejected inside containers: what was read of them is dropped.

use crate::common::*;
use jzon::codegen::{DumpGenerator, Generator};
use jzon::lent::{write_at, write_at_index, write_present};
use jzon::object::Object;
use jzon_test_support::joined;

#[derive(Clone, Copy)]
enum Owned {
    Push,
    PushOnNull,
    Insert(&'static str),
    InsertOnArray,
    ObjectInsert,
    FromPairs,
    WriteAt,
    WriteAtIndex,
    WritePresent,
    Remove,
    OverrideLast,
    Clear,
    Consume,
    AtMut,
    AtIndexMut,
    ClearArray,
    ClearString,
    Retain,
    Repeated,
    Emptied,
    Rejected(&'static str),
}

fn text(alloc: Global) -> Result<String> {
    Ok(String::from_str(alloc, LONG_TEXT)?)
}

fn item(alloc: Global) -> Result<JsonValue> {
    Ok(JsonValue::String(text(alloc)?))
}

fn object_insert(value: &mut JsonValue, alloc: Global, item: JsonValue) -> Result<()> {
    match value {
        JsonValue::Object(object) => object.insert(alloc, LONG_KEY, item),
        _ => Ok(()),
    }
}

fn from_pairs(alloc: Global) -> Result<JsonValue> {
    let pairs = [
        (text(alloc)?, text(alloc)?),
        (text(alloc)?, text(alloc)?),
        (String::from_str(alloc, "b")?, text(alloc)?),
    ];
    Ok(JsonValue::Object(Object::from_pairs(alloc, pairs.into_iter())?))
}

/// A long key and a long text are put, and removed again.
fn removed(value: &mut JsonValue, alloc: Global) -> Result<()> {
    value.insert(alloc, LONG_KEY, text(alloc)?)?;
    drop(value.remove(LONG_KEY));
    Ok(())
}

fn override_last(value: &mut JsonValue, alloc: Global) -> Result<()> {
    let item = item(alloc)?;
    if let JsonValue::Object(object) = value {
        object.override_last(item);
    }
    Ok(())
}

/// `clear` itself allocates nothing.
fn cleared(value: &mut JsonValue, alloc: Global) -> Result<()> {
    value.insert(alloc, LONG_KEY, text(alloc)?)?;
    if let JsonValue::Object(object) = value {
        object.clear();
    }
    Ok(())
}

/// Bytes that aren't UTF-8 are dropped.
fn consumed(alloc: Global) -> Result<()> {
    let mut generator = DumpGenerator::new(alloc);
    match generator.write(b"\xff") {
        Err(_) => Err(Error::OutOfMemory),
        Ok(()) => match generator.consume() {
            Err(Error::FailedUtf8Parsing) => Ok(()),
            _ => Err(Error::UnexpectedEndOfJson),
        },
    }
}

/// The long key is put, and no entry is kept.
fn retained(value: &mut JsonValue, alloc: Global) -> Result<()> {
    value.insert(alloc, LONG_KEY, text(alloc)?)?;
    if let JsonValue::Object(object) = value {
        object.retain(|_key, _value| false);
    }
    Ok(())
}

/// Many entries of one key; then those of a long key and its string, five times.
fn repeated(alloc: Global) -> Result<JsonValue> {
    let entry = ",\"0123456789abcdef0123456789abcdef01234567\":\"abcdefghijklmnopqrstuvwxyz01234\"";
    let entries = [("{\"a\":0", 1), (",\"a\":0", 256), (entry, 5), ("}", 1)];
    parse(alloc, joined(alloc, &entries)?.as_str())
}

/// Containers in an object that keep their room when they are emptied.
fn emptied(alloc: Global) -> Result<JsonValue> {
    let mut object = parse(alloc, "{\"a\":[1],\"b\":{\"c\":1},\"d\":[{\"e\":[[1]]}]}")?;
    for (_, value) in object.entries_mut() {
        value.clear();
    }
    Ok(object)
}

/// A text that is rejected is reported where no allocation failed.
fn rejected(alloc: Global, text: &str) -> Result<()> {
    match parse(alloc, text) {
        Err(Error::OutOfMemory) => Err(Error::OutOfMemory),
        Err(_) => Ok(()),
        Ok(_) => Err(Error::UnexpectedEndOfJson),
    }
}

fn cleared_array(value: &mut JsonValue, alloc: Global) -> Result<()> {
    value.push(alloc, text(alloc)?)?;
    value.clear();
    Ok(())
}

fn cleared_string(value: &mut JsonValue, alloc: Global) -> Result<()> {
    *value = item(alloc)?;
    value.clear();
    Ok(())
}

impl Owned {
    /// Puts this text.
    fn put(self, value: &mut JsonValue, alloc: Global, text: String) -> Result<()> {
        match self {
            Owned::Push => value.push(alloc, text),
            Owned::PushOnNull => passed_over(value.push(alloc, text)),
            Owned::Insert(key) => value.insert(alloc, key, text),
            _ => passed_over(value.insert(alloc, "a", text)),
        }
    }

    /// Puts this item.
    fn put_item(self, value: &mut JsonValue, alloc: Global, item: JsonValue) -> Result<()> {
        match self {
            Owned::WriteAt => write_at(value, alloc, LONG_KEY, item),
            Owned::WriteAtIndex => write_at_index(value, alloc, 1, item),
            Owned::WritePresent => {
                write_present(value, "a", item);
                Ok(())
            }
            _ => object_insert(value, alloc, item),
        }
    }
}

impl Call for Owned {
    fn call(self, value: &mut JsonValue, alloc: Global) -> Result<()> {
        match self {
            Owned::Remove => removed(value, alloc),
            Owned::OverrideLast => override_last(value, alloc),
            Owned::Clear => cleared(value, alloc),
            Owned::Consume => consumed(alloc),
            Owned::AtMut => borrow_at(value, alloc, "a"),
            Owned::AtIndexMut => borrow_at_index(value, alloc, 1),
            Owned::ClearArray => cleared_array(value, alloc),
            Owned::ClearString => cleared_string(value, alloc),
            Owned::Retain => retained(value, alloc),
            Owned::FromPairs => set(value, from_pairs(alloc)),
            Owned::Repeated => set(value, repeated(alloc)),
            Owned::Emptied => set(value, emptied(alloc)),
            Owned::Rejected(text) => rejected(alloc, text),
            Owned::Push | Owned::PushOnNull | Owned::Insert(_) | Owned::InsertOnArray => {
                self.put(value, alloc, text(alloc)?)
            }
            _ => self.put_item(value, alloc, item(alloc)?),
        }
    }
}

const KEYED: &str =
    "{\"0123456789abcdef0123456789abcdef01234567\":\"abcdefghijklmnopqrstuvwxyz01234\"}";

const OTHER_TEXT: &str = "\"a text of more than thirty bytes\"";

/// An object of a long string, and what it is after its string was replaced.
const PRESENT: &str = "{\"a\":\"a text of more than thirty bytes\"}";

const REPLACED: &str = "{\"a\":\"abcdefghijklmnopqrstuvwxyz01234\"}";

const REPEATED: &str =
    "{\"a\":0,\"0123456789abcdef0123456789abcdef01234567\":\"abcdefghijklmnopqrstuvwxyz01234\"}";

const LISTED: &str = "[true,\"abcdefghijklmnopqrstuvwxyz01234\"]";

const PAIRED: &str = "{\"abcdefghijklmnopqrstuvwxyz01234\":\"abcdefghijklmnopqrstuvwxyz01234\",\
                  \"b\":\"abcdefghijklmnopqrstuvwxyz01234\"}";

const IN_ARRAY: &str = "[\"abcdefghijklmnopqrstuvwxyz01234\",]";

const IN_OBJECT: &str = "{\"0123456789abcdef0123456789abcdef01234567\":[1],}";

const AFTER_KEY: &str =
    "{\"a\":\"abcdefghijklmnopqrstuvwxyz01234\",\"0123456789abcdef0123456789abcdef01234567\" 1";

const NESTED: &str = "[{\"a\":[{\"b\":\"abcdefghijklmnopqrstuvwxyz01234\",\"c\":[[1],[2";

const AFTER_END: &str = "{\"a\":[\"abcdefghijklmnopqrstuvwxyz01234\"]}]";

const OWNED: &[Row<Owned>] = rows! {
    (Owned::Push, "push of an owned string", "[true]", LISTED, 2)
    (Owned::PushOnNull, "push of an owned string on null", "null", "null", 2)
    (Owned::Insert(LONG_KEY), "insert of an owned string", "{}", KEYED, 5)
    (Owned::InsertOnArray, "insert of an owned string on an array", "[1]", "[1]", 2)
    (Owned::ObjectInsert, "Object::insert of an owned string", "{}", KEYED, 5)
    (Owned::FromPairs, "Object::from_pairs of owned strings", "null", PAIRED, 11)
    (Owned::WriteAt, "write_at of an owned string", "5", KEYED, 5)
    (Owned::WriteAtIndex, "write_at_index of an owned string", "[true]", LISTED, 2)
    (Owned::WritePresent, "write_present where nothing is present", "[1]", "[1]", 1)
    (Owned::Remove, "remove of a long key and its string", "{}", "{}", 5)
    (Owned::OverrideLast, "override_last of a long string", PRESENT, REPLACED, 1)
    (Owned::Clear, "Object::clear of a long key and its string", "{}", "{}", 5)
    (Owned::Consume, "consume of bytes that aren't UTF-8", "null", "null", 1)
    (Owned::Insert("a"), "insert over a long string", PRESENT, REPLACED, 1)
    (Owned::WritePresent, "write_present over a long string", PRESENT, REPLACED, 1)
    (Owned::WriteAtIndex, "write_at_index over a long string",
        "[true,\"a text of more than thirty bytes\"]", LISTED, 1)
    (Owned::AtIndexMut, "at_index_mut of a long string", OTHER_TEXT, "[null,null]", 1)
    (Owned::AtMut, "at_mut of a long string", OTHER_TEXT, "{\"a\":null}", 3)
    (Owned::ClearArray, "clear of an array and its string", "[]", "[]", 2)
    (Owned::ClearString, "clear of an allocated string", "null", "\"\"", 1)
    (Owned::Retain, "retain of a long key and its string", "{}", "{}", 5)
    (Owned::Repeated, "parse of long keys repeated among many", "null", REPEATED, 36)
    (Owned::Emptied, "clear of containers in an object", "null", "{\"a\":[],\"b\":{},\"d\":[]}", 14)
    (Owned::Rejected(IN_ARRAY), "parse rejects in an array", "null", "null", 2)
    (Owned::Rejected(IN_OBJECT), "parse rejects in an object", "null", "null", 5)
    (Owned::Rejected(AFTER_KEY), "parse rejects after a key", "null", "null", 4)
    (Owned::Rejected(NESTED), "parse rejects in NESTED containers", "null", "null", 6)
    (Owned::Rejected(AFTER_END), "parse rejects after the end", "null", "null", 6)
};

#[test]
fn owned_under_refusals(rt: HostRuntime) -> Tested {
    fail_each(&rt, rt.alloc(), OWNED)
}
