//! Tests of `pointer`.

use crate::common::{
    Tested, Tester, expect, expect_dump, expect_eq, expect_message, expect_raised,
};
use Change::{Insert, Remove, Replace, Update};
use jzon::JsonValue;
use jzon_pointer::PointerError::{Missing, NoSlash, WholeValue};
use jzon_pointer::Reason::{BadEscape, NoChildren, NoMember, NotAnIndex, OutOfRange};
use jzon_pointer::error::{Error, What};
use jzon_pointer::shown::ShownPointer;
use jzon_pointer::{PointerError, Primitive, Reason};
use jzon_test_support::{RUNS_MAX, Refusals, joined, rows};
use jzon_tools::edit;
use std::io::ErrorKind;
use std::test::Fail;

/// The text of RFC 6901, section 5.
const TEXT: &str =
    r#"{"foo":["bar","baz"],"":0,"a/b":1,"c%d":2,"e^f":3,"g|h":4,"i\\j":5,"k\"l":6," ":7,"m~n":8}"#;

/// The examples of RFC 6901, section 5: a pointer, and the text of what it names. Then more.
const FOUND: &[(&str, &str)] = rows! {
    ("", TEXT)
    ("/foo", r#"["bar","baz"]"#)
    ("/foo/0", r#""bar""#)
    ("/", "0")
    ("/a~1b", "1")
    ("/c%d", "2")
    ("/e^f", "3")
    ("/g|h", "4")
    ("/i\\j", "5")
    ("/k\"l", "6")
    ("/ ", "7")
    ("/m~0n", "8")
    ("/foo/1", r#""baz""#)
};

/// Pointers that name nothing in the text, the bytes of the first token that names nothing, and why.
const MISSING: &[(&str, usize, usize, Reason)] = rows! {
    ("/~2", 1, 3, BadEscape)
    ("/~", 1, 2, BadEscape)
    ("/foo/~", 5, 6, BadEscape)
    ("/foo/0/~2/x", 7, 9, BadEscape)
    ("/bar", 1, 4, NoMember)
    ("/m~n", 1, 4, BadEscape)
    ("/m~1n", 1, 5, NoMember)
    ("/m~01n", 1, 6, NoMember)
    ("/a/b", 1, 2, NoMember)
    ("/é/x", 1, 3, NoMember)
    ("//", 2, 2, NoChildren(Primitive::Number))
    ("/foo/", 5, 5, NotAnIndex)
    ("/foo/01", 5, 7, NotAnIndex)
    ("/foo/+1", 5, 7, NotAnIndex)
    ("/foo/-", 5, 6, NotAnIndex)
    ("/foo/1e0", 5, 8, NotAnIndex)
    ("/foo/2", 5, 6, OutOfRange { length: 2 })
    ("/foo/18446744073709551616", 5, 25, OutOfRange { length: 2 })
    ("/foo/0/x", 7, 8, NoChildren(Primitive::String))
    ("/foo/bar/x", 5, 8, NotAnIndex)
};

/// Texts that aren't empty, and begin with no slash.
const NO_POINTERS: &[&str] = &["a", "foo/0", "#/foo"];

#[test]
fn finds(rt: HostRuntime) -> Tested {
    let value = jzon::parse(rt.alloc(), TEXT)?;
    for (path, text) in FOUND {
        let found = jzon_pointer::get(&value, path).ok_or("no value")?;
        expect_dump(&rt, found, text);
        expect(
            &rt,
            path,
            jzon_pointer::find(rt.alloc(), &value, path) == Ok(found),
        );
        expect(&rt, path, jzon_pointer::seek(&value, path) == Ok(found));
    }
    Ok(())
}

/// The pointer's error is this one, and no other.
fn expect_lost(rt: &impl Tester, path: &str, found: Option<Error>, error: PointerError) {
    let want = Error::at_pointer(rt.alloc(), path, What::Pointer(error));
    expect(rt, path, found == Some(want));
}

/// No call finds a value, and none changes one.
fn expect_missing(rt: &impl Tester, value: &mut JsonValue, path: &str, error: PointerError) {
    let alloc = rt.alloc();
    let found = jzon_pointer::seek(value, path).map(|_| ());
    expect_eq(rt, path, found, Err(error));
    expect_lost(
        rt,
        path,
        jzon_pointer::find(alloc, value, path).err(),
        error,
    );
    expect(rt, path, jzon_pointer::get(value, path).is_none());
    for change in [Update, Replace, Remove] {
        expect_lost(rt, path, changed(rt, change, value, path).err(), error);
    }
    expect_dump(rt, value, TEXT);
}

#[test]
fn says_what_is_missing(rt: HostRuntime) -> Tested {
    let mut value = jzon::parse(rt.alloc(), TEXT)?;
    for (path, start, end, reason) in MISSING {
        expect_missing(&rt, &mut value, path, missing(*start, *end, *reason));
    }
    for path in NO_POINTERS {
        expect_missing(&rt, &mut value, path, NoSlash);
    }
    Ok(())
}

fn missing(start: usize, end: usize, reason: Reason) -> PointerError {
    PointerError::Missing { start, end, reason }
}

#[derive(Clone, Copy)]
enum Change {
    Replace,
    Insert,
    Remove,
    Update,
}

/// A change with the value 9, and what it returns.
fn changed(
    rt: &impl Tester,
    change: Change,
    value: &mut JsonValue,
    path: &str,
) -> Result<JsonValue, Error> {
    let alloc = rt.alloc();
    let new = JsonValue::from(9u8);
    match change {
        Replace => edit::replace(alloc, value, path, new),
        Insert => edit::insert(alloc, value, path, new).map(|_| JsonValue::Null),
        Remove => edit::remove(alloc, value, path),
        Update => edit::update(alloc, value, path, |place| {
            *place = new;
            JsonValue::Null
        }),
    }
}

/// A change, the value before it, a pointer, what is returned, and the value after it.
const CHANGES: &[(Change, &str, &str, &str, &str)] = rows! {
    (Replace, r#"{"a":[1,{"b":2}]}"#, "/a/1/b", "2", r#"{"a":[1,{"b":9}]}"#)
    (Replace, r#"{"a~/b":[1],"c":2}"#, "/a~0~1b", "[1]", r#"{"a~/b":9,"c":2}"#)
    (Replace, r#"{"c":2,"a/b":[1]}"#, "/a~1b/0", "1", r#"{"c":2,"a/b":[9]}"#)
    (Replace, r#"{"/":1,"~1":2}"#, "/~01", "2", r#"{"/":1,"~1":9}"#)
    (Replace, "[1]", "", "[1]", "9")
    (Replace, "[null,null]", "/1", "null", "[null,9]")
    (Replace, r#"{"a":1,"b":1}"#, "/b", "1", r#"{"a":1,"b":9}"#)
    (Replace, r#"{"a~":1,"b~":1}"#, "/b~0", "1", r#"{"a~":1,"b~":9}"#)
    (Update, r#"{"a":[1,{"b/":2}]}"#, "/a/1/b~1", "null", r#"{"a":[1,{"b/":9}]}"#)
    (Update, "[null,null]", "/1", "null", "[null,9]")
    (Update, r#"{"a":null,"b":null}"#, "/b", "null", r#"{"a":null,"b":9}"#)
    (Update, r#"{"a":[1],"b":[1]}"#, "/b/0", "null", r#"{"a":[1],"b":[9]}"#)
    (Update, "[1]", "", "null", "9")
    (Insert, r#"{"a":{"b":1}}"#, "/a/c", "null", r#"{"a":{"b":1,"c":9}}"#)
    (Insert, r#"{"a":{"b":1,"c":2}}"#, "/a/b", "null", r#"{"a":{"b":9,"c":2}}"#)
    (Insert, r#"{"a":1}"#, "/m~0~1n", "null", r#"{"a":1,"m~/n":9}"#)
    (Insert, r#"{"m~":1}"#, "/m~0", "null", r#"{"m~":9}"#)
    (Insert, "[[1,2]]", "/0/0", "null", "[[9,1,2]]")
    (Insert, "[1,2]", "/1", "null", "[1,9,2]")
    (Insert, "[1,2]", "/2", "null", "[1,2,9]")
    (Insert, "[1,2]", "/-", "null", "[1,2,9]")
    (Insert, r#"{"-":1}"#, "/-", "null", r#"{"-":9}"#)
    (Remove, r#"{"a":{"b":1,"c":2}}"#, "/a/b", "1", r#"{"a":{"c":2}}"#)
    (Remove, r#"{"x":0,"m~n":[1],"m/n":2,"y":3}"#, "/m~0n", "[1]", r#"{"x":0,"m/n":2,"y":3}"#)
    (Remove, "[[1,2,3]]", "/0/1", "2", "[[1,3]]")
};

#[test]
fn changes(rt: HostRuntime) -> Tested {
    for (change, before, path, returned, after) in CHANGES {
        let mut value = jzon::parse(rt.alloc(), before)?;
        match changed(&rt, *change, &mut value, path) {
            Ok(result) => expect_dump(&rt, &result, returned),
            Err(_error) => expect(&rt, path, false),
        }
        expect_dump(&rt, &value, after);
    }
    Ok(())
}

/// Changes that fail.
const FAILED: &[(Change, &str, &str, PointerError)] = rows! {
    (Insert, "[1,2]", "", WholeValue)
    (Insert, "[1,2]", "0", NoSlash)
    (Insert, "[1,2]", "a/0", NoSlash)
    (Insert, "[1,2]", "/3", Missing { start: 1, end: 2, reason: OutOfRange { length: 2 } })
    (Insert, "[1,2]", "/01", Missing { start: 1, end: 3, reason: NotAnIndex })
    (Insert, "[1,2]", "/0/-", Missing { start: 3, end: 4, reason: NoChildren(Primitive::Number) })
    (Insert, r#"{"a":{}}"#, "/b/c", Missing { start: 1, end: 2, reason: NoMember })
    (Insert, r#"{"a":{}}"#, "/a/~", Missing { start: 3, end: 4, reason: BadEscape })
    (Remove, "[1,2]", "", WholeValue)
    (Remove, "[1,2]", "/-", Missing { start: 1, end: 2, reason: NotAnIndex })
    (Remove, "[1,2]", "/2", Missing { start: 1, end: 2, reason: OutOfRange { length: 2 } })
    (Remove, r#"{"a~":1}"#, "/b~0", Missing { start: 1, end: 4, reason: NoMember })
    (Replace, r#"{"a~":1}"#, "/a~2", Missing { start: 1, end: 4, reason: BadEscape })
    (Update, "[null]", "/1", Missing { start: 1, end: 2, reason: OutOfRange { length: 1 } })
};

#[test]
fn changes_nothing_after_an_error(rt: HostRuntime) -> Tested {
    for (change, before, path, error) in FAILED {
        let mut value = jzon::parse(rt.alloc(), before)?;
        let found = changed(&rt, *change, &mut value, path).err();
        expect_lost(&rt, path, found, *error);
        expect_dump(&rt, &value, before);
    }
    Ok(())
}

/// Doubles a number in place.
#[test]
fn updates(rt: HostRuntime) -> Tested {
    let mut value = jzon::parse(rt.alloc(), r#"{"items":[{"count":3},{"count":20}]}"#)?;
    let old = edit::update(rt.alloc(), &mut value, "/items/1/count", |count| {
        let old = count.as_u32().unwrap_or(0);
        *count = JsonValue::from(u64::from(old) * 2);
        old
    })?;
    expect_eq(&rt, "old", old, 20);
    expect_dump(&rt, &value, r#"{"items":[{"count":3},{"count":40}]}"#);
    Ok(())
}

/// A value, a pointer that names nothing there, and the words of the error with the pointer.
const POINTED: &[(&str, &str, &str)] = rows! {
    (r#"{"server":5}"#, "/server/port", "/server/port: /server is a number and has no members")
    (r#"{"servers":[1,2,3]}"#, "/servers/9", "/servers/9: /servers has 3 elements")
    (r#"{"server":{"port":80}}"#, "/server/prot", "/server/prot: /server has no key \"prot\"")
    (r#"{"server":{"port":80}}"#, "/servr/port", "/servr/port: the whole value has no key \"servr\"")
    ("{}", "/a~2b", "/a~2b: ~ without 0 or 1 after it")
    ("[1]", "/1", "/1: the whole value has 1 element")
    (r#"{"a":[]}"#, "/a/0/b", "/a/0/b: /a has 0 elements")
    (r#"{"a":[1]}"#, "/a/-", "/a/-: /a is an array, and \"-\" is no index")
    ("null", "/a", "/a: the whole value is null and has no members")
    (r#"{"a":true}"#, "/a/b", "/a/b: /a is a boolean and has no members")
    (r#"{"a":"x"}"#, "/a/0", "/a/0: /a is a string and has no members")
    (r#"{"a":{"é":1}}"#, "/a/é/x", "/a/é/x: /a/é is a number and has no members")
    (r#"{"":{}}"#, "//", "//: / has no key \"\"")
    ("1", "a", "a: a pointer begins with /")
    ("1", "\n", "\\n: a pointer begins with /")
    ("{}", "/a\n\u{1b}[2J\u{202e}", "/a\\n\\u001b[2J\\u202e: the whole value has no key \"a\\n\\u001b[2J\\u202e\"")
    ("1", "\u{1b}abcdefghijklmnopqrstuvwxyz0123456789", "\\u001babcdefghijklmnopqrstuvwxyz0123456789: a pointer begins with /")
};

#[test]
fn shows_errors_in_pointers(rt: HostRuntime) -> Tested {
    let alloc = rt.alloc();
    for (text, path, words) in POINTED {
        let value = jzon::parse(alloc, text)?;
        match jzon_pointer::find(alloc, &value, path) {
            Ok(_found) => expect(&rt, path, false),
            Err(error) => expect_words(&rt, error, words)?,
        }
    }
    for (path, lost, words) in LOST {
        let error = Error::at_pointer(alloc, path, What::Pointer(*lost));
        expect_words(&rt, error, words)?;
    }
    expect_words(&rt, Error::MEMORY, "Out of memory")
}

/// A pointer, its error, and the words. Neither position is one of a character of the last two.
const LOST: &[(&str, PointerError, &str)] = rows! {
    ("", WholeValue, "the pointer names the whole value")
    ("/é", Missing { start: 3, end: 9, reason: NoMember }, "/é: /é has no key \"\"")
    ("é", Missing { start: 3, end: 9, reason: NoMember }, "é: é has no key \"\"")
};

/// Its words, also as those of an `io::Error`, and the kind.
fn expect_words(rt: &impl Tester, error: Error, words: &str) -> Tested {
    expect_message(rt, words, &error, words)?;
    let kind = match error.is_memory() {
        true => ErrorKind::OutOfMemory,
        false => ErrorKind::InvalidData,
    };
    expect_raised(rt, words, error, kind, words)
}

/// In the value of this text the pointer names nothing, with this message.
fn expect_nothing(rt: &impl Tester, text: &str, path: &str, words: &str) -> Tested {
    let value = jzon::parse(rt.alloc(), text)?;
    match jzon_pointer::find(rt.alloc(), &value, path) {
        Ok(_found) => Err("a value".into()),
        Err(error) => expect_message(rt, path, &error, words),
    }
}

/// A message has of a pointer at most 200 bytes: 50 characters of two bytes at both ends.
#[test]
fn cuts_long_pointers(rt: HostRuntime) -> Tested {
    let alloc = rt.alloc();
    let parts = &[("/", 1), ("é", 150), ("b", 150), ("/", 1), ("c", 41)];
    let path = joined(alloc, parts)?;
    let parts = &[
        ("/", 1),
        ("é", 49),
        ("..", 1),
        ("b", 8),
        ("/", 1),
        ("c", 41),
    ];
    let cut = joined(alloc, parts)?;
    let path = path.as_str();
    let shown = format!(in alloc; "{}", ShownPointer(path))?;
    expect_eq(&rt, "shown", shown.as_str(), cut.as_str());
    let parts = &[
        (cut.as_str(), 1),
        (": the whole value is null and has no members", 1),
    ];
    let words = joined(alloc, parts)?;
    expect_nothing(&rt, "null", path, words.as_str())
}

/// What a tag of U+E0041 is shown as.
const TAG: &str = "\\udb40\\udc41";

/// A message has 40 characters of a token, and of the widest 38.
#[test]
fn cuts_long_tokens(rt: HostRuntime) -> Tested {
    let path = joined(rt.alloc(), &[("/", 1), ("\u{e0041}", 38)])?;
    let parts = &[
        ("/", 1),
        (TAG, 7),
        ("..", 1),
        (TAG, 8),
        (": the whole value has no key \"", 1),
        (TAG, 38),
        ("\"", 1),
    ];
    let words = joined(rt.alloc(), parts)?;
    expect_nothing(&rt, "{}", path.as_str(), words.as_str())?;
    let path = joined(rt.alloc(), &[("/", 1), ("c", 41)])?;
    let parts = &[
        (path.as_str(), 1),
        (": the whole value has no key \"", 1),
        ("c", 40),
        ("..\"", 1),
    ];
    let words = joined(rt.alloc(), parts)?;
    expect_nothing(&rt, "{}", path.as_str(), words.as_str())
}

/// Among many keys, those that have a `~` or a `/`, also long ones, are found; none by a bad escape.
#[test]
fn finds_escaped_keys(rt: HostRuntime) -> Tested {
    let alloc = rt.alloc();
    let mut value = jzon::parse(alloc, r#"{"a~b":1,"/":2,"~1":3}"#)?;
    let long = joined(alloc, &[("~", 511), ("x", 1)])?;
    let longer = joined(alloc, &[("~", 512), ("x", 1)])?;
    value.insert(alloc, long.as_str(), 4u8)?;
    value.insert(alloc, longer.as_str(), 5u8)?;
    for at in 0u8..40 {
        let key = format!(in alloc; "~{at}")?;
        value.insert(alloc, key.as_str(), at)?;
    }
    let long = joined(alloc, &[("/", 1), ("~0", 511), ("x", 1)])?;
    let longer = joined(alloc, &[("/", 1), ("~0", 512), ("x", 1)])?;
    let bad = joined(alloc, &[("/", 1), ("~0", 600), ("~", 1)])?;
    let found: [(&str, Option<u8>); 9] = [
        ("/a~0b", Some(1)),
        ("/~1", Some(2)),
        ("/~01", Some(1)),
        ("/~039", Some(39)),
        ("/~040", None),
        ("/~2", None),
        (long.as_str(), Some(4)),
        (longer.as_str(), Some(5)),
        (bad.as_str(), None),
    ];
    for (path, number) in found {
        let at = jzon_pointer::get(&value, path).and_then(|found| found.as_u8());
        expect_eq(&rt, path, at, number);
    }
    Ok(())
}

/// A value, where 9 is inserted, and the number of allocations. A full vector grows; a key of more
/// than 32 bytes is allocated, and so is one that had an escape.
const ALLOCATING: &[(&str, &str, usize)] = rows! {
    ("[1]", "/-", 1)
    ("{}", "/a", 3)
    (r#"{"a":[]}"#, "/a/0", 1)
    ("{}", "/a~0", 4)
    (r#"{"a~":1}"#, "/a~0", 1)
};

/// One run. Whether an allocation failed: then the value is as it was.
fn run(
    rt: &impl Tester,
    before: &JsonValue,
    path: &str,
    refusals: &mut Refusals,
) -> std::result::Result<bool, Fail> {
    let mut value = before.clone(rt.alloc())?;
    refusals.begin();
    let outcome = edit::insert(rt.alloc(), &mut value, path, JsonValue::from(9u8));
    let has_failed = refusals.has_failed();
    if has_failed {
        expect(rt, path, outcome == Err(Error::MEMORY));
        expect(rt, path, value == *before);
    } else {
        expect(rt, path, outcome == Ok(()));
        expect(rt, path, value != *before);
    }
    Ok(has_failed)
}

#[test]
fn inserts_under_refusals(rt: HostRuntime) -> Tested {
    for (before, path, count) in ALLOCATING {
        let before = jzon::parse(rt.alloc(), before)?;
        let mut refusals = Refusals::new(rt.alloc());
        for _ in 0..RUNS_MAX {
            refusals.open();
            let has_failed = run(&rt, &before, path, &mut refusals)?;
            refusals.close();
            if !has_failed {
                break;
            }
        }
        refusals.report(&rt, path, *count)?;
    }
    Ok(())
}

/// A thousand elements are put last, each by a call.
#[test]
fn inserts_counted(rt: HostRuntime) -> Tested {
    let mut value = JsonValue::new_array(rt.alloc());
    let mut refusals = Refusals::new(rt.alloc());
    refusals.open();
    for number in 0..1000u32 {
        edit::insert(rt.alloc(), &mut value, "/-", JsonValue::from(number))?;
    }
    refusals.close();
    refusals.expect_within(&rt, "inserts at the end", 48 * 4 * 1000)?;
    expect_eq(&rt, "how many", value.len(), 1000);
    Ok(())
}

/// A pointer, a key, and the pointer one key deeper.
const PUSHED: &[(&str, &str, &str)] = rows! {
    ("", "a", "/a")
    ("", "", "/")
    ("/a", "", "/a/")
    ("/a/0", "b/c", "/a/0/b~1c")
    ("/a", "m~n", "/a/m~0n")
    ("", "~1", "/~01")
    ("", "/0", "/~10")
    ("/x", "~/~~//", "/x/~0~1~0~0~1~1")
    ("/é", "é", "/é/é")
};

#[test]
fn pushes_tokens(rt: HostRuntime) -> Tested {
    let alloc = rt.alloc();
    for (before, key, after) in PUSHED {
        let mut path = String::from_str(alloc, before)?;
        jzon_pointer::push_token(&mut path, key)?;
        expect_eq(&rt, after, path.as_str(), *after);
        let mut path = String::new(alloc);
        jzon_pointer::push_token(&mut path, key)?;
        let mut object = JsonValue::new_object(alloc);
        object.insert(alloc, key, 5u8)?;
        expect(
            &rt,
            key,
            jzon_pointer::get(&object, path.as_str()) == object.get(key),
        );
    }
    Ok(())
}

/// One run. Whether an allocation failed: then the pointer is as it was.
fn push_run(
    rt: &impl Tester,
    key: &str,
    refusals: &mut Refusals,
) -> std::result::Result<bool, Fail> {
    let mut path = String::from_str(rt.alloc(), "/a")?;
    refusals.begin();
    let outcome = jzon_pointer::push_token(&mut path, key);
    let has_failed = refusals.has_failed();
    expect(rt, key, outcome.is_err() == has_failed);
    expect(rt, key, (path.as_str() == "/a") == has_failed);
    Ok(has_failed)
}

/// A key, and how many allocations its token takes.
const PUSHES: &[(&str, usize)] = rows! {
    ("a key of more than eight bytes", 3)
};

#[test]
fn pushes_under_refusals(rt: HostRuntime) -> Tested {
    for (key, count) in PUSHES {
        let mut refusals = Refusals::new(rt.alloc());
        for _ in 0..RUNS_MAX {
            refusals.open();
            let has_failed = push_run(&rt, key, &mut refusals)?;
            refusals.close();
            if !has_failed {
                break;
            }
        }
        refusals.report(&rt, key, *count)?;
    }
    Ok(())
}
