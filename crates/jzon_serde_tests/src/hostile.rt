//! Long, deep and wide texts, and failing allocations.

use crate::again::{again, written};
use crate::common::{Tested, Tester, expect, expect_eq};
use crate::types::{Camel, Deep, Either, Extra, Folder, Kind, Level, Shape};
use jzon_pointer::error::Error;
use jzon_serde::{Json, from_str, to_string, to_string_pretty, to_value};
use jzon_test_support::{RUNS_MAX, Refusals, joined, keys_of_one_hash, object_text, rows};
use serde::{DeserializeOwned, Serialize};
use std::alloc::Global;
use std::collections::BTreeMap;
use std::result::Result;
use std::test::Fail;

/// A type, the parts of a text and how often each comes, and the end of what is written or said.
type Long = (&'static str, &'static [(&'static str, usize)], &'static str);

const LONG: &[Long] = rows! {
    ("Vec", &[("[", 1), ("[1],", 9999), ("[\"2\"]]", 1)], "/9999/0: expected an integer of at least 0, found \"2\" at (1:39999)")
    ("Json", &[("[", 500), ("]", 500)], "]]")
    ("Json", &[("[", 512), ("1", 1), ("]", 512)], "]]")
    ("Json", &[("[", 513), ("1", 1), ("]", 513)], "Exceeded depth limit at (1:514)")
    ("Json", &[("{\"a\":", 400), ("5", 1), ("}", 400)], "}}")
    ("Folder", &[("{\"size\":1,\"folders\":[", 200), ("]}", 200)], "]}]}")
    ("Rgb", &[("{\"x\":", 1), ("[", 400), ("]", 400), (",\"r\":1,\"g\":2,\"b\":3}", 1)], "{\"r\":1,\"g\":2,\"b\":3}")
    ("String", &[("\"", 1), ("x", 100_000), ("\"", 1)], "xx\"")
    ("u8", &[("\"", 1), ("x", 100_000), ("\"", 1)], "found a string of 100000 characters at (1:1)")
    ("Either", &[("[", 300), ("]", 300)], "expected one of the forms of its type, found an array of 1 element at (1:1)")
    ("Exact", &[("0.", 1), ("0", 100), ("1", 1)], "1e-101")
};

#[test]
fn reads_long_texts(rt: HostRuntime) -> Tested {
    let alloc = rt.alloc();
    for (kind, parts, end) in LONG {
        let text = joined(alloc, *parts)?;
        let found = again(alloc, *kind, text.as_str())?;
        let cut = found.len().saturating_sub(end.len());
        expect_eq(&rt, *end, found.as_str().get(cut..), Some(*end));
    }
    Ok(())
}

/// Keys of one hash are read as fast as others, into a map and into a value.
#[test]
fn reads_keys_of_one_hash(rt: HostRuntime) -> Tested {
    let alloc = rt.alloc();
    let keys = keys_of_one_hash(alloc, 500)?;
    let text = object_text(alloc, keys.as_slice())?;
    let map = written::<BTreeMap<String, Json>>(alloc, text.as_str())?;
    expect(&rt, "map", map.as_str().starts_with("{\""));
    let json = written::<Json>(alloc, text.as_str())?;
    expect_eq(&rt, "value", json.len(), map.len());
    Ok(())
}

/// A type that contains itself allocates 256 blocks first, so that its row has more runs than others.
const RUNS: usize = 2 * RUNS_MAX;

/// A text, how it is used, and the number of allocations.
const ALLOCATING: &[(&str, Use, usize)] = rows! {
    ("[[1],[2,3]]", Use::Lists, 18)
    ("{\"firstName\":\"a name of more than thirty-two bytes\",\"portNumber\":80}", Use::Camel, 22)
    ("{\"firstName\":\"a\",\"portNumber\":\"80\"}", Use::Camel, 14)
    ("{\"firstName\":\"a\"}", Use::Camel, 13)
    ("{\"a\":{\"b\":[1.5,\"a string of more than thirty-two bytes\"]}}", Use::Json, 36)
    ("{\"size\":1,\"folders\":[{\"size\":2,\"folders\":[]}]}", Use::Folder, 280)
    ("\"loud\"", Use::Level, 7)
    ("{\"KIND\":\"k\",\"MAX_PRICE\":1234567890.123456789,\"DETAILS\":[]}", Use::Extra, 21)
    ("{\"list\":[[1],{\"name\":\"n\"}],\"after\":7,\"type\":\"connect\"}", Use::Deep, 41)
    ("{\"1\":true,\"x\":true}", Use::Ids, 13)
    ("{\"Line\":[1]}", Use::Shape, 14)
    ("[1,256]", Use::Either, 10)
};

/// A type that a text is read as.
#[derive(Clone, Copy)]
enum Use {
    Lists,
    Camel,
    Json,
    Folder,
    Level,
    Extra,
    Deep,
    Ids,
    Shape,
    Either,
}

/// Reads it, and writes it in each way. The message of an error comes without a failed allocation.
fn used<T: DeserializeOwned + Serialize>(alloc: Global, text: &str) -> Result<(), Error> {
    let read: T = from_str(alloc, text)?;
    let _ = to_string(alloc, &read)?;
    let _ = to_string_pretty(alloc, &read)?;
    let _ = to_value(alloc, &read)?;
    Ok(())
}

fn use_as(alloc: Global, text: &str, kind: Use) -> Result<(), Error> {
    match kind {
        Use::Lists => used::<Vec<Vec<u8>>>(alloc, text),
        Use::Camel => used::<Camel>(alloc, text),
        Use::Json => used::<Json>(alloc, text),
        Use::Folder => used::<Folder>(alloc, text),
        Use::Level => used::<Level>(alloc, text),
        Use::Extra => used::<Extra>(alloc, text),
        Use::Deep => used::<Deep>(alloc, text),
        Use::Ids => used::<BTreeMap<i32, bool>>(alloc, text),
        Use::Shape => used::<Shape>(alloc, text),
        Use::Either => used::<Either>(alloc, text),
    }
}

/// One run. Whether an allocation failed: then the error says so, or it has no place.
fn run(rt: &impl Tester, text: &str, kind: Use, refusals: &mut Refusals) -> Result<bool, Fail> {
    refusals.begin();
    let outcome = use_as(rt.alloc(), text, kind);
    let has_failed = refusals.has_failed();
    if has_failed {
        let is_told = match outcome {
            Ok(()) => false,
            Err(error) => error.is_memory() || error.place().is_none(),
        };
        expect(rt, text, is_told);
    }
    Ok(has_failed)
}

/// A list below a long key is read within this many bytes.
fn expect_counted<T: DeserializeOwned + Drop>(
    rt: &(impl Tester + Eprint),
    row: &str,
    text: &str,
) -> Tested {
    let mut refusals = Refusals::new(rt.alloc());
    refusals.open();
    let read: BTreeMap<String, Vec<T>> = from_str(rt.alloc(), text)?;
    expect_eq(rt, row, read.len(), 1);
    refusals.expect_within(rt, row, 2_000_000)?;
    Ok(())
}

/// An untagged enum drops the error of each form that a value doesn't have, and one with a variant for
/// other names that of a name. None has a copy of the keys around: here 100 KB, a thousand times.
#[test]
fn drops_short_errors_counted(rt: HostRuntime) -> Tested {
    let parts = &[
        ("{\"", 1),
        ("k", 100_000),
        ("\":[\"x\"", 1),
        (",\"x\"", 999),
        ("]}", 1),
    ];
    let text = joined(rt.alloc(), parts)?;
    expect_counted::<Either>(&rt, "untagged below a long key", text.as_str())?;
    expect_counted::<Kind>(&rt, "other names below a long key", text.as_str())
}

#[test]
fn reads_and_writes_under_refusals(rt: HostRuntime) -> Tested {
    for (text, kind, count) in ALLOCATING {
        let mut refusals = Refusals::new(rt.alloc());
        for _ in 0..RUNS {
            refusals.open();
            let has_failed = run(&rt, *text, *kind, &mut refusals)?;
            refusals.close();
            if !has_failed {
                break;
            }
        }
        refusals.report(&rt, text, *count)?;
    }
    Ok(())
}
