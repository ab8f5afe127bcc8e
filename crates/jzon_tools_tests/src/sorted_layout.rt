//! Tests of `sorted_layout`.

use crate::common::{Tested, Tester, expect, expect_dump, expect_eq};
use jzon::codegen::{Generator, TextGenerator, write_json};
use jzon_test_support::{RUNS_MAX, Refusals, keys_by_hash, object_text};
use jzon_tools::sorted_layout::{Sorted, sorted_text};

/// A text, and the text of its value with sorted keys.
#[rattlefmt::skip]
const ROWS: &[(&str, &str)] = &[
    ("{\"c\":null,\"b\":null,\"a\":null}", SORTED),
    (
        "{\"b\":{\"z\":1,\"é\":[],\"a\":[1.50]},\"\":2,\"ab\":3}",
        "{\"\":2,\"ab\":3,\"b\":{\"a\":[1.50],\"z\":1,\"é\":[]}}",
    ),
];

const SORTED: &str = "{\"a\":null,\"b\":null,\"c\":null}";

/// The text is sorted, and the dump is the source.
fn expect_sorted(rt: &impl Tester, source: &str, sorted: &str) -> Tested {
    let value = jzon::parse(rt.alloc(), source)?;
    let text = sorted_text(rt.alloc(), &value)?;
    expect_eq(rt, source, text.as_str(), sorted);
    expect_dump(rt, &value, source);
    Ok(())
}

#[test]
fn sorts(rt: HostRuntime) -> Tested {
    for (source, sorted) in ROWS {
        expect_sorted(&rt, source, sorted)?;
    }
    Ok(())
}

/// An object with more entries than 16 bits can count.
#[test]
fn sorts_many(rt: HostRuntime) -> Tested {
    let alloc = rt.alloc();
    let mut keys = keys_by_hash(alloc, 70000)?;
    let text = object_text(alloc, keys.as_slice())?;
    let value = jzon::parse(alloc, text.as_str())?;
    keys.sort()?;
    let sorted = object_text(alloc, keys.as_slice())?;
    expect(&rt, "text", sorted_text(alloc, &value)? == sorted);
    let mut bytes: Vec<u8> = Vec::new(alloc);
    value.write_layout(&mut bytes, Sorted { alloc })?;
    expect(&rt, "bytes", bytes.as_slice() == sorted.as_bytes());
    Ok(())
}

/// Each allocation fails in turn, those of `order` first.
#[test]
fn sorted_under_refusals(rt: HostRuntime) -> Tested {
    let alloc = rt.alloc();
    let value = jzon::parse(alloc, "{\"c\":null,\"b\":null,\"a\":null}")?;
    let mut refusals = Refusals::new(alloc);
    for _ in 0..RUNS_MAX {
        let mut generator = TextGenerator::in_memory(alloc, Sorted { alloc });
        refusals.begin();
        let result = write_json(&mut generator, &value);
        if !refusals.has_failed() {
            expect(&rt, "no error", result.is_ok());
            let written = generator.get_writer().as_slice();
            expect_eq(&rt, SORTED, written, SORTED.as_bytes());
            break;
        }
        expect(&rt, "an error", result.is_err());
        expect_eq(&rt, "one fault", generator.faults(), 1);
        let is_prefix = SORTED.as_bytes().starts_with(generator.get_writer());
        expect(&rt, "a prefix", is_prefix);
    }
    refusals.report(&rt, "Sorted", 5)?;
    Ok(())
}
