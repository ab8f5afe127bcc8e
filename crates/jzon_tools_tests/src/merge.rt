//! Tests of `merge`.

use crate::common::{Tested, Tester, expect, expect_dump};
use jzon::{Error, JsonValue, Result};
use jzon_test_support::{RUNS_MAX, Refusals, digits_below, object_text};
use jzon_tools::merge::{self, layer, merge_patch};
use std::alloc::Global;
use std::test::Fail;

/// The examples of RFC 7396: a target, a patch, and the target after it. The first is that of
/// section 3, the others are those of appendix A.
const PATCHES: &[(&str, &str, &str)] = &[
    (
        r#"{"title":"Goodbye!","author":{"givenName":"John","familyName":"Doe"},"tags":["example","sample"],"content":"This will be unchanged"}"#,
        r#"{"title":"Hello!","phoneNumber":"+01-123-456-7890","author":{"familyName":null},"tags":["example"]}"#,
        r#"{"title":"Hello!","author":{"givenName":"John"},"tags":["example"],"content":"This will be unchanged","phoneNumber":"+01-123-456-7890"}"#,
    ),
    (r#"{"a":"b"}"#, r#"{"a":"c"}"#, r#"{"a":"c"}"#),
    (r#"{"a":"b"}"#, r#"{"b":"c"}"#, r#"{"a":"b","b":"c"}"#),
    (r#"{"a":"b"}"#, r#"{"a":null}"#, "{}"),
    (r#"{"a":"b","b":"c"}"#, r#"{"a":null}"#, r#"{"b":"c"}"#),
    (r#"{"a":["b"]}"#, r#"{"a":"c"}"#, r#"{"a":"c"}"#),
    (r#"{"a":"c"}"#, r#"{"a":["b"]}"#, r#"{"a":["b"]}"#),
    (
        r#"{"a":{"b":"c"}}"#,
        r#"{"a":{"b":"d","c":null}}"#,
        r#"{"a":{"b":"d"}}"#,
    ),
    (r#"{"a":[{"b":"c"}]}"#, r#"{"a":[1]}"#, r#"{"a":[1]}"#),
    (r#"["a","b"]"#, r#"["c","d"]"#, r#"["c","d"]"#),
    (r#"{"a":"b"}"#, r#"["c"]"#, r#"["c"]"#),
    (r#"{"a":"foo"}"#, "null", "null"),
    (r#"{"a":"foo"}"#, r#""bar""#, r#""bar""#),
    (r#"{"e":null}"#, r#"{"a":1}"#, r#"{"e":null,"a":1}"#),
    ("[1,2]", r#"{"a":"b","c":null}"#, r#"{"a":"b"}"#),
    ("{}", r#"{"a":{"bb":{"ccc":null}}}"#, r#"{"a":{"bb":{}}}"#),
];

/// A base, a later layer, and the base after it.
const LAYERS: &[(&str, &str, &str)] = &[
    (
        r#"{"host":"a","port":80}"#,
        r#"{"port":81,"log":null}"#,
        r#"{"host":"a","port":81,"log":null}"#,
    ),
    (
        r#"{"server":{"host":"a","port":80},"tags":[1,2]}"#,
        r#"{"server":{"port":null},"tags":[3]}"#,
        r#"{"server":{"host":"a","port":null},"tags":[3]}"#,
    ),
    (
        r#"{"server":7}"#,
        r#"{"server":{"tls":{"on":null}}}"#,
        r#"{"server":{"tls":{"on":null}}}"#,
    ),
    (r#"{"a":1}"#, "null", "null"),
    ("null", r#"{"a":1}"#, r#"{"a":1}"#),
    (r#"{"a":1}"#, "{}", r#"{"a":1}"#),
];

/// Two values, and the merge patch that turns the first into the second. It is empty where there is
/// none: in a patch null removes.
const DIFFS: &[(&str, &str, &str)] = &[
    (r#"{"a":"b"}"#, r#"{"a":"c"}"#, r#"{"a":"c"}"#),
    (r#"{"a":"b"}"#, r#"{"a":"b","b":"c"}"#, r#"{"b":"c"}"#),
    (r#"{"a":"b","b":"c"}"#, r#"{"b":"c"}"#, r#"{"a":null}"#),
    (r#"{"a":["b"]}"#, r#"{"a":["b","c"]}"#, r#"{"a":["b","c"]}"#),
    (
        r#"{"a":{"b":"c","d":1}}"#,
        r#"{"a":{"b":"d","d":1.0}}"#,
        r#"{"a":{"b":"d"}}"#,
    ),
    (r#"{"a":1,"b":2}"#, r#"{"b":2,"a":1}"#, "{}"),
    (r#"{"e":null}"#, r#"{"e":null,"a":1}"#, r#"{"a":1}"#),
    (
        r#"{"a":{"b":1,"c":{"d":null}}}"#,
        r#"{"a":{"c":{"d":null}}}"#,
        r#"{"a":{"b":null}}"#,
    ),
    (r#"["a"]"#, r#"{"a":{"b":{}}}"#, r#"{"a":{"b":{}}}"#),
    (
        r#"{"a":[],"b":{}}"#,
        r#"{"a":{},"b":[]}"#,
        r#"{"a":{},"b":[]}"#,
    ),
    ("{}", r#"{"a":[{"b":null}]}"#, r#"{"a":[{"b":null}]}"#),
    (r#"{"a":1}"#, "null", "null"),
    (r#"{"a":1}"#, r#"{"a":null}"#, ""),
    ("{}", r#"{"a":{"b":null}}"#, ""),
    (r#"{"a":{"b":null}}"#, r#"{"a":{"b":{"c":null}}}"#, ""),
    (r#"[{"a":null}]"#, r#"{"a":null}"#, ""),
];

#[derive(Clone, Copy)]
enum Call {
    MergePatch,
    Layer,
}

impl Call {
    fn call(self, alloc: Global, value: &mut JsonValue, later: &JsonValue) -> Result<()> {
        match self {
            Call::MergePatch => merge_patch(alloc, value, later),
            Call::Layer => layer(alloc, value, later),
        }
    }
}

fn patched(alloc: Global, target: &str, patch: &str) -> Result<JsonValue> {
    let mut target = jzon::parse(alloc, target)?;
    let patch = jzon::parse(alloc, patch)?;
    merge_patch(alloc, &mut target, &patch)?;
    Ok(target)
}

/// The patch between the values of two texts. It has been applied.
fn turned(rt: &impl Tester, from: &str, to: &str) -> Result<Option<JsonValue>> {
    let alloc = rt.alloc();
    let mut old = jzon::parse(alloc, from)?;
    let new = jzon::parse(alloc, to)?;
    let patch = merge::diff(alloc, &old, &new)?;
    if let Some(patch) = &patch {
        merge_patch(alloc, &mut old, patch)?;
        expect(rt, to, old == new);
    }
    Ok(patch)
}

fn layered(alloc: Global, base: &str, later: &str) -> Result<JsonValue> {
    let mut base = jzon::parse(alloc, base)?;
    let later = jzon::parse(alloc, later)?;
    layer(alloc, &mut base, &later)?;
    Ok(base)
}

#[test]
fn patches(rt: HostRuntime) -> Tested {
    for (target, patch, after) in PATCHES {
        expect_dump(&rt, &patched(rt.alloc(), target, patch)?, after);
    }
    Ok(())
}

/// A patch that removes 3,000 entries, leaves the first, replaces the last, and puts a new one.
#[test]
fn removes_many(rt: HostRuntime) -> Tested {
    let alloc = rt.alloc();
    let keys = digits_below(alloc, 3_002)?;
    let mut target = jzon::parse(alloc, object_text(alloc, keys.as_slice())?.as_str())?;
    let mut patch = target.clone(alloc)?;
    patch.remove("0");
    patch.insert(alloc, "3001", 7u8)?;
    patch.insert(alloc, "new", true)?;
    merge_patch(alloc, &mut target, &patch)?;
    expect_dump(&rt, &target, r#"{"0":null,"3001":7,"new":true}"#);
    Ok(())
}

#[test]
fn diffs(rt: HostRuntime) -> Tested {
    for (old, new, text) in DIFFS {
        match turned(&rt, old, new)? {
            Some(patch) => expect_dump(&rt, &patch, text),
            None => expect(&rt, new, text.is_empty()),
        }
    }
    Ok(())
}

#[test]
fn layers(rt: HostRuntime) -> Tested {
    for (base, later, after) in LAYERS {
        expect_dump(&rt, &layered(rt.alloc(), base, later)?, after);
    }
    Ok(())
}

#[test]
fn fills_in_defaults(rt: HostRuntime) -> Tested {
    let alloc = rt.alloc();
    let defaults = jzon::parse(alloc, r#"{"host":"a","limits":{"time":30,"size":9}}"#)?;
    let config = jzon::parse(alloc, r#"{"limits":{"time":5},"log":null}"#)?;
    let mut full = defaults.clone(alloc)?;
    layer(alloc, &mut full, &config)?;
    expect_dump(
        &rt,
        &full,
        r#"{"host":"a","limits":{"time":5,"size":9},"log":null}"#,
    );
    Ok(())
}

/// One run. Whether an allocation failed: then the call returned `OutOfMemory`, and the value is as
/// it was.
fn run(
    rt: &impl Tester,
    call: Call,
    before: &JsonValue,
    later: &JsonValue,
    refusals: &mut Refusals,
) -> std::result::Result<bool, Fail> {
    let mut value = before.clone(rt.alloc())?;
    refusals.begin();
    let outcome = call.call(rt.alloc(), &mut value, later);
    let has_failed = refusals.has_failed();
    if has_failed {
        expect(rt, "error", matches!(outcome, Err(Error::OutOfMemory)));
        expect(rt, "unchanged", value == *before);
    } else {
        expect(rt, "merged", outcome.is_ok() && value != *before);
    }
    Ok(has_failed)
}

/// A call, the value before it, the later value, and the number of allocations. An object is a box,
/// a vector of keys and one of values, but nothing if it is empty; an array a vector.
const ALLOCATING: &[(Call, &str, &str, &str, usize)] = &[
    (Call::MergePatch, "merge_patch", "[[1]]", "null", 2),
    (
        Call::MergePatch,
        "merge_patch",
        r#"{"a":[1],"b":2}"#,
        r#"{"a":[2],"b":null}"#,
        5,
    ),
    (
        Call::Layer,
        "layer",
        r#"{"a":{}}"#,
        r#"{"a":{"b":[null]}}"#,
        7,
    ),
    (Call::Layer, "layer", "null", r#"{"a":null}"#, 3),
];

#[test]
fn merges_under_refusals(rt: HostRuntime) -> Tested {
    for (call, name, before, later, count) in ALLOCATING {
        let before = jzon::parse(rt.alloc(), before)?;
        let later = jzon::parse(rt.alloc(), later)?;
        let mut refusals = Refusals::new(rt.alloc());
        for _ in 0..RUNS_MAX {
            refusals.open();
            let has_failed = run(&rt, *call, &before, &later, &mut refusals)?;
            refusals.close();
            if !has_failed {
                break;
            }
        }
        refusals.report(&rt, name, *count)?;
    }
    Ok(())
}
