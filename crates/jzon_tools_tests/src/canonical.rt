//! Tests of `canonical`.

use crate::common::{
    Tested, Tester, expect, expect_dump, expect_eq, expect_message, expect_raised,
};
use jzon::number::NAN;
use jzon::short::Short;
use jzon::{Error as TextError, JsonValue, parse};
use jzon_pointer::error::Error;
use jzon_test_support::{RUNS_MAX, Refusals, keys_by_hash, object_text, rows};
use jzon_tools::canonical::{canonical_text, of_text, sort_keys, sorted};
use std::alloc::Global;
use std::io::ErrorKind;
use std::test::Fail;

/// Texts of equal values, and after them the canonical text of each.
type Class = (&'static [&'static str], &'static str);

/// The value of a text of one class equals none of another class.
#[rattlefmt::skip]
const CLASSES: &[Class] = rows! {
    (&["null", " null "], "null")
    (&["true"], "true")
    (&["0", "-0", "0e5", "-0.00", "0e-7", "0E+32767"], "0")
    (&["1", "1.0", "10e-1", "0.1e1", "1000000000000000000e-18"], "1")
    (&["-1", "-1.0"], "-1")
    (&["1.5", "1.50", "15e-1", "0.15E1"], "1.5")
    (&["100", "1e2", "100.0", "0.1e3"], "100")
    (&["1e19", "10000000000000000000", "100e17"], "10000000000000000000")
    (&["1e20", "100000000000000000000", "10e19"], "1e20")
    (&["1e-17", "0.00000000000000001", "10e-18"], "0.00000000000000001")
    (&["1e-18", "10e-19", "0.1e-17"], "1e-18")
    (&["18446744073709551615"], "18446744073709551615")
    (&["-12.340e-3", "-1234e-5"], "-0.01234")
    (&["1e32767", "0.1e32768"], "1e32767")
    (&["\"\"", " \"\""], "\"\"")
    (&["\"0\""], "\"0\"")
    (&["\"/é\\n\"", "\"\\/\\u00e9\\u000a\""], "\"/é\\n\"")
    (&["[]", "[ ]"], "[]")
    (&["{}", "{ }"], "{}")
    (&["[1.0,[10e1]]", "[1,[1e2]]"], "[1,[100]]")
    (&["[[100],1]"], "[[100],1]")
    (&["{\"b\":1,\"a\":2}", "{\"a\":2.0,\"b\":1}", "{\"b\":0,\"a\":2,\"b\":1}"], "{\"a\":2,\"b\":1}")
    (&["{\"b\":2,\"a\":1}"], "{\"a\":1,\"b\":2}")
    (&["{\"ab\":0,\"\":[],\"a\":0}"], "{\"\":[],\"a\":0,\"ab\":0}")
    (&["{\"é\":1,\"z\":2,\"\u{1d11e}\":3,\"\u{ffff}\":4}"], "{\"z\":2,\"é\":1,\"\u{ffff}\":4,\"\u{1d11e}\":3}")
    (&["[{\"o\":{\"y\":-0,\"x\":[{\"d\":1,\"c\":2}]},\"n\":3.0}]"], "[{\"n\":3,\"o\":{\"x\":[{\"c\":2,\"d\":1}],\"y\":0}}]")
};

/// A value of one text, against the values of a class: equal values, and only these, have the class's
/// canonical text.
fn expect_class(rt: &impl Tester, value: &JsonValue, class: &Class, is_equal: bool) -> Tested {
    let alloc = rt.alloc();
    let text = canonical_text(alloc, value)?;
    expect_eq(rt, class.1, text.as_str() == class.1, is_equal);
    for other in class.0 {
        let other_value = parse(alloc, other)?;
        expect_eq(rt, other, *value == other_value, is_equal);
    }
    Ok(())
}

#[test]
fn equal_values_have_one_text(rt: HostRuntime) -> Tested {
    for (index, class) in CLASSES.iter().enumerate() {
        for text in class.0 {
            let value = parse(rt.alloc(), text)?;
            for (other, other_class) in CLASSES.iter().enumerate() {
                expect_class(&rt, &value, other_class, other == index)?;
            }
        }
    }
    Ok(())
}

/// Each text of a class is read, and what a strict and exact reading rejects is rejected.
#[test]
fn reads_texts(rt: HostRuntime) -> Tested {
    let alloc = rt.alloc();
    let text = of_text(alloc, " {\"b\": 1.50, \"a\": [-0, 1e2]}")?;
    expect_eq(&rt, "canonical", text.as_str(), "{\"a\":[0,100],\"b\":1.5}");
    let again = of_text(alloc, text.as_str())?;
    expect_eq(&rt, "again", again.as_str(), text.as_str());
    let repeated = TextError::DuplicateKey { line: 1, column: 8 };
    let result = of_text(alloc, "{\"a\":1,\"a\":2}");
    expect(&rt, "repeated key", result == Err(repeated));
    let result = of_text(alloc, "[1,");
    expect(&rt, "end", result == Err(TextError::UnexpectedEndOfJson));
    let inexact = TextError::InexactNumber {
        line: 1,
        column: 21,
    };
    let result = of_text(alloc, "184467440737095516151");
    expect(&rt, "digits", result == Err(inexact));
    Ok(())
}

/// A short string that is allocated, and the same one inline.
fn stored(alloc: Global, text: &str, is_inline: bool) -> Result<JsonValue, Fail> {
    let string = if is_inline && text.len() <= 30 {
        JsonValue::Short(Short::from_slice(text))
    } else {
        JsonValue::String(String::from_str(alloc, text)?)
    };
    Ok(JsonValue::Array(vec![in alloc; string]?))
}

#[test]
fn strings_in_both_storages_have_one_text(rt: HostRuntime) -> Tested {
    for is_inline in [false, true] {
        let value = stored(rt.alloc(), "a\"b", is_inline)?;
        expect_class(&rt, &value, &(&["[\"a\\\"b\"]"], "[\"a\\\"b\"]"), true)?;
        let copy = sorted(rt.alloc(), &value)?;
        expect_eq(
            &rt,
            "storage",
            matches!(copy.members().next(), Some(JsonValue::Short(_))),
            is_inline,
        );
    }
    Ok(())
}

/// A text, and the keys and indices to the place of a NaN.
#[rattlefmt::skip]
const NAN_ROWS: &[(&str, &[&str])] = rows! {
    ("0", &[])
    ("{\"b\":0,\"a\":1}", &["b"])
    ("{\"b\":{\"c\":{\"e\":1,\"d\":0}},\"a\":1}", &["b", "c", "d"])
};

/// The value at the keys becomes NaN, inside an array.
fn with_nan(alloc: Global, text: &str, keys: &[&str]) -> Result<JsonValue, Fail> {
    let mut value = parse(alloc, text)?;
    let mut place = &mut value;
    for key in keys {
        place = place.at_mut(alloc, key)?;
    }
    *place = JsonValue::Number(NAN);
    Ok(JsonValue::Array(vec![in alloc; JsonValue::Null, value]?))
}

#[test]
fn nan_has_no_text(rt: HostRuntime) -> Tested {
    for (text, keys) in NAN_ROWS {
        let value = with_nan(rt.alloc(), text, keys)?;
        let result = canonical_text(rt.alloc(), &value);
        let error = Error::NOT_A_NUMBER;
        expect(&rt, text, error.is_not_a_number());
        expect(&rt, text, error.what().is_none());
        expect(&rt, text, result == Err(error));
        let copy = sorted(rt.alloc(), &value)?;
        expect(&rt, text, copy == value);
    }
    expect(&rt, "memory", !Error::MEMORY.is_not_a_number());
    let error = Error::NOT_A_NUMBER;
    expect_message(&rt, "Display", &error, "not a number")?;
    expect_raised(
        &rt,
        "io::Error",
        error,
        ErrorKind::InvalidData,
        "not a number",
    )
}

/// A text, and the text with sorted keys.
#[rattlefmt::skip]
const SORTED_ROWS: &[(&str, &str)] = rows! {
    ("{\"c\":null,\"b\":null,\"a\":null}", "{\"a\":null,\"b\":null,\"c\":null}")
    ("{\"b\":{\"z\":1,\"é\":[],\"a\":[1.50]},\"\":2,\"ab\":3}", "{\"\":2,\"ab\":3,\"b\":{\"a\":[1.50],\"z\":1,\"é\":[]}}")
    ("[3,{\"b\":-0,\"a\":[{\"d\":1,\"c\":0e5}]},1]", "[3,{\"a\":[{\"c\":0,\"d\":1}],\"b\":-0},1]")
    ("\"b\"", "\"b\"")
};

/// The value, with sorted keys, dumps the text, and equals the value before.
fn expect_sorted(rt: &impl Tester, mut value: JsonValue, text: &str) -> Tested {
    let alloc = rt.alloc();
    let copy = sorted(alloc, &value)?;
    expect(rt, text, copy == value);
    expect_dump(rt, &copy, text);
    sort_keys(alloc, &mut value)?;
    expect_dump(rt, &value, text);
    Ok(())
}

#[test]
fn sorts(rt: HostRuntime) -> Tested {
    for (text, expected) in SORTED_ROWS {
        expect_sorted(&rt, parse(rt.alloc(), text)?, expected)?;
    }
    Ok(())
}

/// An object with an index of its keys.
#[test]
fn sorts_many(rt: HostRuntime) -> Tested {
    let alloc = rt.alloc();
    let mut keys = keys_by_hash(alloc, 3000)?;
    let value = parse(alloc, object_text(alloc, keys.as_slice())?.as_str())?;
    keys.sort()?;
    let text = object_text(alloc, keys.as_slice())?;
    expect(
        &rt,
        "canonical",
        canonical_text(alloc, &value)?.as_str() == text.as_str(),
    );
    expect_sorted(&rt, value, text.as_str())
}

#[derive(Clone, Copy)]
enum Call {
    Text,
    Sorted,
    SortKeys,
}

impl Call {
    /// What the call made becomes the value.
    fn call(self, alloc: Global, value: &mut JsonValue) -> Result<(), Error> {
        match self {
            Call::Text => *value = JsonValue::String(canonical_text(alloc, value)?),
            Call::Sorted => *value = sorted(alloc, value)?,
            Call::SortKeys => sort_keys(alloc, value)?,
        }
        Ok(())
    }
}

/// A call, its name, the text of its value, the text that it makes, and the number of its
/// allocations. A text takes one for each object that isn't empty (a list of its entries), and one
/// each time that it grows. A copy takes one for an array that isn't empty, four for an object that
/// isn't (the list of its entries, a box and two lists), and one for each long string or key.
type Row = (Call, &'static str, &'static str, &'static str, usize);

#[rattlefmt::skip]
const REFUSED_ROWS: &[Row] = rows! {
    (Call::Text, "canonical_text", "{\"b\":1.50,\"a\":[-0]}", "{\"a\":[0],\"b\":1.5}", 4)
    (Call::Sorted, "sorted", "{\"b\":1.50,\"a\":[-0]}", "{\"a\":[-0],\"b\":1.50}", 5)
    (Call::SortKeys, "sort_keys", "{\"b\":1.50,\"a\":[-0]}", "{\"a\":[-0],\"b\":1.50}", 5)
    (Call::Sorted, "sorted, nine keys", NINE, NINE_SORTED, 4)
    (Call::Text, "canonical_text, allocated parts", LONG, LONG_SORTED, 6)
    (Call::Sorted, "sorted, allocated parts", LONG, LONG_SORTED, 10)
    (Call::SortKeys, "sort_keys, allocated parts", LONG, LONG_SORTED, 10)
};

/// An object whose room doesn't grow step by step.
const NINE: &str = "{\"i\":9,\"h\":8,\"g\":7,\"f\":6,\"e\":5,\"d\":4,\"c\":3,\"b\":2,\"a\":1}";

const NINE_SORTED: &str =
    "{\"a\":1,\"b\":2,\"c\":3,\"d\":4,\"e\":5,\"f\":6,\"g\":7,\"h\":8,\"i\":9}";

/// A key of 33 bytes, with an object that has a string of 31 bytes.
const LONG: &str =
    "{\"0123456789abcdef0123456789abcdef!\":{\"a\":\"abcdefghijklmnopqrstuvwxyz01234\"},\"\":{}}";

const LONG_SORTED: &str =
    "{\"\":{},\"0123456789abcdef0123456789abcdef!\":{\"a\":\"abcdefghijklmnopqrstuvwxyz01234\"}}";

/// One run of the call on a copy. Whether an allocation failed: then the copy is as it was.
fn run(
    rt: &impl Tester,
    row: &Row,
    before: &JsonValue,
    refusals: &mut Refusals,
) -> Result<bool, Fail> {
    let alloc = rt.alloc();
    let mut value = before.clone(alloc)?;
    refusals.begin();
    let result = row.0.call(alloc, &mut value);
    let has_failed = refusals.has_failed();
    if has_failed {
        expect(rt, row.1, result == Err(Error::MEMORY));
        expect_dump(rt, &value, row.2);
        return Ok(true);
    }
    expect(rt, row.1, result.is_ok());
    match value.as_str() {
        Some(text) => expect_eq(rt, row.1, text, row.3),
        None => expect_dump(rt, &value, row.3),
    }
    Ok(false)
}

fn fail_each(rt: &(impl Tester + Eprint), row: &Row) -> Tested {
    let before = parse(rt.alloc(), row.2)?;
    let mut refusals = Refusals::new(rt.alloc());
    for _ in 0..RUNS_MAX {
        refusals.open();
        let has_failed = run(rt, row, &before, &mut refusals)?;
        refusals.close();
        if !has_failed {
            break;
        }
    }
    refusals.report(rt, row.1, row.4)?;
    Ok(())
}

/// Each allocation fails in turn.
#[test]
fn canonical_under_refusals(rt: HostRuntime) -> Tested {
    for row in REFUSED_ROWS {
        fail_each(&rt, row)?;
    }
    Ok(())
}
