//! Tests of `redact`.

use crate::common::{Tested, Tester, expect, expect_dump, expect_eq};
use jzon_test_support::{KEY_ORDERS, Refusals, keys_in, object_text};
use jzon_tools::redact::redact;

/// A text, the text of its value when `password` and `token` are redacted, and how many values are
/// hidden.
const ROWS: &[(&str, &str, usize)] = &[
    (
        "{\"user\":\"a\",\"password\":\"b\"}",
        "{\"user\":\"a\",\"password\":\"***\"}",
        1,
    ),
    (
        "[{\"token\":{\"token\":1},\"tokens\":[2]},3,{\"password\":[],\"token\":4}]",
        "[{\"token\":\"***\",\"tokens\":[2]},3,{\"password\":\"***\",\"token\":\"***\"}]",
        3,
    ),
    (
        "{\"a\":{\"b\":[{\"password\":null}]}}",
        "{\"a\":{\"b\":[{\"password\":\"***\"}]}}",
        1,
    ),
    ("\"password\"", "\"password\"", 0),
];

fn expect_redacted(rt: &impl Tester, text: &str, expected: &str, count: usize) -> Tested {
    let mut value = jzon::parse(rt.alloc(), text)?;
    expect_eq(rt, text, redact(&mut value, &["password", "token"]), count);
    expect_dump(rt, &value, expected);
    Ok(())
}

#[test]
fn redacts(rt: HostRuntime) -> Tested {
    for (text, expected, count) in ROWS {
        expect_redacted(&rt, text, expected, *count)?;
    }
    Ok(())
}

/// Of 20,000 keys in each order two are hidden, without an allocation.
#[test]
fn redacts_counted(rt: HostRuntime) -> Tested {
    for order in KEY_ORDERS {
        let keys = keys_in(rt.alloc(), *order, 20_000)?;
        let text = object_text(rt.alloc(), keys.as_slice())?;
        let mut value = jzon::parse(rt.alloc(), text.as_str())?;
        let mut refusals = Refusals::new(rt.alloc());
        refusals.open();
        let count = redact(&mut value, &["7", "x", "19990"]);
        refusals.close();
        refusals.expect_within(&rt, "redacts", 0)?;
        expect_eq(&rt, "how many", count, 2);
        expect(&rt, "the first", value.at("7").eq_str("***"));
        expect(&rt, "the second", value.at("19990").eq_str("***"));
        expect(&rt, "another", value.at("8").is_null());
    }
    Ok(())
}
