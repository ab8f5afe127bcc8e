//! Tests of `cookbook::looking`.

use crate::common::{Tested, expect_eq};
use jzon::{Error, JsonValue};
use jzon_examples::cookbook::looking::{
    cents, identifier, integer, means_the_same, parse_exactly, strings_inside, timeout, total,
    unset, wide_identifier,
};

#[test]
fn goes_over(rt: HostRuntime) -> Tested {
    let alloc = rt.alloc();
    let orders = jzon::parse(alloc, r#"[{"amount": 2}, {"amount": 3}]"#)?;
    assert_eq!(rt; total(&orders), Some(5));
    assert_eq!(rt; total(&jzon::parse(alloc, r#"[{"amount": -2}]"#)?), None);
    Ok(())
}

#[test]
fn finds_unset_entries(rt: HostRuntime) -> Tested {
    let alloc = rt.alloc();
    let config = jzon::parse(alloc, r#"{"a": null, "b": 1, "c": null}"#)?;
    let keys = unset(alloc, &config)?;
    assert_eq!(rt; jzon::stringify(alloc, keys)?.as_str(), r#"["a","c"]"#);
    Ok(())
}

#[test]
fn finds_strings_inside(rt: HostRuntime) -> Tested {
    let alloc = rt.alloc();
    let nested = jzon::parse(alloc, r#"["a", {"b": ["c", 1]}, "d"]"#)?;
    let strings = strings_inside(alloc, &nested)?;
    assert_eq!(rt;
        jzon::stringify(alloc, strings)?.as_str(),
        r#"["a","d","c"]"#
    );
    Ok(())
}

#[test]
fn reads_a_default(rt: HostRuntime) -> Tested {
    let alloc = rt.alloc();
    let config = jzon::parse(alloc, r#"{"limits": {"timeout": 5}}"#)?;
    assert_eq!(rt; timeout(&config), 5);
    assert_eq!(rt; timeout(&JsonValue::Null), 30);
    Ok(())
}

#[test]
fn reads_numbers(rt: HostRuntime) -> Tested {
    let rows = [
        ("100", Some(100), Some(100)),
        ("1e2", None, Some(100)),
        ("100.0", None, Some(100)),
        ("100.5", None, None),
        ("-1", None, None),
    ];
    for (text, by_parts, by_value) in rows {
        let value = jzon::parse(rt.alloc(), text)?;
        expect_eq(&rt, text, value.as_u64(), by_parts);
        expect_eq(&rt, text, integer(&value), by_value);
    }
    Ok(())
}

#[test]
fn reads_prices(rt: HostRuntime) -> Tested {
    let rows = [
        (r#"{"price": 19.99}"#, Some(1999)),
        (r#"{"price": 20}"#, Some(2000)),
        (r#"{"price": -0.5}"#, Some(-50)),
        (r#"{"price": 0.001}"#, None),
        (r#"{"price": "20"}"#, None),
    ];
    for (text, expected) in rows {
        let order = parse_exactly(rt.alloc(), text)?;
        expect_eq(&rt, text, cents(&order), expected);
    }
    Ok(())
}

#[test]
fn rejects_a_price_that_is_cut(rt: HostRuntime) -> Tested {
    let alloc = rt.alloc();
    let cut = parse_exactly(alloc, r#"{"price": 19.990000000000000000001}"#);
    let inexact = Error::InexactNumber {
        line: 1,
        column: 34,
    };
    assert!(rt; cut == Err(inexact));
    let price = parse_exactly(alloc, r#"{"price": 19.990000000000000000000}"#)?;
    expect_eq(&rt, "zeros", cents(&price), Some(1999));
    Ok(())
}

#[test]
fn keeps_long_digits_in_strings(rt: HostRuntime) -> Tested {
    let alloc = rt.alloc();
    let cut = jzon::parse(alloc, r#"{"id": 123456789012345678901234567890}"#)?;
    assert_eq!(rt;
        cut.dump(alloc)?.as_str(),
        r#"{"id":1.2345678901234567890e29}"#
    );
    Ok(())
}

#[test]
fn reads_digits_of_strings(rt: HostRuntime) -> Tested {
    let alloc = rt.alloc();
    let whole = jzon::parse(alloc, r#"{"id": "123456789012345678901234567890"}"#)?;
    assert_eq!(rt; identifier(&whole), Some("123456789012345678901234567890"));
    let wide = Some(123456789012345678901234567890);
    expect_eq(&rt, "128 bits", wide_identifier(&whole), wide);
    Ok(())
}

#[test]
fn compares(rt: HostRuntime) -> Tested {
    let alloc = rt.alloc();
    assert!(rt; means_the_same(alloc, r#"{"a": 1.50, "b": []}"#, r#"{"b":[],"a":15e-1}"#)?);
    assert!(rt; !means_the_same(alloc, "[1, 2]", "[2, 1]")?);
    Ok(())
}
