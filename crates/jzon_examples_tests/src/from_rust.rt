//! Tests of `from_rust`.

use crate::common::{Tested, expect, expect_dump, expect_eq};
use jzon::JsonValue;
use jzon_examples::from_rust::{first_look, longest, printed, rename, tour};

#[test]
fn tours(rt: HostRuntime) -> Tested {
    let alloc = rt.alloc();
    expect(&rt, "first_look", first_look(alloc)?);
    let text = tour(alloc, "{\"list\": [7], \"name\": \"x\"}")?;
    expect_eq(
        &rt,
        "tour",
        text.as_str(),
        "{\"list\":[7,\"last\"],\"name\":\"x\",\"count\":1,\"first\":7,\"is_named\":true,\"built\":{\"a\":5,\"b\":[true,null],\"c\":[1,\"two\",null]}}",
    );
    Ok(())
}

#[test]
fn changes_and_prints(rt: HostRuntime) -> Tested {
    let alloc = rt.alloc();
    let mut named = jzon::parse(alloc, "{\"name\": \"x\"}")?;
    rename(&mut named, JsonValue::Boolean(true));
    expect_dump(&rt, &named, "{\"name\":true}");
    let value = jzon::parse(alloc, "{\"abc\": [1, 2]}")?;
    expect_eq(&rt, "longest", longest(&value), 3);
    let texts = printed(alloc, &value)?;
    let text = texts.at_index(2).as_str();
    expect_eq(&rt, "stringify", text, Some("\"text\""));
    Ok(())
}
