//! Tests of `round_trip`.

use crate::common::{Tested, expect, expect_eq};
use jzon_examples::round_trip::{redump, reread, reread_lines};

#[test]
fn goes_round(rt: HostRuntime) -> Tested {
    let alloc = rt.alloc();
    let value = jzon::parse(alloc, " {\"b\": [1.50, null], \"a\": \"x\\n\"} ")?;
    expect(&rt, "reread", reread(alloc, &value)? == value);
    expect(&rt, "lines", reread_lines(alloc, &value, 65535)? == value);
    let text = redump(alloc, &value)?;
    expect_eq(
        &rt,
        "redump",
        text.as_str(),
        "{\"b\":[1.50,null],\"a\":\"x\\n\"}",
    );
    Ok(())
}
