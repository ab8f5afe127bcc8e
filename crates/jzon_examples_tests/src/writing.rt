//! Tests of `writing`.

use crate::common::{Tested, expect, expect_dump};
use jzon::JsonValue;
use jzon_examples::writing::set_port;

#[test]
fn writes(rt: HostRuntime) -> Tested {
    let alloc = rt.alloc();
    let failed = set_port(alloc, &mut JsonValue::Null, 80);
    expect(&rt, "an error", failed.is_err());
    let mut value = jzon::parse(alloc, "{\"port\": 1, \"host\": \"a\"}")?;
    set_port(alloc, &mut value, 80)?;
    expect_dump(&rt, &value, "{\"port\":80,\"host\":\"a\"}");
    Ok(())
}
