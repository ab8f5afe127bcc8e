//! Tests of `chains`.

use crate::common::{Tested, expect_eq};
use jzon_examples::chains::{first_null, has_only_known_names};

#[test]
fn looks_at_each(rt: HostRuntime) -> Tested {
    let alloc = rt.alloc();
    let rows = [
        ("{\"port\": 80, \"name\": \"a\"}", true),
        ("{\"port\": 80, \"user\": \"a\"}", false),
    ];
    for (text, is_known) in rows {
        let value = jzon::parse(alloc, text)?;
        expect_eq(&rt, text, has_only_known_names(&value), is_known);
    }
    for (text, position) in [("[0, null, null]", Some(1)), ("{\"a\": null}", None)] {
        let value = jzon::parse(alloc, text)?;
        expect_eq(&rt, text, first_null(&value), position);
    }
    Ok(())
}
