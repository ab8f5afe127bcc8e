//! Tests of `faults`.

use crate::common::{Tested, expect, expect_eq};
use jzon_examples::faults::{port, port_of_faulty, position_of};

#[test]
fn reads(rt: HostRuntime) -> Tested {
    let rows = [
        ("{\"server\":{\"port\":80}}", Some(80)),
        ("{\"server\":{\"port\":65536}}", None),
        ("[]", None),
    ];
    for (text, expected) in rows {
        expect_eq(&rt, text, port(rt.alloc(), text)?, expected);
    }
    match port_of_faulty(rt.alloc()) {
        Err(error) => expect_eq(&rt, "position", position_of(&error), Some((1, 22))),
        Ok(_) => expect(&rt, "no error", false),
    }
    Ok(())
}
