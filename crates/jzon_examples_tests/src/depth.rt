//! Tests of `cookbook::depth`.

use crate::common::{Tested, expect, expect_dump, expect_eq};
use jzon::Error;
use jzon_examples::cookbook::depth::{longest, trim_all};

#[test]
fn trims_at_any_depth(rt: HostRuntime) -> Tested {
    let alloc = rt.alloc();
    let mut value = jzon::parse(alloc, r#"{"a": [" x ", {"b": "y "}], "c": 1}"#)?;
    trim_all(alloc, &mut value)?;
    expect_dump(&rt, &value, r#"{"a":["x",{"b":"y"}],"c":1}"#);
    expect_eq(&rt, "the longest", longest(&value, 513), 1);
    expect_eq(&rt, "too deep", longest(&value, 2), 0);
    Ok(())
}

/// 512 arrays that aren't empty, and an empty one in the innermost.
#[test]
fn reaches_the_deepest_value_of_a_text(rt: HostRuntime) -> Tested {
    let alloc = rt.alloc();
    let mut value = jzon::array![alloc;];
    for _ in 0..512 {
        value = jzon::array![alloc; value];
    }
    let text = value.dump(alloc)?;
    let mut read = jzon::parse(alloc, text.as_str())?;
    expect(&rt, "trimmed", trim_all(alloc, &mut read).is_ok());
    let mut deeper = jzon::array![alloc; read];
    let result = trim_all(alloc, &mut deeper);
    expect(&rt, "deeper", result == Err(Error::ExceededDepthLimit));
    Ok(())
}
