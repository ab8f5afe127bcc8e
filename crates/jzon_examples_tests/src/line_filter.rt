//! Tests of `line_filter`.

use crate::common::{Tested, expect, expect_eq};
use jzon_examples::line_filter::compacted;

#[test]
fn prints_each_line(rt: HostRuntime) -> Tested {
    let printed = compacted(rt.alloc(), " {\"a\": 1}\n[ ]\r\n\"x\"")?;
    expect_eq(&rt, "printed", printed.as_str(), "{\"a\":1}\n[]\n\"x\"\n");
    let faulty = compacted(rt.alloc(), "1\n\n2");
    expect(&rt, "an error", faulty.is_err());
    Ok(())
}
