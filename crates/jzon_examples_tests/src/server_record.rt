//! Tests of `server_record`.

use crate::common::{Tested, expect_dump};
use jzon_examples::server_record::server;

#[test]
fn builds(rt: HostRuntime) -> Tested {
    let value = server(rt.alloc(), "a", 80)?;
    expect_dump(&rt, &value, "{\"host\":\"a\",\"port\":80,\"tags\":[]}");
    Ok(())
}
