//! Tests of `cookbook::read_back`.

use crate::common::{Tested, expect};
use jzon_examples::cookbook::read_back::{Server, copied};

#[test]
fn copies(rt: HostRuntime) -> Tested {
    let alloc = rt.alloc();
    let source = Server {
        host: String::from_str(alloc, "a")?,
        port: 80,
        secure: true,
        tags: vec![in alloc; String::from_str(alloc, "b\n")?]?,
    };
    match copied(alloc, &source) {
        Ok(copy) => expect(&rt, "copy", copy == source),
        Err(_) => expect(&rt, "copy", false),
    }
    Ok(())
}
