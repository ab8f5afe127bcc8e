//! Tests of `cookbook::tabs`.

use crate::common::Tested;
use jzon_examples::cookbook::tabs::with_tabs;

#[test]
fn begins_lines_with_tabs(rt: HostRuntime) -> Tested {
    let alloc = rt.alloc();
    let value = jzon::parse(alloc, r#"{"a": [1, {}], "b": null}"#)?;
    assert_eq!(rt;
        with_tabs(alloc, &value)?.as_str(),
        "{\n\t\"a\": [\n\t\t1,\n\t\t{}\n\t],\n\t\"b\": null\n}"
    );
    Ok(())
}
