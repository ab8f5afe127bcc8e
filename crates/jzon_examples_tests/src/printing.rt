//! Tests of `cookbook::printing`.

use crate::common::Tested;
use jzon_examples::cookbook::printing::{add_text, ascii, save, write_line};

#[test]
fn writes(rt: HostRuntime) -> Tested {
    let alloc = rt.alloc();
    let mut bytes = Vec::new(alloc);
    let value = jzon::parse(alloc, r#"{"a":[],"b":[1]}"#)?;
    save(&rt, "/dev/null", &value)?;
    write_line(alloc, &mut bytes, &value)?;
    assert_eq!(rt;
        str::from_utf8(&bytes)?,
        "{\n  \"a\": [],\n  \"b\": [\n    1\n  ]\n}\n"
    );
    let mut text = String::from_str(alloc, "value: ")?;
    add_text(&mut text, &value)?;
    assert_eq!(rt; text.as_str(), r#"value: {"a":[],"b":[1]}"#);
    Ok(())
}

#[test]
fn escapes(rt: HostRuntime) -> Tested {
    let alloc = rt.alloc();
    let value = jzon::parse(alloc, r#"["é", "🦄", "a"]"#)?;
    let text = ascii(alloc, &value)?;
    assert_eq!(rt; text.as_str(), r#"["\u00e9","\ud83e\udd84","a"]"#);
    assert!(rt; jzon::parse(alloc, text.as_str())? == value);
    Ok(())
}
