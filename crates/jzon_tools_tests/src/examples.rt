//! The code that docs/TOOLS.md quotes.

use crate::common::Tested;
use jzon::{JsonValue, Reading};
use jzon_pointer::error::{Error, What};
use jzon_pointer::shown::ShownPointer;
use jzon_tools::canonical::{canonical_text, of_text, sort_keys};
use jzon_tools::edit;
use jzon_tools::patch::{self, Limits};
use jzon_tools::redact::redact;
use jzon_typed::decode;
use std::alloc::Global;

#[test]
fn canonical_order(rt: HostRuntime) -> Tested {
    let alloc = rt.alloc();
    let mut order = jzon::parse(alloc, r#"{"to": "b", "sum": 1.50, "at": [-0, 1e2]}"#)?;
    let text = canonical_text(alloc, &order)?;
    assert_eq!(rt; text.as_str(), r#"{"at":[0,100],"sum":1.5,"to":"b"}"#);
    sort_keys(alloc, &mut order)?;
    let dump = order.dump(alloc)?;
    assert_eq!(rt; dump.as_str(), r#"{"at":[-0,100],"sum":1.50,"to":"b"}"#);
    Ok(())
}

#[test]
fn signed_texts(rt: HostRuntime) -> Tested {
    let alloc = rt.alloc();
    let text = of_text(alloc, r#"{"b": 1.50, "a": [-0]}"#)?;
    assert_eq!(rt; text.as_str(), r#"{"a":[0],"b":1.5}"#);
    let repeated = of_text(alloc, r#"{"sum": 1, "sum": 2}"#);
    assert_eq!(rt;
        repeated,
        Err(jzon::Error::DuplicateKey {
            line: 1,
            column: 12
        })
    );
    Ok(())
}

#[test]
fn patched_config(rt: HostRuntime) -> Tested {
    let alloc = rt.alloc();
    let mut config = jzon::parse_as(alloc, r#"{"port": 80, "tags": ["a"]}"#, &Reading::LOSSLESS)?;
    let operations = r#"[{"op": "test", "path": "/port", "value": 80.0},
        {"op": "add", "path": "/tags/-", "value": "b"}]"#;
    let patch = jzon::parse_as(alloc, operations, &Reading::LOSSLESS)?;
    patch::apply(alloc, &mut config, &patch)?;
    let dump = config.dump(alloc)?;
    assert_eq!(rt; dump.as_str(), r#"{"port":80,"tags":["a","b"]}"#);
    let limits = Limits {
        copied: 65_536,
        ..Limits::USUAL
    };
    patch::apply_within(alloc, &mut config, &patch, &limits)?;
    Ok(())
}

#[test]
fn difference(rt: HostRuntime) -> Tested {
    let alloc = rt.alloc();
    let mut old = jzon::parse(alloc, r#"{"port": 80, "tags": ["a", "b"]}"#)?;
    let new = jzon::parse(alloc, r#"{"port": 81, "tags": ["b"]}"#)?;
    let patch = patch::diff(alloc, &old, &new)?;
    patch::apply(alloc, &mut old, &patch)?;
    assert!(rt; old == new);
    Ok(())
}

#[test]
fn element_of_a_pair(rt: HostRuntime) -> Tested {
    let alloc = rt.alloc();
    let value = jzon::parse(alloc, "[1, 2]")?;
    let from: u8 = decode::element(alloc, &value, 0)?;
    assert_eq!(rt; from, 1);
    Ok(())
}

#[test]
fn redacted_user(rt: HostRuntime) -> Tested {
    let alloc = rt.alloc();
    let mut user = jzon::parse(alloc, r#"{"name": "a", "keys": [{"token": 5}]}"#)?;
    redact(&mut user, &["password", "token"]);
    let dump = user.dump(alloc)?;
    assert_eq!(rt; dump.as_str(), r#"{"name":"a","keys":[{"token":"***"}]}"#);
    Ok(())
}

#[test]
fn pointed_port(rt: HostRuntime) -> Tested {
    let alloc = rt.alloc();
    let mut config = jzon::parse(alloc, r#"{"servers": [{"port": 80}]}"#)?;
    let port = jzon_pointer::get(&config, "/servers/0/port");
    assert!(rt; port.is_some());
    edit::update(alloc, &mut config, "/servers/0/port", |port| {
        *port = JsonValue::from(81u16);
    })?;
    let path = "/servers/-";
    let new = JsonValue::Null;
    if edit::nests_within(path, &new, 512) {
        edit::insert(alloc, &mut config, path, new)?;
    }
    let dump = config.dump(alloc)?;
    assert_eq!(rt; dump.as_str(), r#"{"servers":[{"port":81},null]}"#);
    if let Err(error) = jzon_pointer::find(alloc, &config, "/servers/2/port") {
        let words = format!(in alloc; "{error}")?;
        assert_eq!(rt; words.as_str(), "/servers/2/port: /servers has 2 elements");
    }
    let mut path = String::from_str(alloc, "/servers/0")?;
    jzon_pointer::push_token(&mut path, "a/b")?;
    assert_eq!(rt; path.as_str(), "/servers/0/a~1b");
    Ok(())
}

/// The first server of a configuration after a patch.
fn first_server(alloc: Global, text: &str, patch: &str) -> Result<JsonValue, Error> {
    let mut config = jzon::parse_located(alloc, text, &Reading::LOSSLESS)?;
    let patch = jzon::parse_located(alloc, patch, &Reading::LOSSLESS)?;
    patch::apply(alloc, &mut config, &patch)?;
    let server = jzon_pointer::find(alloc, &config, "/servers/0")?;
    Ok(server.clone(alloc)?)
}

/// The same, or `None` if there is none.
fn a_server(alloc: Global, text: &str, patch: &str) -> Result<Option<JsonValue>, Error> {
    match first_server(alloc, text, patch) {
        Ok(server) => Ok(Some(server)),
        Err(error) if matches!(error.what(), Some(What::Pointer(_))) => Ok(None),
        Err(error) => Err(error),
    }
}

#[test]
fn patched_server(rt: HostRuntime) -> Tested {
    let alloc = rt.alloc();
    let text = r#"{"servers": ["a", "b"]}"#;
    let server = first_server(alloc, text, r#"[{"op": "remove", "path": "/servers/0"}]"#)?;
    assert!(rt; server.eq_str("b"));
    let none = a_server(alloc, "[]", "[]")?;
    assert!(rt; none.is_none());
    let (file, line) = ("hosts", 7);
    if let Err(error) = a_server(
        alloc,
        text,
        r#"[{"op": "test", "path": "/servers", "value": 1}]"#,
    ) {
        let path = ShownPointer(error.pointer());
        let text = format!(in alloc; "{file}:{line}: {path}: {}", error.words())?;
        assert_eq!(rt; text.as_str(), "hosts:7: /servers: test failed");
    }
    Ok(())
}
