//! Tests of `cookbook::changing`.

use crate::common::Tested;
use jzon::JsonValue;
use jzon_examples::cookbook::changing::{
    add_tag, change_port, fill, pay, remove_nulls, rename, rename_in_place, set_port, silence,
    sort_by_name,
};

#[test]
fn pays(rt: HostRuntime) -> Tested {
    let (id, cents, text) = pay(rt.alloc())?;
    assert!(rt; id == Some(7) && cents == Some(1990));
    assert_eq!(rt;
        text.as_str(),
        "{\n  \"id\": 7,\n  \"price\": 19.90,\n  \"to\": {\n    \"city\": \"Bern\",\n    \"zip\": \"3011\"\n  },\n  \"paid\": true\n}"
    );
    Ok(())
}

#[test]
fn changes(rt: HostRuntime) -> Tested {
    let alloc = rt.alloc();
    let mut config = jzon::parse(alloc, r#"{"debug": true, "old": 1, "x": null}"#)?;
    silence(&mut config);
    set_port(alloc, &mut config, 80)?;
    remove_nulls(&mut config);
    rename(alloc, &mut config)?;
    assert_eq!(rt;
        config.dump(alloc)?.as_str(),
        r#"{"debug":false,"server":{"port":80},"new":1}"#
    );
    assert!(rt; change_port(&mut config, 81).is_some());
    assert!(rt; config.at("server").at("port").eq_u64(81));
    Ok(())
}

#[test]
fn renames_in_place(rt: HostRuntime) -> Tested {
    let alloc = rt.alloc();
    let mut config = jzon::parse(alloc, r#"{"a": 1, "old": 2, "b": 3}"#)?;
    rename_in_place(alloc, &mut config)?;
    assert_eq!(rt; config.dump(alloc)?.as_str(), r#"{"a":1,"new":2,"b":3}"#);
    Ok(())
}

#[test]
fn fills(rt: HostRuntime) -> Tested {
    let alloc = rt.alloc();
    let mut list = jzon::parse(alloc, "[null, 1, null]")?;
    fill(&mut list);
    assert_eq!(rt; list.dump(alloc)?.as_str(), "[0,1,0]");
    Ok(())
}

#[test]
fn adds_tags(rt: HostRuntime) -> Tested {
    let alloc = rt.alloc();
    let mut empty = JsonValue::new_object(alloc);
    add_tag(alloc, &mut empty, "a")?;
    add_tag(alloc, &mut empty, "b")?;
    assert_eq!(rt; empty.dump(alloc)?.as_str(), r#"{"tags":["a","b"]}"#);
    Ok(())
}

#[test]
fn sorts_by_name(rt: HostRuntime) -> Tested {
    let alloc = rt.alloc();
    let mut people = jzon::parse(alloc, r#"[{"name": "b", "age": 1}, {"name": "a"}, {}]"#)?;
    assert!(rt; change_port(&mut people, 81).is_none());
    sort_by_name(&mut people)?;
    assert_eq!(rt;
        people.dump(alloc)?.as_str(),
        r#"[{},{"name":"a"},{"name":"b","age":1}]"#
    );
    Ok(())
}
