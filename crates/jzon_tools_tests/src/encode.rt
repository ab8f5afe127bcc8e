//! Tests of `encode`: what is written, and that it is read back.

use crate::common::{Tested, Tester, expect, expect_eq};
use jzon::JsonValue;
use jzon::number::Number;
use jzon_typed::decode::{self, Error, Fields, FromJson};
use jzon_typed::encode::{self, Members, ReadsBack, ToJson};
use std::alloc::Global;
use std::collections::BTreeMap;
use std::result::Result;

/// A struct with a nested one, and a list of them.
#[derive(Drop)]
struct Fleet {
    name: String,
    main: Server,
    others: Vec<Server>,
    limits: BTreeMap<String, i64>,
    owner: Option<String>,
}

#[derive(Drop)]
struct Server {
    host: String,
    port: u16,
    secure: bool,
}

impl ToJson for Server {
    fn to_json(&self, alloc: Global) -> jzon::Result<JsonValue> {
        Members::new(alloc)
            .put("host", &self.host)?
            .put("port", &self.port)?
            .put("secure", &self.secure)?
            .done()
    }
}

impl FromJson for Server {
    fn from_json(alloc: Global, value: &JsonValue) -> Result<Server, Error> {
        let server = Fields::only(alloc, value, &["host", "port", "secure"])?;
        Ok(Server {
            host: server.read("host")?,
            port: server.read("port")?,
            secure: server.read_or("secure", false)?,
        })
    }
}

impl ToJson for Fleet {
    fn to_json(&self, alloc: Global) -> jzon::Result<JsonValue> {
        Members::new(alloc)
            .put("name", &self.name)?
            .put("main", &self.main)?
            .put("others", &self.others)?
            .put("limits", &self.limits)?
            .put_some("owner", &self.owner)?
            .done()
    }
}

impl FromJson for Fleet {
    fn from_json(alloc: Global, value: &JsonValue) -> Result<Fleet, Error> {
        let fleet = Fields::only(alloc, value, &["name", "main", "others", "limits", "owner"])?;
        Ok(Fleet {
            name: fleet.read("name")?,
            main: fleet.read("main")?,
            others: fleet.read("others")?,
            limits: fleet.read("limits")?,
            owner: fleet.optional("owner")?,
        })
    }
}

const FLEETS: &[&str] = &[
    r#"{"name":"a","main":{"host":"h","port":65535,"secure":true},"others":[],"limits":{},"owner":"x"}"#,
    r#"{"name":"\n","main":{"host":"","port":0,"secure":false},"others":[{"host":"1","port":1,"secure":true},{"host":"2","port":2,"secure":false}],"limits":{"a":-9223372036854775808,"b":9223372036854775807}}"#,
];

#[test]
fn writes_what_it_reads(rt: HostRuntime) -> Tested {
    let alloc = rt.alloc();
    for text in FLEETS {
        let fleet: Fleet = decode::from_text(alloc, text)?;
        let written = encode::to_text(alloc, &fleet)?;
        expect_eq(&rt, text, written.as_str(), *text);
    }
    Ok(())
}

fn writes<T: ToJson>(rt: &impl Tester, source: &T, text: &str) {
    match encode::to_text(rt.alloc(), source) {
        Ok(written) => expect_eq(rt, text, written.as_str(), text),
        Err(_) => expect(rt, text, false),
    }
}

#[test]
fn writes_the_types_of_std(rt: HostRuntime) -> Tested {
    let alloc = rt.alloc();
    writes(&rt, &255u8, "255");
    writes(&rt, &65535u16, "65535");
    writes(&rt, &4294967295u32, "4294967295");
    writes(&rt, &18446744073709551615u64, "18446744073709551615");
    writes(&rt, &18446744073709551615usize, "18446744073709551615");
    writes(&rt, &-128i8, "-128");
    writes(&rt, &-32768i16, "-32768");
    writes(&rt, &-2147483648i32, "-2147483648");
    writes(&rt, &-9223372036854775808i64, "-9223372036854775808");
    writes(&rt, &-9223372036854775808isize, "-9223372036854775808");
    writes(&rt, &true, "true");
    writes(&rt, &Number::from_parts(true, 15, -1), "1.5");
    writes(&rt, &"a\"b", r#""a\"b""#);
    writes(
        &rt,
        &"0123456789012345678901234567890",
        r#""0123456789012345678901234567890""#,
    );
    writes(&rt, &String::from_str(alloc, "é")?, "\"é\"");
    writes(&rt, &None::<u8>, "null");
    writes(&rt, &Some(7u8), "7");
    let list: &[u8] = &[1, 2];
    writes(&rt, &list, "[1,2]");
    writes(
        &rt,
        &jzon::array![alloc; 1u8, "two", null],
        r#"[1,"two",null]"#,
    );
    writes(&rt, &Box::new(alloc, 5u8)?, "5");
    Ok(())
}

fn reads_back<T: ReadsBack + Drop>(rt: &impl Tester, words: &str, source: &T) {
    match encode::read_back(rt.alloc(), source) {
        Ok(copy) => expect(rt, words, copy == *source),
        Err(_) => expect(rt, words, false),
    }
}

/// Each type at which the law of reading back is stated.
#[test]
fn reads_back_what_it_writes(rt: HostRuntime) -> Tested {
    let alloc = rt.alloc();
    reads_back(&rt, "u8", &255u8);
    reads_back(&rt, "u16", &65535u16);
    reads_back(&rt, "u32", &4294967295u32);
    reads_back(&rt, "u64", &18446744073709551615u64);
    reads_back(&rt, "usize", &0usize);
    reads_back(&rt, "i8", &-128i8);
    reads_back(&rt, "i16", &-32768i16);
    reads_back(&rt, "i32", &-2147483648i32);
    reads_back(&rt, "i64", &-9223372036854775808i64);
    reads_back(&rt, "isize", &-1isize);
    reads_back(&rt, "bool", &true);
    reads_back(&rt, "number", &Number::from_parts(true, 15, -1));
    reads_back(&rt, "value", &jzon::array![alloc; 1u8, "two", null]);
    reads_back(&rt, "string", &String::from_str(alloc, "é")?);
    reads_back(&rt, "box", &Box::new(alloc, 5u8)?);
    reads_back(&rt, "option", &Some(7u8));
    reads_back(&rt, "pair", &(7u8, String::from_str(alloc, "é")?));
    reads_back(&rt, "triple", &(7u8, true, -1i8));
    reads_back(
        &rt,
        "option of a box",
        &Some(Box::new(alloc, (true, -1i8))?),
    );
    reads_back(&rt, "list", &vec![in alloc; None, Some(7i64)]?);
    Ok(())
}
