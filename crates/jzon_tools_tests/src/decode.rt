//! Tests of `decode`. To prove a test of a table of 24 rows takes 2 seconds, of one of 48 rows 6.

use crate::common::{
    Tested, Tester, expect, expect_eq, expect_message, expect_raised, expect_refused,
};
use jzon::number::Number;
use jzon::{JsonValue, Reading};
use jzon_test_support::{RUNS_MAX, Refusals, joined, rows};
use jzon_typed::decode::{self, Error, Fields, FromJson};
use jzon_typed::encode::{self, Members, ToJson};
use std::alloc::Global;
use std::collections::BTreeMap;
use std::io;
use std::io::ErrorKind;
use std::result::Result;
use std::test::Fail;

/// A type that a text is read as.
#[derive(Clone, Copy)]
enum As {
    U8,
    U16,
    U32,
    U64,
    Usize,
    I8,
    I16,
    I32,
    I64,
    Isize,
    Truth,
    Char,
    Text,
    Number,
    Value,
    Maybe,
    Lists,
    Tree,
    Flags,
    Boxed,
    Pair,
    Triple,
    Unset,
    Sample,
    Login,
}

/// Fields of each kind.
#[derive(Drop)]
struct Sample {
    name: String,
    small: u8,
    cents: Option<Cents>,
    lists: Vec<Vec<u16>>,
    price: i64,
    ports: BTreeMap<String, u16>,
}

#[derive(Clone, Copy)]
struct Cents(i64);

impl FromJson for Cents {
    fn from_json(alloc: Global, value: &JsonValue) -> Result<Cents, Error> {
        match value.as_exact_fixed_point_i64(2) {
            Some(cents) => Ok(Cents(cents)),
            None => Err(decode::expected(alloc, value, "a price")),
        }
    }
}

/// Types that take null, with a default for null.
#[derive(Drop)]
struct Unset {
    small: Option<u8>,
    value: JsonValue,
}

impl FromJson for Unset {
    fn from_json(alloc: Global, value: &JsonValue) -> Result<Unset, Error> {
        let unset = Fields::of(alloc, value)?;
        Ok(Unset {
            small: unset.read_or("small", Some(7))?,
            value: unset.read_or("value", JsonValue::Boolean(true))?,
        })
    }
}

impl ToJson for Unset {
    fn to_json(&self, alloc: Global) -> jzon::Result<JsonValue> {
        Members::new(alloc)
            .put("small", &self.small)?
            .put("value", &self.value)?
            .done()
    }
}

/// A field that must be there, and isn't shown.
#[derive(Clone, Copy)]
struct Login {
    pin: u8,
}

impl FromJson for Login {
    fn from_json(alloc: Global, value: &JsonValue) -> Result<Login, Error> {
        let login = Fields::of(alloc, value)?;
        let pin = login.read("pin")?;
        if pin == 7 {
            return Err(login.expected_hidden("pin", "another number"));
        }
        Ok(Login { pin })
    }
}

impl FromJson for Sample {
    fn from_json(alloc: Global, value: &JsonValue) -> Result<Sample, Error> {
        let sample = Fields::of(alloc, value)?;
        sample.deny_unknown(&["name", "small", "cents", "lists", "price", "a/b~c"])?;
        let name = sample.str("name")?;
        if name.is_empty() {
            return Err(sample.expected("nick", "a second name"));
        }
        let small = sample.read_or("small", 7)?;
        if small == 0 {
            return Err(sample.expected("small", "at least 1"));
        }
        Ok(Sample {
            name: String::from_str(alloc, name)?,
            small,
            cents: sample.optional("cents")?,
            lists: sample.list("lists", 2)?,
            price: sample.fixed_point("price", 1)?,
            ports: sample.read_or("a/b~c", BTreeMap::new(alloc))?,
        })
    }
}

/// A text, what it is read as, and the compact text of what was read, or the error's message. 19 of
/// the types are converted into a value and read once more in between; of a `Sample` the parts are
/// listed.
const UNSIGNED: &[(&str, As, &str)] = rows! {
    ("0", As::U8, "0")
    ("255", As::U8, "255")
    ("256", As::U8, "expected an integer from 0 to 255, found 256")
    ("-1", As::U8, "expected an integer from 0 to 255, found -1")
    ("1.0", As::U8, "1")
    ("1e2", As::U8, "100")
    ("-0", As::U8, "0")
    ("-0.0e5", As::U64, "0")
    ("1e2", As::U16, "100")
    ("100.0", As::U32, "100")
    ("1.8446744073709551615e19", As::U64, "18446744073709551615")
    ("1e20", As::U64, "expected an integer from 0 to 18446744073709551615, found 1e20")
    ("3e2", As::U8, "expected an integer from 0 to 255, found 300")
    ("1.5", As::U8, "expected an integer from 0 to 255, found 1.5")
    ("65535", As::U16, "65535")
    ("65536", As::U16, "expected an integer from 0 to 65535, found 65536")
    ("4294967295", As::U32, "4294967295")
    ("4294967296", As::U32, "expected an integer from 0 to 4294967295, found 4294967296")
    ("18446744073709551615", As::U64, "18446744073709551615")
    ("-1", As::U64, "expected an integer from 0 to 18446744073709551615, found -1")
    ("18446744073709551615", As::Usize, "18446744073709551615")
    ("-1", As::Usize, "expected an integer from 0 to 18446744073709551615, found -1")
    (r#""0123456789012345678901234567890123456789""#, As::U8, r#"expected an integer from 0 to 255, found "0123456789012345678901234567890123456789""#)
    (r#""01234567890123456789012345678901234567890""#, As::U8, "expected an integer from 0 to 255, found a string of 41 characters")
    ("18446744073709551616", As::U64, "Number is not exact at (1:20)")
    ("\u{1b}", As::U8, "Unexpected character: \\u001b at (1:1)")
};

/// As `UNSIGNED`, read as signed integers.
const SIGNED: &[(&str, As, &str)] = rows! {
    ("-128.0", As::I8, "-128")
    ("-1e2", As::I16, "-100")
    ("-0", As::I64, "0")
    ("-128", As::I8, "-128")
    ("127", As::I8, "127")
    ("-129", As::I8, "expected an integer from -128 to 127, found -129")
    ("128", As::I8, "expected an integer from -128 to 127, found 128")
    ("-32768", As::I16, "-32768")
    ("32767", As::I16, "32767")
    ("-32769", As::I16, "expected an integer from -32768 to 32767, found -32769")
    ("32768", As::I16, "expected an integer from -32768 to 32767, found 32768")
    ("-2147483648", As::I32, "-2147483648")
    ("2147483647", As::I32, "2147483647")
    ("-2147483649", As::I32, "expected an integer from -2147483648 to 2147483647, found -2147483649")
    ("2147483648", As::I32, "expected an integer from -2147483648 to 2147483647, found 2147483648")
    ("-9223372036854775808", As::I64, "-9223372036854775808")
    ("9223372036854775807", As::I64, "9223372036854775807")
    ("-9223372036854775809", As::I64, "expected an integer from -9223372036854775808 to 9223372036854775807, found -9223372036854775809")
    ("9223372036854775808", As::I64, "expected an integer from -9223372036854775808 to 9223372036854775807, found 9223372036854775808")
    ("-9223372036854775808", As::Isize, "-9223372036854775808")
    ("9223372036854775808", As::Isize, "expected an integer from -9223372036854775808 to 9223372036854775807, found 9223372036854775808")
};

/// As `UNSIGNED`, read as other types without parts.
const SCALARS: &[(&str, As, &str)] = rows! {
    ("true", As::Truth, "true")
    ("false", As::Truth, "false")
    ("0", As::Truth, "expected true or false, found 0")
    (r#""a""#, As::Char, r#""a""#)
    (r#""\u0000""#, As::Char, r#""\u0000""#)
    (r#""\ud834\udd1e""#, As::Char, r#""𝄞""#)
    (r#""é""#, As::Char, r#""é""#)
    (r#""""#, As::Char, r#"expected a string of one character, found """#)
    (r#""ab""#, As::Char, r#"expected a string of one character, found "ab""#)
    ("7", As::Char, "expected a string of one character, found 7")
    (r#"["a"]"#, As::Char, "expected a string of one character, found an array of 1 element")
    (r#""""#, As::Text, r#""""#)
    (r#""a\n\"""#, As::Text, r#""a\n\"""#)
    (r#""a string of more than thirty bytes""#, As::Text, r#""a string of more than thirty bytes""#)
    ("null", As::Text, "expected a string, found null")
    ("-12.50", As::Number, "-12.50")
    (r#""1""#, As::Number, r#"expected a number, found "1""#)
    (r#"{"a":[1,null]}"#, As::Value, r#"{"a":[1,null]}"#)
    ("null", As::Maybe, "null")
    ("9", As::Maybe, "9")
    ("65536", As::Maybe, "expected an integer from 0 to 65535, found 65536")
    (r#""éééééééééééééééééééééééééééééééééééééééé""#, As::Truth, r#"expected true or false, found "éééééééééééééééééééééééééééééééééééééééé""#)
    (r#""\u0000\u001f\u007f\u0080\u009f~é\"\\\n\r\t/""#, As::Truth, r#"expected true or false, found "\u0000\u001f\u007f\u0080\u009f~é\"\\\n\r\t/""#)
    ("\"\u{ad}\u{202e}\u{2028}\u{200b}\u{feff}é\"", As::Truth, r#"expected true or false, found "\u00ad\u202e\u2028\u200b\ufeffé""#)
};

/// As `UNSIGNED`, read as types with parts.
const CONTAINERS: &[(&str, As, &str)] = rows! {
    ("[]", As::Lists, "[]")
    ("[[1,2],[],[3]]", As::Lists, "[[1,2],[],[3]]")
    ("5", As::Lists, "expected an array, found 5")
    ("[[1],[2,3,{}]]", As::Lists, "/1/2: expected an integer from 0 to 65535, found an empty object")
    ("[[1],null]", As::Lists, "/1: expected an array, found null")
    (r#"{"b":[2],"":[1,2]}"#, As::Tree, r#"{"":[1,2],"b":[2]}"#)
    ("[]", As::Tree, "expected an object, found an empty array")
    (r#"{"":[1,-1]}"#, As::Tree, "//1: expected an integer from 0 to 65535, found -1")
    (r#"{"a/b~c":[1,true]}"#, As::Tree, "/a~1b~0c/1: expected an integer from 0 to 65535, found true")
    (r#"{"~1":5}"#, As::Tree, "/~01: expected an array, found 5")
    (r#"{"0123456789012345678901234567890123456789":[[7]]}"#, As::Tree, "/0123456789012345678901234567890123456789/0: expected an integer from 0 to 65535, found an array of 1 element")
    (r#"{"a\u001b\"":{"b":1}}"#, As::Tree, r#"/a\u001b\": expected an array, found an object of 1 entry"#)
    ("65535", As::Boxed, "65535")
    ("65536", As::Boxed, "expected an integer from 0 to 65535, found 65536")
    (r#"[255,["a",true]]"#, As::Pair, r#"[255,["a",true]]"#)
    (r#"[1,["a",0]]"#, As::Pair, "/1/1: expected true or false, found 0")
    ("[1]", As::Pair, "expected an array of 2 elements, found an array of 1 element")
    ("[1,[],2]", As::Pair, "expected an array of 2 elements, found an array of 3 elements")
    (r#"{"a":1,"b":2}"#, As::Pair, "expected an array of 2 elements, found an object of 2 entries")
    (r#"[7,"a",true]"#, As::Triple, r#"[7,"a",true]"#)
    (r#"[7,"a"]"#, As::Triple, "expected an array of 3 elements, found an array of 2 elements")
    (r#"[7,"a",1]"#, As::Triple, "/2: expected true or false, found 1")
    (r#"{"small":null,"value":null}"#, As::Unset, r#"{"small":7,"value":true}"#)
    ("{}", As::Unset, r#"{"small":7,"value":true}"#)
    (r#"{"small":1,"value":[]}"#, As::Unset, r#"{"small":1,"value":[]}"#)
    (r#"{"a":true}"#, As::Flags, r#"{"a":true}"#)
    ("{}", As::Flags, "{}")
    ("[1,2]", As::Flags, "expected an object, found an array of 2 elements")
    (r#"{"a":{"b":1,"c":2}}"#, As::Flags, "/a: expected true or false, found an object of 2 entries")
    ("[1,", As::Lists, "Unexpected end of JSON at (1:4)")
};

/// As `UNSIGNED`, read as structs.
const STRUCTS: &[(&str, As, &str)] = rows! {
    (r#"{"name":"a","lists":[],"price":1}"#, As::Sample, "a 7 none 0 10 0")
    (r#"{"name":"a","small":null,"cents":null,"lists":[],"price":1,"a/b~c":null}"#, As::Sample, "a 7 none 0 10 0")
    (r#"{"name":"b","small":1,"cents":19.9,"lists":[[1],[]],"price":-0.5,"a/b~c":{"x":80}}"#, As::Sample, "b 1 1990 2 -5 1")
    (r#"{"pin":8}"#, As::Login, "8")
    ("{}", As::Login, "/pin: missing, expected an integer from 0 to 255")
    (r#"{"pin":null}"#, As::Login, "/pin: expected an integer from 0 to 255, found null")
    (r#"{"pin":7}"#, As::Login, "/pin: expected another number, found a number")
    ("[]", As::Sample, "expected an object, found an empty array")
    ("{}", As::Sample, "/name: missing, expected a string")
    (r#"{"name":null}"#, As::Sample, "/name: expected a string, found null")
    (r#"{"name":"a"}"#, As::Sample, "/lists: missing, expected an array of at most 2 elements")
    (r#"{"name":"a","lists":null}"#, As::Sample, "/lists: expected an array, found null")
    (r#"{"name":"a","lists":[[],[],[]]}"#, As::Sample, "/lists: expected an array of at most 2 elements, found an array of 3 elements")
    (r#"{"name":"a","lists":[null,[],[]]}"#, As::Sample, "/lists: expected an array of at most 2 elements, found an array of 3 elements")
    (r#"{"y":1,"x":2}"#, As::Sample, "/y: unknown key, expected name, small, cents, lists, price, a/b~c")
    (r#"{"name":"a","lists":[[1],[2,null]]}"#, As::Sample, "/lists/1/1: expected an integer from 0 to 65535, found null")
    (r#"{"name":"a","nmae":1}"#, As::Sample, "/nmae: unknown key, expected name, small, cents, lists, price, a/b~c")
    (r#"{"~/":1}"#, As::Sample, "/~0~1: unknown key, expected name, small, cents, lists, price, a/b~c")
    (r#"{"name":"a","small":256}"#, As::Sample, "/small: expected an integer from 0 to 255, found 256")
    (r#"{"name":"a","small":0}"#, As::Sample, "/small: expected at least 1, found 0")
    (r#"{"name":""}"#, As::Sample, "/nick: missing, expected a second name")
    (r#"{"name":"a","cents":0.001}"#, As::Sample, "/cents: expected a price, found 0.001")
    (r#"{"name":"a","lists":[]}"#, As::Sample, "/price: missing, expected a number with at most 1 digit after the point")
    (r#"{"name":"a","lists":[],"price":0.25}"#, As::Sample, "/price: expected a number with at most 1 digit after the point, found 0.25")
    (r#"{"name":"a","lists":[],"price":1,"a/b~c":{"~/x":[1]}}"#, As::Sample, "/a~1b~0c/~0~1x: expected an integer from 0 to 65535, found an array of 1 element")
    (r#"{"name":"a","name":"b"}"#, As::Sample, "Duplicate key at (1:13)")
    ("{\"name\":\"a\n2026\"}", As::Sample, "Unexpected character: \\n at (1:11)")
};

/// What is left of a text after it was read, converted, read and converted again.
fn reread<T: FromJson + ToJson>(alloc: Global, text: &str) -> Result<String, Error> {
    let first: T = decode::from_text(alloc, text)?;
    let value = first.to_json(alloc)?;
    let second = T::from_json(alloc, &value)?;
    Ok(encode::to_text(alloc, &second)?)
}

/// The pin of a login.
fn pin_of(alloc: Global, text: &str) -> Result<String, Error> {
    let login: Login = decode::from_text(alloc, text)?;
    Ok(encode::to_text(alloc, &login.pin)?)
}

/// The parts of a sample.
fn parts_of(alloc: Global, text: &str) -> Result<String, Error> {
    let read: Sample = decode::from_text(alloc, text)?;
    let cents = match read.cents {
        Some(cents) => format!(in alloc; "{}", cents.0)?,
        None => String::from_str(alloc, "none")?,
    };
    let name = &read.name;
    let (lists, ports) = (read.lists.len(), read.ports.len());
    Ok(format!(in alloc;
        "{name} {} {cents} {lists} {} {ports}",
        read.small, read.price
    )?)
}

/// The result of a row; an error in a value is left without its place.
fn printed(alloc: Global, text: &str, kind: As) -> Result<String, Error> {
    match printed_as(alloc, text, kind) {
        Ok(text) => Ok(text),
        Err(error) => Err(error.at_place(None)),
    }
}

fn printed_as(alloc: Global, text: &str, kind: As) -> Result<String, Error> {
    match kind {
        As::U8 => reread::<u8>(alloc, text),
        As::U16 => reread::<u16>(alloc, text),
        As::U32 => reread::<u32>(alloc, text),
        As::U64 => reread::<u64>(alloc, text),
        As::Usize => reread::<usize>(alloc, text),
        As::I8 => reread::<i8>(alloc, text),
        As::I16 => reread::<i16>(alloc, text),
        As::I32 => reread::<i32>(alloc, text),
        As::I64 => reread::<i64>(alloc, text),
        As::Isize => reread::<isize>(alloc, text),
        As::Truth => reread::<bool>(alloc, text),
        As::Char => reread::<char>(alloc, text),
        As::Text => reread::<String>(alloc, text),
        As::Number => reread::<Number>(alloc, text),
        As::Value => reread::<JsonValue>(alloc, text),
        As::Maybe => reread::<Option<u16>>(alloc, text),
        As::Lists => reread::<Vec<Vec<u16>>>(alloc, text),
        As::Tree => reread::<BTreeMap<String, Vec<u16>>>(alloc, text),
        As::Flags => reread::<BTreeMap<String, bool>>(alloc, text),
        As::Boxed => reread::<Box<Box<u16>>>(alloc, text),
        As::Pair => reread::<(u8, (String, bool))>(alloc, text),
        As::Triple => reread::<(u8, String, bool)>(alloc, text),
        As::Unset => reread::<Unset>(alloc, text),
        As::Sample => parts_of(alloc, text),
        As::Login => pin_of(alloc, text),
    }
}

/// The result of a row is this text, or its error has this message.
fn expect_printed(
    rt: &impl Tester,
    row: &str,
    outcome: Result<String, Error>,
    want: &str,
) -> Tested {
    match outcome {
        Ok(found) => {
            expect_eq(rt, row, found.as_str(), want);
            Ok(())
        }
        Err(error) => expect_message(rt, row, &error, want),
    }
}

/// Each row is read, or refused.
fn expect_each(rt: &impl Tester, rows: &[(&str, As, &str)]) -> Tested {
    for (text, kind, want) in rows {
        expect_printed(rt, text, printed(rt.alloc(), text, *kind), want)?;
    }
    Ok(())
}

#[test]
fn reads_unsigned(rt: HostRuntime) -> Tested {
    expect_each(&rt, UNSIGNED)
}

#[test]
fn reads_signed(rt: HostRuntime) -> Tested {
    expect_each(&rt, SIGNED)
}

#[test]
fn reads_scalars(rt: HostRuntime) -> Tested {
    expect_each(&rt, SCALARS)
}

#[test]
fn reads_containers(rt: HostRuntime) -> Tested {
    expect_each(&rt, CONTAINERS)
}

#[test]
fn reads_structs(rt: HostRuntime) -> Tested {
    expect_each(&rt, STRUCTS)
}

/// A text that isn't read, and the message without the value that is there.
const HIDDEN: &[(&str, As, &str)] = rows! {
    (r#""hunter2""#, As::U8, "expected an integer from 0 to 255, found a string")
    (r#""01234567890123456789012345678901234567890""#, As::U8, "expected an integer from 0 to 255, found a string")
    ("256", As::U8, "expected an integer from 0 to 255, found a number")
    ("true", As::U8, "expected an integer from 0 to 255, found a boolean")
    ("null", As::U8, "expected an integer from 0 to 255, found null")
    ("[1]", As::U8, "expected an integer from 0 to 255, found an array of 1 element")
    ("{}", As::U8, "expected an integer from 0 to 255, found an empty object")
    (r#"{"name":"a","lists":[["b"]]}"#, As::Sample, "/lists/0/0: expected an integer from 0 to 65535, found a string")
    ("{}", As::Sample, "/name: missing, expected a string")
    (r#"{"a":1}"#, As::Sample, "/a: unknown key, expected name, small, cents, lists, price, a/b~c")
    ("[1,", As::Lists, "Unexpected end of JSON at (1:4)")
};

#[test]
fn hides_values(rt: HostRuntime) -> Tested {
    for (text, kind, want) in HIDDEN {
        match printed(rt.alloc(), text, *kind) {
            Ok(_found) => expect(&rt, text, false),
            Err(error) => expect_message(&rt, text, &error.without_value(), want)?,
        }
    }
    Ok(())
}

/// A message has 200 characters of a pointer.
#[test]
fn cuts_long_pointers(rt: HostRuntime) -> Tested {
    let alloc = rt.alloc();
    let text = joined(alloc, &[("{\"", 1), ("a", 150), ("b", 150), ("\":1}", 1)])?;
    let known = ": unknown key, expected name, small, cents, lists, price, a/b~c at (1:2)";
    let want = joined(
        alloc,
        &[("/", 1), ("a", 99), ("..", 1), ("b", 100), (known, 1)],
    )?;
    let read = decode::from_text::<Sample>(alloc, text.as_str());
    expect_refused(&rt, known, read, want.as_str())
}

#[test]
fn names_the_last_of_many(rt: HostRuntime) -> Tested {
    let alloc = rt.alloc();
    let text = joined(alloc, &[("[", 1), ("0,", 9999), ("256]", 1)])?;
    match decode::from_text::<Vec<u8>>(alloc, text.as_str()) {
        Ok(_read) => expect(&rt, "256", false),
        Err(error) => {
            expect_eq(&rt, "256", error.pointer(), "/9999");
            expect_eq(
                &rt,
                "256",
                error.place().map(|place| place.offset),
                Some(19_999),
            );
        }
    }
    Ok(())
}

/// A text that the usual reading takes and the strict and exact one doesn't, and the result.
const USUAL: &[(&str, &str)] = rows! {
    (r#"{"a":1,"a":2}"#, r#"{"a":2}"#)
    (r#"{"a":18446744073709551616}"#, "/a: expected an integer from 0 to 18446744073709551615, found 18446744073709551610, of which digits may be cut at (1:6)")
    (r#"{"a":100.00000000000000000001}"#, "/a: expected an integer from 0 to 18446744073709551615, found 100.00000000000000000, of which digits may be cut at (1:6)")
    (r#"{"a":1844674407370955160e1}"#, r#"{"a":18446744073709551600}"#)
    (r#"{"a":1844674407370955161e1}"#, "/a: expected an integer from 0 to 18446744073709551615, found 18446744073709551610, of which digits may be cut at (1:6)")
    (r#"{"a":18446744073709551615}"#, r#"{"a":18446744073709551615}"#)
    (r#"{"a":-1e20}"#, "/a: expected an integer from 0 to 18446744073709551615, found -1e20 at (1:6)")
};

fn usual(alloc: Global, text: &str) -> Result<String, Error> {
    let map: BTreeMap<String, u64> = decode::from_text_as(alloc, text, &Reading::USUAL)?;
    Ok(encode::to_text(alloc, &map)?)
}

#[test]
fn reads_by_the_given_reading(rt: HostRuntime) -> Tested {
    for (text, want) in USUAL {
        expect_printed(&rt, text, usual(rt.alloc(), text), want)?;
    }
    Ok(())
}

/// A text that isn't read, and the kind and the message of its error as an `io::Error`, whose
/// 80 bytes end with dots if the message has more.
const RAISED: &[(&str, As, ErrorKind, &str)] = rows! {
    ("", As::U8, ErrorKind::UnexpectedEof, "Unexpected end of JSON at (1:1)")
    ("x", As::U8, ErrorKind::InvalidData, "Unexpected character: x at (1:1)")
    ("256", As::U8, ErrorKind::InvalidData, "expected an integer from 0 to 255, found 256")
    ("{}", As::Sample, ErrorKind::InvalidData, "/name: missing, expected a string")
    (r#"{"a":1}"#, As::Sample, ErrorKind::InvalidData, "/a: unknown key, expected name, small, cents, lists, price, a/b~c")
    (r#"{"0123456789012345678901234567890123456789":7}"#, As::Tree, ErrorKind::InvalidData, "/0123456789012345678901234567890123456789: expected an array, found 7")
    (r#"{"0123456789012345678901234567890123456789012345678901":7}"#, As::Tree, ErrorKind::InvalidData, "/0123456789012345678901234567890123456789012345678901: expected an array, fou...")
    (r#"{"0123456789012345678901234567890123456789012345678901234567890123456789012345678901234567":7}"#, As::Tree, ErrorKind::InvalidData, "/0123456789012345678901234567890123456789012345678901234567890123456789012345...")
};

#[test]
fn raises_io_errors(rt: HostRuntime) -> Tested {
    for (text, kind, io_kind, message) in RAISED {
        match printed(rt.alloc(), text, *kind) {
            Ok(_found) => expect(&rt, text, false),
            Err(error) => expect_raised(&rt, text, error, *io_kind, message)?,
        }
    }
    let raised = io::Error::from(Error::MEMORY);
    expect_eq(&rt, "memory", raised.kind(), ErrorKind::OutOfMemory);
    Ok(())
}

/// A value, what it is read as, the number of allocations, and the pointer of the error. Each list,
/// string and entry of a map is allocated, an error, and its pointer again for each step.
const ALLOCATING: &[(&str, As, usize, Option<&str>)] = rows! {
    (r#""abc""#, As::Text, 1, None)
    (r#""abc""#, As::U8, 2, Some(""))
    ("[[1],[2,3]]", As::Lists, 3, None)
    ("[[1],[2,null]]", As::Lists, 6, Some("/1/1"))
    (r#"[["01234567890123456789012345678901234567890"]]"#, As::Lists, 5, Some("/0/0"))
    (r#"{"name":"a","lists":[[1]],"price":1}"#, As::Sample, 3, None)
    (r#"{"name":"a","lists":[["b"]],"price":1}"#, As::Sample, 8, Some("/lists/0/0"))
    ("{}", As::Sample, 2, Some("/name"))
    ("{}", As::Login, 3, Some("/pin"))
    (r#"{"b":1}"#, As::Sample, 2, Some("/b"))
};

fn taken<T: FromJson>(alloc: Global, value: &JsonValue) -> Result<(), Error> {
    let _read = T::from_json(alloc, value)?;
    Ok(())
}

fn take(alloc: Global, value: &JsonValue, kind: As) -> Result<(), Error> {
    match kind {
        As::Text => taken::<String>(alloc, value),
        As::Lists => taken::<Vec<Vec<u16>>>(alloc, value),
        As::Sample => taken::<Sample>(alloc, value),
        As::Login => taken::<Login>(alloc, value),
        _ => taken::<u8>(alloc, value),
    }
}

/// One run. Whether an allocation failed: then this is the error.
fn run(
    rt: &impl Tester,
    value: &JsonValue,
    kind: As,
    pointer: Option<&str>,
    refusals: &mut Refusals,
) -> Result<bool, Fail> {
    refusals.begin();
    let outcome = take(rt.alloc(), value, kind);
    let has_failed = refusals.has_failed();
    match outcome {
        Ok(()) => {
            expect(rt, "no error", !has_failed);
            expect_eq(rt, "pointer", None, pointer);
        }
        Err(error) if has_failed => expect(rt, "memory", error.is_memory()),
        Err(error) => expect_eq(rt, "pointer", Some(error.pointer()), pointer),
    }
    Ok(has_failed)
}

#[test]
fn reads_under_refusals(rt: HostRuntime) -> Tested {
    for (text, kind, count, pointer) in ALLOCATING {
        let value = jzon::parse(rt.alloc(), text)?;
        let mut refusals = Refusals::new(rt.alloc());
        for _ in 0..RUNS_MAX {
            refusals.open();
            let has_failed = run(&rt, &value, *kind, *pointer, &mut refusals)?;
            refusals.close();
            if !has_failed {
                break;
            }
        }
        refusals.report(&rt, text, *count)?;
    }
    Ok(())
}
