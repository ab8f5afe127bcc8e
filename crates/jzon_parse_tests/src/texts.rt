//! Texts of each kind: the parts and the compact text of what is read, and the kind and position of
//! each error.
ghost use Rattle.std.specs.Prelude.{◌≡◌, IfOk, string_bytes};
ghost use Rattle.jzon_tree.specs.Text.{compact};
ghost use Rattle.jzon.specs.Laws.{IsReadAs};
ghost use Rattle.jzon.specs.Reading.{usual};

use crate::common::{expect, expect_dump, expect_eq, expect_read, expect_rejected};
use jzon::{JsonValue, laws, parse};
use jzon_test_support::{joined, rows};
use std::alloc::{AllocError, Global};
use std::process::Abort;
use std::test::Fail;

fn parts_of(value: &JsonValue) -> Option<(bool, u64, i16)> {
    match value {
        JsonValue::Number(number) => Some(number.as_parts()),
        _ => None,
    }
}

/// A text, the parts of its number, and the dump of its value.
const LITERALS_AND_NUMBERS: &[(&str, Option<(bool, u64, i16)>, &str)] = rows! {
    ("null", None, "null")
    ("true", None, "true")
    ("false", None, "false")
    (" \t\r\n null \n", None, "null")
    ("\u{b}1", Some((true, 1, 0)), "1")
    ("\u{c}1\u{c}", Some((true, 1, 0)), "1")
    ("-12.50e3", Some((false, 1250, 1)), "-12500")
    ("18446744073709551615", Some((true, 18446744073709551615, 0)), "18446744073709551615")
    ("18446744073709551615.5", Some((true, 18446744073709551615, 0)), "18446744073709551615")
    ("184467440737095516165", Some((true, 1844674407370955161, 2)), "1.844674407370955161e20")
    ("2.22507385850720113605740979670913197593481954635164564e-308", Some((true, 2225073858507201136, -326)),
        "2.225073858507201136e-308")
    ("18446744073709551616", Some((true, 1844674407370955161, 1)), "18446744073709551610")
    ("184467440737095516.165", Some((true, 1844674407370955161, -1)), "184467440737095516.1")
    ("1.2e32768", Some((true, 12, 32767)), "1.2e32768")
    ("1e-32768", Some((true, 1, -32768)), "1e-32768")
    ("1e-32769", Some((true, 1, -32768)), "1e-32768")
    ("1e123456789012", Some((true, 1, 32767)), "1e32767")
    ("1e-123456789012", Some((true, 1, -32768)), "1e-32768")
    ("1e000000000000000000007", Some((true, 1, 7)), "10000000")
    ("1.50", Some((true, 150, -2)), "1.50")
    ("100e-2", Some((true, 100, -2)), "1.00")
    ("0e5", Some((true, 0, 5)), "0")
    ("-0", Some((false, 0, 0)), "-0")
    ("0.0", Some((true, 0, -1)), "0")
    ("5E2", Some((true, 5, 2)), "500")
    ("5e+2", Some((true, 5, 2)), "500")
    ("5E+2", Some((true, 5, 2)), "500")
    ("5e-2", Some((true, 5, -2)), "0.05")
    ("5E-2", Some((true, 5, -2)), "0.05")
    ("7e70", Some((true, 7, 70)), "7e70")
    ("5e19", Some((true, 5, 19)), "50000000000000000000")
    ("50000000000000000000", Some((true, 5000000000000000000, 1)), "50000000000000000000")
    ("1e-18", Some((true, 1, -18)), "1e-18")
};

#[test]
fn reads_literals_and_numbers(rt: HostRuntime) -> Result<(), Fail> {
    for (text, parts, dump) in LITERALS_AND_NUMBERS {
        let value = parse(rt.alloc(), text)?;
        expect_eq(&rt, text, parts_of(&value), *parts);
        expect_dump(&rt, rt.alloc(), &value, dump);
    }
    Ok(())
}

/// A prefix, what is repeated after it and how often, what comes last, and the parts of the number.
const LONG_NUMBERS: &[(&str, &str, usize, &str, (bool, u64, i16))] = &[
    ("1e", "9", 60, "", (true, 1, 32767)),
    ("1e", "9", 1000000, "", (true, 1, 32767)),
    ("1e-", "9", 1000000, "", (true, 1, -32768)),
    ("8", "0", 32785, "", (true, 8000000000000000000, 32767)),
    ("8", "0", 32785, "e-32767", (true, 8000000000000000000, 0)),
    ("8", "0", 32785, "e1", (true, 8000000000000000000, 32767)),
    ("0.", "0", 32768, "", (true, 0, -32768)),
    ("0.", "0", 32767, "1", (true, 1, -32768)),
    ("9.", "9", 40000, "", (true, 9999999999999999999, -18)),
    ("0.", "0", 32768, "e32768", (true, 0, 0)),
];

#[test]
fn reads_long_numbers(rt: HostRuntime) -> Result<(), Fail> {
    for (prefix, repeated, count, back, parts) in LONG_NUMBERS {
        let text = joined(rt.alloc(), &[(prefix, 1), (repeated, *count), (back, 1)])?;
        let value = parse(rt.alloc(), text.as_str())?;
        expect_eq(&rt, back, parts_of(&value), Some(*parts));
    }
    Ok(())
}

#[test]
fn reads_one_number_from_several_texts(rt: HostRuntime) -> Result<(), Fail> {
    let alloc = rt.alloc();
    let text = joined(alloc, &[("8", 1), ("0", 32785), ("e-32767", 1)])?;
    let number = parse(alloc, text.as_str())?;
    expect_eq(&rt, "as_u64", number.as_u64(), Some(8000000000000000000));
    expect(&rt, "8e18", number == parse(alloc, "8e18")?);
    let number = parse(alloc, "50000000000000000000")?;
    expect(&rt, "5e19", number == parse(alloc, "5e19")?);
    Ok(())
}

/// A text, and the message of its first fault.
const REJECTED: &[(&str, &str)] = &[
    // Ends and wrong turns.
    ("", "Unexpected end of JSON"),
    ("  ", "Unexpected end of JSON"),
    ("-", "Unexpected end of JSON"),
    ("1.", "Unexpected end of JSON"),
    ("1e", "Unexpected end of JSON"),
    ("1E+", "Unexpected end of JSON"),
    ("tru", "Unexpected end of JSON"),
    ("n", "Unexpected end of JSON"),
    ("fals", "Unexpected end of JSON"),
    ("\u{feff}1", "Unexpected character: \u{feff} at (1:1)"),
    ("\n\nnulX\n", "Unexpected character: X at (3:4)"),
    ("\n\nnul🦄\n", "Unexpected character: 🦄 at (3:4)"),
    ("01", "Unexpected character: 1 at (1:2)"),
    ("-01", "Unexpected character: 1 at (1:3)"),
    ("1.e", "Unexpected character: e at (1:3)"),
    // Wrong characters.
    ("1e+-", "Unexpected character: - at (1:4)"),
    ("1ee", "Unexpected character: e at (1:3)"),
    ("1 2", "Unexpected character: 2 at (1:3)"),
    ("1.5.2", "Unexpected character: . at (1:4)"),
    ("-a", "Unexpected character: a at (1:2)"),
    ("+1", "Unexpected character: + at (1:1)"),
    (".5", "Unexpected character: . at (1:1)"),
    ("0x14", "Unexpected character: x at (1:2)"),
    ("NULL", "Unexpected character: N at (1:1)"),
    ("nullé", "Unexpected character: é at (1:5)"),
    ("é", "Unexpected character: é at (1:1)"),
    ("true\u{a0}", "Unexpected character: \u{a0} at (1:5)"),
    ("\r}", "Unexpected character: } at (1:2)"),
    ("\r\n}", "Unexpected character: } at (2:1)"),
    ("]", "Unexpected character: ] at (1:1)"),
    ("1,", "Unexpected character: , at (1:2)"),
    ("å", "Unexpected character: å at (1:1)"),
    ("[C3A9] <=> [é]", "Unexpected character: C at (1:2)"),
    // Strings.
    ("\"", "Unexpected end of JSON"),
    ("\"ab", "Unexpected end of JSON"),
    ("\"a\\", "Unexpected end of JSON"),
    ("\"\\uD834\\uDD1", "Unexpected end of JSON"),
    ("\"\\x\"", "Unexpected character: x at (1:3)"),
    ("\"a\n\"", "Unexpected character: \n at (1:3)"),
    ("\"\\uD834\"", "Unexpected character: \" at (1:8)"),
    ("\"\\uD834 \\uDD1E\"", "Unexpected character:   at (1:8)"),
    ("\"\\uDC00\\uDC00\"", "Failed to parse UTF-8 bytes"),
    ("\"\\uD834\\u00\"", "Unexpected character: \" at (1:12)"),
    ("\"\\uD834\\n\"", "Unexpected character: n at (1:9)"),
    ("\"\\uDC00\\uDC0G\"", "Unexpected character: G at (1:13)"),
    ("\"\\u12G4\"", "Unexpected character: G at (1:6)"),
    ("\"é\" x", "Unexpected character: x at (1:5)"),
    ("\"\\u12", "Unexpected end of JSON"),
    ("\"\\uD834", "Unexpected end of JSON"),
    ("\"\\né\n\"", "Unexpected character: \n at (1:5)"),
    ("\"\\uDD1E\\uD834\"", "Failed to parse UTF-8 bytes"),
    ("\"\\uD834\\u0041\"", "Failed to parse UTF-8 bytes"),
    // Containers.
    ("[", "Unexpected end of JSON"),
    ("{", "Unexpected end of JSON"),
    ("[1", "Unexpected end of JSON"),
    ("[1,", "Unexpected end of JSON"),
    ("{\"a\"", "Unexpected end of JSON"),
    ("{\"a\":", "Unexpected end of JSON"),
    ("{\"a\":1", "Unexpected end of JSON"),
    ("{\"a\":1,", "Unexpected end of JSON"),
    ("[\n}", "Unexpected character: } at (2:1)"),
    (
        "\n  [\n    null,\n  ]  \n",
        "Unexpected character: ] at (4:3)",
    ),
    ("[}", "Unexpected character: } at (1:2)"),
    ("[,]", "Unexpected character: , at (1:2)"),
    ("[1,]", "Unexpected character: ] at (1:4)"),
    ("[1,,2]", "Unexpected character: , at (1:4)"),
    ("[1 2]", "Unexpected character: 2 at (1:4)"),
    ("[1]]", "Unexpected character: ] at (1:4)"),
    // Elements and members.
    ("[]1", "Unexpected character: 1 at (1:3)"),
    ("[0x14]", "Unexpected character: x at (1:3)"),
    ("['a']", "Unexpected character: ' at (1:2)"),
    ("[+1]", "Unexpected character: + at (1:2)"),
    ("[é]", "Unexpected character: é at (1:2)"),
    ("[\"é\" x]", "Unexpected character: x at (1:6)"),
    ("[\"\\uDC00\\uDC00\"}", "Failed to parse UTF-8 bytes"),
    ("{]", "Unexpected character: ] at (1:2)"),
    ("{,}", "Unexpected character: , at (1:2)"),
    ("{1", "Unexpected character: 1 at (1:2)"),
    ("{a:1}", "Unexpected character: a at (1:2)"),
    ("{\"a\" 1}", "Unexpected character: 1 at (1:6)"),
    ("{\"a\":}", "Unexpected character: } at (1:6)"),
    ("{\"a\":1,}", "Unexpected character: } at (1:8)"),
    ("{\"a\":1 \"b\"}", "Unexpected character: \" at (1:8)"),
    ("{\"a\":[1}", "Unexpected character: } at (1:8)"),
    ("{\"a\":1]", "Unexpected character: ] at (1:7)"),
    ("[1.]", "Unexpected character: ] at (1:4)"),
    // What only looks like JSON.
    (r"[\bare]", "Unexpected character: \\ at (1:2)"),
    (r#"["octal \017"]"#, "Unexpected character: 0 at (1:10)"),
    (
        r#"{"two colons":: null}"#,
        "Unexpected character: : at (1:15)",
    ),
    (r#"{"a comma", null}"#, "Unexpected character: , at (1:11)"),
    (r#"["a colon": false]"#, "Unexpected character: : at (1:11)"),
    ("[\"\ttab\"]", "Unexpected character: \t at (1:3)"),
    ("[\"tab\\\t\"]", "Unexpected character: \t at (1:7)"),
    ("[\"line\\\nbreak\"]", "Unexpected character: \n at (1:8)"),
    ("[0e]", "Unexpected character: ] at (1:4)"),
    ("[0e+]", "Unexpected character: ] at (1:5)"),
    (r#"["open""#, "Unexpected end of JSON"),
    (r#"{"call": g()}"#, "Unexpected character: g at (1:10)"),
    (r#"{"sum": 1 + 2}"#, "Unexpected character: + at (1:11)"),
];

#[test]
fn reports_the_first_fault_of_a_text(rt: HostRuntime) {
    for (text, message) in REJECTED {
        expect_rejected(&rt, rt.alloc(), text, parse(rt.alloc(), text), message);
    }
}

/// After these a string isn't among the last bytes of a text.
const SPACES: &str = "                                        ";

/// The text is a string of these bytes, stored inline if `is_inline`, with this dump.
fn expect_string(
    rt: &impl Abort,
    alloc: Global,
    text: &str,
    is_inline: bool,
    content: &str,
    dump: &str,
) -> Result<(), Fail> {
    let value = parse(alloc, text)?;
    let is_short = matches!(value, JsonValue::Short(_));
    expect(rt, text, is_inline == is_short);
    expect_eq(rt, text, value.as_str(), Some(content));
    expect_dump(rt, alloc, &value, dump);
    Ok(())
}

/// A text, whether its string is stored inline, its bytes, and its dump.
const STRINGS: &[(&str, bool, &str, &str)] = &[
    ("\"\"", true, "", "\"\""),
    (
        "\"\\r\\n\\t\\b\\f\\\\\\/\\\"\"",
        true,
        "\r\n\t\u{8}\u{c}\\/\"",
        "\"\\r\\n\\t\\b\\f\\\\/\\\"\"",
    ),
    (
        "\"\\u2764\\ufe0f\"",
        true,
        "\u{2764}\u{fe0f}",
        "\"\u{2764}\u{fe0f}\"",
    ),
    ("\"\\u0000\"", true, "\u{0}", "\"\\u0000\""),
    ("\"\\uD834\\uDD1E\"", true, "\u{1d11e}", "\"\u{1d11e}\""),
    ("\"\\ud834\\udd1e\"", true, "\u{1d11e}", "\"\u{1d11e}\""),
    ("\"\u{7f}/\"", true, "\u{7f}/", "\"\u{7f}/\""),
    (
        "\"foo\\u001fbar\\u0000baz\"",
        true,
        "foo\u{1f}bar\u{0}baz",
        "\"foo\\u001fbar\\u0000baz\"",
    ),
    (" \"a\" ", true, "a", "\"a\""),
    (
        "\"abcdefghijklmnopqrstuvwxyz0123\"",
        true,
        "abcdefghijklmnopqrstuvwxyz0123",
        "\"abcdefghijklmnopqrstuvwxyz0123\"",
    ),
    (
        "\"abcdefghijklmnopqrstuvwxyz01234\"",
        false,
        "abcdefghijklmnopqrstuvwxyz01234",
        "\"abcdefghijklmnopqrstuvwxyz01234\"",
    ),
    (
        "\"abcdefghijklmnopqrstuvwxyz012\\n4\"",
        false,
        "abcdefghijklmnopqrstuvwxyz012\n4",
        "\"abcdefghijklmnopqrstuvwxyz012\\n4\"",
    ),
    (
        "\"ééééééééééééééé\"",
        true,
        "ééééééééééééééé",
        "\"ééééééééééééééé\"",
    ),
    (
        "\"éééééééééééééééé\"",
        false,
        "éééééééééééééééé",
        "\"éééééééééééééééé\"",
    ),
    ("\"a\\u00e9\\\\b\"", true, "aé\\b", "\"aé\\\\b\""),
    ("\"é\\né\"", true, "é\né", "\"é\\né\""),
    ("\"a\\u00E9b\\u00e9c\"", true, "aébéc", "\"aébéc\""),
];

#[test]
fn reads_strings(rt: HostRuntime) -> Result<(), Fail> {
    for (text, is_inline, content, dump) in STRINGS {
        expect_string(&rt, rt.alloc(), text, *is_inline, content, dump)?;
        let longer = format!(in rt.alloc(); "{text}{SPACES}")?;
        expect_string(&rt, rt.alloc(), longer.as_str(), *is_inline, content, dump)?;
    }
    Ok(())
}

/// A text with each form of the grammar but surrogate pairs.
const EACH_FORM: &str = r#"
[
  "a pattern", {"one member":["one item"]}, {}, [], -42, true, false, null,
  {"real": -9876.543210, "e": 0.123456789e-12, "E": 1.234567890E+34, "": 23456789012E66,
   "controls": "\b\f\n\r\t", "slash": "/ & \/", "special": "`~!@#$%^&*()_+-={':[,]}|;.</>?",
   "hex": "\u0123\uCDEF\uabcd", "array":[  ], "object":{  }, " s p a c e d " :[1,2 , 3

,

4 ], "\/\\\"\uCAFE\b`"
: "a key can be any text"},
  0.5 ,98.6
,
99.44
,

1e1, 0.1e1, 1e-1, 1e00,2e+00,2e-00
,"the end"]

"#;

const EACH_FORM_DUMP: &str = concat!(
    r#"["a pattern",{"one member":["one item"]},{},[],-42,true,false,null,"#,
    r#"{"real":-9876.543210,"e":1.23456789e-13,"E":1.234567890e34,"":2.3456789012e76,"#,
    r#""controls":"\b\f\n\r\t","slash":"/ & /","special":"`~!@#$%^&*()_+-={':[,]}|;.</>?","#,
    r#""hex":"ģ췯ꯍ","array":[],"object":{}," s p a c e d ":[1,2,3,4],"#,
    r#""/\\\"쫾\b`":"a key can be any text"},"#,
    r#"0.5,98.6,99.44,10,1,0.1,1,2,2,"the end"]"#
);

/// 19 arrays, one in another.
const NESTED: &str = "[[[[[[[[[[[[[[[[[[[\"innermost\"]]]]]]]]]]]]]]]]]]]";

/// An object in an object, with empty lines before and after it.
const OUTER: &str =
    "\n\n{\n    \"outer\": {\n        \"a\": \"an object.\",\n        \"b c\": \"It ends.\"\n    }\n}\n\n";

const OUTER_DUMP: &str = "{\"outer\":{\"a\":\"an object.\",\"b c\":\"It ends.\"}}";

/// A text, and the dump of its value.
const ARRAYS_AND_OBJECTS: &[(&str, &str)] = &[
    ("[]", "[]"),
    ("{}", "{}"),
    (" [ \t] ", "[]"),
    ("{\n}", "{}"),
    ("[1,true,\"three\"]", "[1,true,\"three\"]"),
    (" [ 1 , 2 ] ", "[1,2]"),
    ("[[],[[]],{},[{}]]", "[[],[[]],{},[{}]]"),
    ("[[1],2]", "[[1],2]"),
    ("{ \"a\" : 1 , \"b\" : [ null ] }", "{\"a\":1,\"b\":[null]}"),
    ("{\"a\":{\"b\":{\"c\":-0}}}", "{\"a\":{\"b\":{\"c\":-0}}}"),
    ("{\"\":0}", "{\"\":0}"),
    ("{\"\\n\":\"\\t\"}", "{\"\\n\":\"\\t\"}"),
    (
        "{ \"foo\": 0, \"bar\": 1, \"foo\": 2 }",
        "{\"foo\":2,\"bar\":1}",
    ),
    ("{\"a\":{\"a\":1},\"a\":[]}", "{\"a\":[]}"),
    ("{\"a\":1,\"\\u0061\":2}", "{\"a\":2}"),
    (
        "{\"b\":1,\"a\":2,\"b\":3,\"c\":4,\"b\":5}",
        "{\"b\":5,\"a\":2,\"c\":4}",
    ),
    (
        "{\"abcdefghijklmnopqrstuvwxyz0123456\":1,\"abcdefghijklmnopqrstuvwxyz0123456\":2}",
        "{\"abcdefghijklmnopqrstuvwxyz0123456\":2}",
    ),
    (
        "{\"x\\ty\":\"z\",\"w\":\"\\u0041\"}",
        "{\"x\\ty\":\"z\",\"w\":\"A\"}",
    ),
    (NESTED, NESTED),
    (OUTER, OUTER_DUMP),
    (EACH_FORM, EACH_FORM_DUMP),
];

#[test]
fn reads_arrays_and_objects(rt: HostRuntime) {
    for (text, dump) in ARRAYS_AND_OBJECTS {
        expect_read(&rt, rt.alloc(), text, dump);
    }
}

/// A string with this escape after `position` letters, and with letters after it, 70 in all.
fn with_escape(alloc: Global, escape: &str, position: usize) -> Result<String, AllocError> {
    let left = 70usize.saturating_sub(position);
    joined(
        alloc,
        &[
            ("\"", 1),
            ("a", position),
            (escape, 1),
            ("b", left),
            ("\"", 1),
        ],
    )
}

/// An escape, or `é`, and how it is printed.
const WRITTEN: &[(&str, &str)] = &[
    ("\\n", "\\n"),
    ("\\u001f", "\\u001f"),
    ("\\uD834\\uDD1E", "\u{1d11e}"),
    ("\\/", "/"),
    ("é", "é"),
];

/// At each offset of the 32-byte blocks in which plain bytes are looked for.
#[test]
fn reads_and_prints_an_escape_at_each_position(rt: HostRuntime) -> Result<(), Fail> {
    for (written, printed) in WRITTEN {
        for position in 0..=70 {
            let text = with_escape(rt.alloc(), written, position)?;
            let dump = with_escape(rt.alloc(), printed, position)?;
            expect_read(&rt, rt.alloc(), text.as_str(), dump.as_str());
        }
    }
    Ok(())
}

#[test]
fn rejects_a_control_at_each_position(rt: HostRuntime) -> Result<(), Fail> {
    for position in 0..=70usize {
        let text = with_escape(rt.alloc(), "\n", position)?;
        let column = position.saturating_add(2);
        let message = format!(in rt.alloc(); "Unexpected character: \n at (1:{column})")?;
        let outcome = parse(rt.alloc(), text.as_str());
        expect_rejected(&rt, rt.alloc(), text.as_str(), outcome, message.as_str());
    }
    Ok(())
}

/// The brackets, how many of each, the value inside, and its dump.
const OPEN: &[(&str, &str, usize, &str, &str)] = &[
    ("[", "]", 512, "null", "null"),
    ("[{\"a\":", "}]", 256, "null", "null"),
    ("[", "]", 512, "[]", "[]"),
    ("[", "]", 512, "[ ]", "[]"),
    ("{\"a\":", "}", 512, "{ }", "{}"),
];

#[test]
fn reads_512_open_containers(rt: HostRuntime) -> Result<(), Fail> {
    for (open, close, count, inside, dump) in OPEN {
        let text = joined(rt.alloc(), &[(open, *count), (inside, 1), (close, *count)])?;
        let printed = joined(rt.alloc(), &[(open, *count), (dump, 1), (close, *count)])?;
        expect_read(&rt, rt.alloc(), text.as_str(), printed.as_str());
    }
    Ok(())
}

/// A caller's proof knows that the printed text is read again, as a value that prints this text.
fn printed_again(alloc: Global, text: &str) -> jzon::Result<String>
    ensures { IfOk result (λ printed. IsReadAs usual (string_bytes printed)
        (λ v. compact v ≡ string_bytes printed)) }
{
    let value = parse(alloc, text)?;
    laws::redump();
    let printed = value.dump(alloc)?;
    Ok(printed)
}

#[test]
fn prints_what_is_read(rt: HostRuntime) -> Result<(), Fail> {
    let printed = printed_again(rt.alloc(), " { \"a\" : [ 1.50 ] } ")?;
    expect_eq(&rt, "printed", printed.as_str(), "{\"a\":[1.50]}");
    let again = printed_again(rt.alloc(), printed.as_str())?;
    expect_eq(&rt, "again", again.as_str(), printed.as_str());
    Ok(())
}
