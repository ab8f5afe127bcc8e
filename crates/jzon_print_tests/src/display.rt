//! What `{}` shows, also to a formatter that fails.

use crate::common::{EACH_KIND, Tested, Tester, display, expect, is_text};
use jzon::number::NAN;
use jzon::{JsonValue, Result, array, parse};
use jzon_test_support::{NO_FAILING_CALL, joined, show_failing};
use std::alloc::Global;

/// A text, and what is shown of its value.
const SHOWN: &[(&str, &str)] = &[
    ("\"foobar\"", "foobar"),
    ("42", "42"),
    ("true", "true"),
    ("false", "false"),
    ("null", "null"),
    ("[1, true, \"three\"]", "[1,true,\"three\"]"),
    (
        "{\"foo\": \"bar\", \"answer\": 42}",
        "{\"foo\":\"bar\",\"answer\":42}",
    ),
    ("\"a\\n\\\"\\u0001é\"", "a\n\"\u{1}é"),
    ("[\"a\\n\\\"\\u001fé\"]", "[\"a\\n\\\"\\u001fé\"]"),
    ("[[], {}, [[]]]", "[[],{},[[]]]"),
    (
        "\"a text of more than thirty bytes\\\\\"",
        "a text of more than thirty bytes\\",
    ),
    ("-12.50e3", "-12500"),
    (
        "{\"a\\n\":[1.50,true,\"b\\u0001\\\"c\"],\"d\":{},\"e\":null}",
        "{\"a\\n\":[1.50,true,\"b\\u0001\\\"c\"],\"d\":{},\"e\":null}",
    ),
];

/// What `{:?}` shows of an object: its entries as a map, by the derived forms of each type.
const DEBUGGED: (&str, &str) = (
    "{\"a\":[true,null],\"b\":\"c\"}",
    "Object(Object { pairs: {\"a\": Array([Boolean(true), Null]), \"b\": Short(\"c\")} })",
);

fn expect_shown(rt: &impl Tester, value: &JsonValue, text: &str) {
    expect(rt, text, is_text(display(rt.alloc(), value), text));
}

#[test]
fn shows(rt: HostRuntime) -> Tested {
    let alloc = rt.alloc();
    for (source, text) in SHOWN {
        expect_shown(&rt, &parse(alloc, source)?, text);
    }
    expect_shown(&rt, &JsonValue::Number(NAN), "nan");
    expect_shown(&rt, &array![alloc; JsonValue::Number(NAN)], "[null]");
    let value = parse(alloc, DEBUGGED.0)?;
    expect(
        &rt,
        DEBUGGED.1,
        format!(in alloc; "{value:?}")?.as_str() == DEBUGGED.1,
    );
    Ok(())
}

/// The formatter fails at this call: there is an error, a prefix was shown, and nothing is shown
/// after it.
fn expect_failure(rt: &impl Tester, value: &JsonValue, whole: &str, call: usize) {
    let (is_shown, formatter) = show_failing(rt.alloc(), value, call);
    expect(rt, whole, !is_shown && formatter.calls == call);
    expect(rt, whole, whole.starts_with(formatter.text.as_str()));
}

/// The value is shown whole by this many calls of the formatter.
fn calls_of(rt: &impl Tester, value: &JsonValue, whole: &str) -> usize {
    let (is_shown, formatter) = show_failing(rt.alloc(), value, NO_FAILING_CALL);
    expect(rt, whole, is_shown && formatter.text.as_str() == whole);
    formatter.calls
}

#[test]
fn stops_where_the_formatter_fails(rt: HostRuntime) -> Tested {
    let alloc = rt.alloc();
    for (source, whole) in SHOWN {
        let value = parse(alloc, source)?;
        for call in 1..=calls_of(&rt, &value, whole) {
            expect_failure(&rt, &value, whole, call);
        }
    }
    Ok(())
}

/// The parts of compact texts: many elements, and many escapes.
const LARGE: &[[(&str, usize); 3]] = &[
    [("[0", 1), (",0", 70000), ("]", 1)],
    [("[\"", 1), ("a\\n", 70000), ("\"]", 1)],
];

/// The formatter fails at its last calls.
#[test]
fn stops_late_where_the_formatter_fails(rt: HostRuntime) -> Tested {
    let alloc = rt.alloc();
    for parts in LARGE {
        let whole = joined(alloc, parts)?;
        let value = parse(alloc, whole.as_str())?;
        let calls = calls_of(&rt, &value, whole.as_str());
        for call in [calls.saturating_sub(1), calls] {
            expect_failure(&rt, &value, whole.as_str(), call);
        }
    }
    Ok(())
}

/// A form of `{}`.
#[derive(Clone, Copy)]
enum Form {
    Alternate,
    Right,
    Filled,
    Cut,
}

const FORMS: &[Form] = &[Form::Alternate, Form::Right, Form::Filled, Form::Cut];

impl Form {
    fn show(self, alloc: Global, value: &JsonValue) -> Result<String> {
        let shown = match self {
            Form::Alternate => format!(in alloc; "{value:#}"),
            Form::Right => format!(in alloc; "{value:>+40}"),
            Form::Filled => format!(in alloc; "{value:*^40}"),
            Form::Cut => format!(in alloc; "{value:040.1}"),
        };
        Ok(shown?)
    }
}

/// Each form shows the value as `{}` does.
fn expect_forms(rt: &impl Tester, value: &JsonValue) -> Tested {
    let plain = display(rt.alloc(), value)?;
    for form in FORMS {
        let shown = form.show(rt.alloc(), value);
        expect(rt, plain.as_str(), is_text(shown, plain.as_str()));
    }
    Ok(())
}

/// Flags, a width, a fill and a precision change nothing.
#[test]
fn ignores_width_fill_and_the_alternate_form(rt: HostRuntime) -> Tested {
    for text in EACH_KIND {
        expect_forms(&rt, &parse(rt.alloc(), text)?)?;
    }
    Ok(())
}
