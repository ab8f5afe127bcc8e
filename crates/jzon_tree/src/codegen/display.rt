//! `Display` of a value (docs/RULES.md, "Layouts"), without allocation. `WritesOnOk` says which
//! text was written at `Ok`; an error is the formatter's.

ghost use Rattle.std.specs.Prelude.{Some};
ghost use Rattle.std.specs.Fmt.{WritesOnOk};
ghost use Rattle.jzon_tree.specs.DisplayText.{comma_text, displayed};
ghost use Rattle.jzon_tree.specs.Text.{compact, quoted};
ghost use Rattle.jzon_tree.specs.Value.{array};
ghost use Rattle.jzon_tree.specs.View.{view, view_object, view_values};

use crate::codegen::strings::{ESCAPE_MAX_LEN, put_escape};
use crate::object::Object;
use crate::value::JsonValue;
use jzon_base::util::plain::plain_len;
use std::{fmt, str};

/// A string as it is, NaN as `nan`, and all else as in the compact layout.
impl fmt::Display for JsonValue {
    ghost output = { λ value. Some (displayed (view value)) };

    fn fmt<W: fmt::Write>(&self, f: &mut fmt::Formatter<W>) -> fmt::Result {
        match self {
            JsonValue::Short(text) => f.write_str(text.as_str()),
            JsonValue::String(text) => f.write_str(text.as_str()),
            JsonValue::Number(number) => fmt::Display::fmt(number, f),
            _ => show(self, f),
        }
    }
}

/// Shows the value in the compact layout, NaN as `null`.
#[cycle(show)]
fn show<W: fmt::Write>(value: &JsonValue, f: &mut fmt::Formatter<W>) -> fmt::Result
    ensures { WritesOnOk W.write_str_gives f.old result (compact (view value.now)) f.new }
{
    match value {
        JsonValue::Null => f.write_str("null"),
        JsonValue::Short(text) => show_string(text.as_str(), f),
        JsonValue::String(text) => show_string(text.as_str(), f),
        JsonValue::Number(number) if number.is_nan() => f.write_str("null"),
        JsonValue::Number(number) => fmt::Display::fmt(number, f),
        JsonValue::Boolean(true) => f.write_str("true"),
        JsonValue::Boolean(false) => f.write_str("false"),
        JsonValue::Object(object) => show_object(object, f),
        JsonValue::Array(items) => show_array(items, f),
    }
}

/// Shows the elements with commas, in brackets.
#[cycle(show)]
fn show_array<W: fmt::Write>(items: &[JsonValue], f: &mut fmt::Formatter<W>) -> fmt::Result
    ensures { WritesOnOk W.write_str_gives f.old result
        (compact (array (view_values items.now))) f.new }
{
    f.write_str("[")?;
    for (index, item) in items.iter().enumerate() {
        show_comma(index > 0, f)?;
        show(item, f)?;
    }
    f.write_str("]")
}

/// Shows the entries with commas and colons, in braces.
#[cycle(show)]
fn show_object<W: fmt::Write>(object: &Object, f: &mut fmt::Formatter<W>) -> fmt::Result
    ensures { WritesOnOk W.write_str_gives f.old result (compact (view_object object.now)) f.new }
{
    f.write_str("{")?;
    // By position, for the proof's loop invariant.
    for index in 0..object.len() {
        let (key, value) = object.pairs.get_at(index);
        show_comma(index > 0, f)?;
        show_string(key, f)?;
        f.write_str(":")?;
        show(value, f)?;
    }
    f.write_str("}")
}

/// Shows a comma if `comma`: before each item but the first.
fn show_comma<W: fmt::Write>(comma: bool, f: &mut fmt::Formatter<W>) -> fmt::Result
    ensures { WritesOnOk W.write_str_gives f.old result (comma_text comma) f.new }
{
    if comma {
        return f.write_str(",");
    }
    Ok(())
}

/// Shows the string in quotes, escaped; runs that need no escape are shown whole.
fn show_string<W: fmt::Write>(text: &str, f: &mut fmt::Formatter<W>) -> fmt::Result
    ensures { WritesOnOk W.write_str_gives f.old result (quoted text.now) f.new }
{
    f.write_str("\"")?;
    let mut rest = text.as_bytes();
    loop {
        let (run, others) = rest.split_at(plain_len(rest));
        show_bytes(run, f)?;
        let Some((byte, others)) = others.split_first() else {
            break;
        };
        let mut room = [0; ESCAPE_MAX_LEN];
        let at = put_escape(&mut room, *byte);
        show_bytes(&room[at..], f)?;
        rest = others;
    }
    f.write_str("\"")
}

/// Shows a run or an escape. Both are UTF-8: an escape is ASCII, and a run ends at the text's end
/// or before an ASCII byte. So `Err` isn't reached.
fn show_bytes<W: fmt::Write>(bytes: &[u8], f: &mut fmt::Formatter<W>) -> fmt::Result
    ensures { WritesOnOk W.write_str_gives f.old result bytes.now f.new }
{
    match str::from_utf8(bytes) {
        Ok(text) => f.write_str(text),
        Err(_) => Err(fmt::Error),
    }
}
