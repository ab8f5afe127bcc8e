//! Each hook of the generators in memory, called directly, also where allocations fail; each hook,
//! and `write_json` and `write_object`, over a writer that fails: of the two generators over a
//! writer, of one that overrides `write`, and of a user's own that has the required hooks alone; and
//! hooks with long arguments.

use crate::common::{Tested, Tester, expect, expect_bytes, expect_eq};
use crate::generators::{Counting, TabGenerator};
use jzon::codegen::{
    Compact, DumpGenerator, Generator, Layout, Pretty, PrettyGenerator, PrettyWriterGenerator,
    TextGenerator, WriterGenerator, write_json, write_object,
};
use jzon::number::Number;
use jzon::object::Object;
use jzon::util::write_bytes;
use jzon::{JsonValue, parse};
use jzon_test_support::{FAILURES, RUNS_MAX, Refusals, SlowWriter, Trouble, joined};
use std::alloc::{AllocError, Global};
use std::io;
use std::io::ErrorKind;
use std::process::Abort;

/// A hook, with the arguments of `call`, or a call of the hooks in turn.
#[derive(Clone, Copy)]
enum Hook {
    Write,
    WriteChar,
    WriteMin,
    WriteString,
    WritePlainString,
    WriteStringComplex,
    EscapeFrom2,
    EscapeFrom3,
    WriteNumber,
    GetWriter,
    NewLine,
    Order,
    Indent,
    Dedent,
    SetDent,
    NoteFault,
    WriteJson,
    WriteObject,
}

/// A string without escapes, longer than those that are added by their first and last bytes.
const PLAIN: &str = "0123456789abcdef0123456789abcdef01234567";

const QUOTED: &str = "\"0123456789abcdef0123456789abcdef01234567\"";

/// Calls the hook once; before `dedent` it sets 7 open indents. The value is an object.
fn call<G: Generator>(generator: &mut G, hook: Hook, value: &JsonValue) -> io::Result<()> {
    match hook {
        Hook::Write => generator.write(b"ab"),
        Hook::WriteChar => generator.write_char(b'c'),
        Hook::WriteMin => generator.write_min(b": ", b':'),
        Hook::WriteString => generator.write_string("d\n"),
        Hook::WritePlainString => generator.write_string(PLAIN),
        Hook::WriteStringComplex => generator.write_string_complex("e\"f", 1),
        Hook::EscapeFrom2 => generator.write_string_complex("ab\"c", 2),
        Hook::EscapeFrom3 => generator.write_string_complex("ab\"c", 3),
        Hook::WriteNumber => {
            generator.write_number(&Number::from_parts_unchecked(false, 125, -1))
        }
        Hook::GetWriter => write_bytes(generator.get_writer(), b"g"),
        Hook::NewLine => generator.new_line(),
        Hook::Indent => generator.indent(),
        Hook::WriteJson => write_json(generator, value),
        Hook::Order | Hook::WriteObject => call_on(generator, hook, object_of(value)?),
        Hook::Dedent | Hook::SetDent | Hook::NoteFault => {
            count(generator, hook);
            Ok(())
        }
    }
}

/// The hook `order`, which must give the order of insertion; or `write_object`.
fn call_on<G: Generator>(generator: &mut G, hook: Hook, object: &Object) -> io::Result<()> {
    if !matches!(hook, Hook::Order) {
        return write_object(generator, object);
    }
    match generator.order(object)? {
        None => Ok(()),
        Some(_) => Err(io::Error::from(ErrorKind::Other)),
    }
}

/// A hook that writes nothing.
fn count<G: Generator>(generator: &mut G, hook: Hook) {
    match hook {
        Hook::Dedent => {
            generator.set_dent(7);
            generator.dedent()
        }
        Hook::SetDent => generator.set_dent(9),
        _ => generator.note_fault(),
    }
}

fn object_of(value: &JsonValue) -> io::Result<&Object> {
    match value {
        JsonValue::Object(object) => Ok(object),
        _ => Err(io::Error::from(ErrorKind::Other)),
    }
}

/// A hook, what it appends in the compact layout and in the pretty one of one space, and the counts
/// of indents and of faults after it, where two indents were open before.
type Row = (Hook, &'static str, &'static str, u64, u64);

const ROWS: &[Row] = &[
    (Hook::Write, "ab", "ab", 2, 0),
    (Hook::WriteChar, "c", "c", 2, 0),
    (Hook::WriteMin, ":", ": ", 2, 0),
    (Hook::WriteString, "\"d\\n\"", "\"d\\n\"", 2, 0),
    (Hook::WritePlainString, QUOTED, QUOTED, 2, 0),
    (Hook::WriteStringComplex, "e\\\"f\"", "e\\\"f\"", 2, 0),
    (Hook::EscapeFrom2, "ab\\\"c\"", "ab\\\"c\"", 2, 0),
    (Hook::EscapeFrom3, "ab\"c\"", "ab\"c\"", 2, 0),
    (Hook::WriteNumber, "-12.5", "-12.5", 2, 0),
    (Hook::GetWriter, "g", "g", 2, 0),
    (Hook::NewLine, "", "\n  ", 2, 0),
    (Hook::Order, "", "", 2, 0),
    (Hook::Indent, "", "", 3, 0),
    (Hook::Dedent, "", "", 6, 0),
    (Hook::SetDent, "", "", 9, 0),
    (Hook::NoteFault, "", "", 2, 1),
];

/// Calls the hook of the row on a new generator with two open indents, and compares the counts.
/// After an error one fault is counted, except by the writer itself, and a hook has left the indents
/// as they were.
fn outcome_of<G: Generator>(
    rt: &impl Abort,
    generator: &mut G,
    row: Row,
    value: &JsonValue,
) -> io::Result<()> {
    let (hook, _, _, dent, faults) = row;
    generator.set_dent(2);
    let outcome = call(generator, hook, value);
    if outcome.is_ok() {
        expect_eq(rt, "the indents", generator.dent(), dent);
        expect_eq(rt, "the faults", generator.faults(), faults);
        return outcome;
    }
    let is_counted = !matches!(hook, Hook::GetWriter);
    expect_eq(rt, "one fault", generator.faults(), u64::from(is_counted));
    if !matches!(hook, Hook::WriteJson | Hook::WriteObject) {
        expect_eq(rt, "two indents", generator.dent(), 2);
    }
    outcome
}

/// The hook of the row in this layout, with each of its allocations failing in turn, and then with
/// none. After the error of a failed allocation nothing was appended, or a prefix of a long string.
fn expect_in_memory<L: Layout + Copy + Drop>(
    rt: &(impl Eprint + Abort),
    alloc: Global,
    layout: L,
    row: Row,
    text: &str,
) -> Tested {
    let value = JsonValue::new_object(alloc);
    let mut refusals = Refusals::new(alloc);
    for _ in 0..RUNS_MAX {
        let mut generator = TextGenerator::in_memory(alloc, layout);
        refusals.begin();
        let outcome = outcome_of(rt, &mut generator, row, &value);
        let has_failed = refusals.has_failed();
        let error = outcome.err().map(|error| error.kind());
        let want = has_failed.then_some(ErrorKind::OutOfMemory);
        expect_eq(rt, "the error", error, want);
        let found = generator.consume()?;
        let is_right = match (has_failed, row.0) {
            (false, _) => found.as_str() == text,
            (true, Hook::WritePlainString) => text.starts_with(found.as_str()),
            (true, _) => found.is_empty(),
        };
        expect(rt, "the bytes", is_right);
        if !has_failed {
            break;
        }
    }
    if !text.is_empty() {
        // Its quote, its bytes and its other quote are added by a call each, and each needs room.
        let is_plain = matches!(row.0, Hook::WritePlainString);
        refusals.report(rt, "a hook in memory", if is_plain { 3 } else { 1 })?;
    }
    Ok(())
}

#[test]
fn hooks_over_memory_under_refusals(rt: HostRuntime) -> Tested {
    for row in ROWS {
        expect_in_memory(&rt, rt.alloc(), Compact, *row, row.1)?;
        expect_in_memory(&rt, rt.alloc(), Pretty(1), *row, row.2)?;
    }
    Ok(())
}

/// A generator over a writer.
#[derive(Clone, Copy)]
enum Over {
    Compact,
    Pretty,
    Counting,
    CountingPretty,
    Tabs,
}

const OVERS: &[Over] = &[
    Over::Compact,
    Over::Pretty,
    Over::Counting,
    Over::CountingPretty,
    Over::Tabs,
];

/// What the hook of the row appends with a vertical tab in place of a line.
fn with_tabs(row: Row) -> &'static str {
    match row.0 {
        Hook::NewLine => "\u{b}",
        Hook::WriteJson | Hook::WriteObject => WITH_TABS,
        _ => row.1,
    }
}

impl Over {
    /// What the hook of the row appends.
    fn text(self, row: Row) -> &'static str {
        match self {
            Over::Pretty | Over::CountingPretty => row.2,
            Over::Tabs => with_tabs(row),
            _ => row.1,
        }
    }

    /// The outcome of the row's hook.
    fn outcome(
        self,
        rt: &impl Abort,
        writer: &mut SlowWriter,
        row: Row,
        value: &JsonValue,
    ) -> io::Result<()> {
        match self {
            Over::Compact => outcome_of(rt, &mut WriterGenerator::new(writer), row, value),
            Over::Pretty => {
                outcome_of(rt, &mut PrettyWriterGenerator::new(writer, 1), row, value)
            }
            Over::Counting => {
                let inner = WriterGenerator::new(writer);
                outcome_of(rt, &mut Counting::new(inner), row, value)
            }
            Over::CountingPretty => {
                let inner = PrettyWriterGenerator::new(writer, 1);
                outcome_of(rt, &mut Counting::new(inner), row, value)
            }
            Over::Tabs => outcome_of(rt, &mut TabGenerator::new(writer), row, value),
        }
    }
}

/// The writer fails at each of the hook's calls in turn, and at last after them: its own error is
/// returned, the bytes before that call were written, and the writer isn't flushed.
fn expect_failures(
    rt: &impl Abort,
    alloc: Global,
    over: Over,
    row: Row,
    value: &JsonValue,
    trouble: Trouble,
) -> Tested {
    let text = over.text(row).as_bytes();
    for len in 0..=text.len() {
        let mut writer = SlowWriter::new(alloc, len.saturating_add(1), trouble);
        match over.outcome(rt, &mut writer, row, value) {
            Ok(()) => expect(rt, "no error", len == text.len()),
            Err(error) => {
                let is_returned = trouble.is_returned(alloc, &error)?;
                expect(rt, "the error", is_returned && len < text.len());
            }
        }
        expect(rt, "the bytes", writer.bytes.as_slice() == &text[..len]);
        expect_eq(rt, "the flushes", writer.flushes, 0);
    }
    Ok(())
}

#[test]
fn hooks_over_a_failing_writer(rt: HostRuntime) -> Tested {
    let value = JsonValue::new_object(rt.alloc());
    for over in OVERS {
        for row in ROWS {
            for trouble in FAILURES {
                expect_failures(&rt, rt.alloc(), *over, *row, &value, *trouble)?;
            }
        }
    }
    Ok(())
}

const ON_ONE_LINE: &str = "{\"a\":[1,20],\"b\\n\":null}";

/// Two indents are open before it.
const ON_LINES: &str = "{\n   \"a\": [\n    1,\n    20\n   ],\n   \"b\\n\": null\n  }";

const WITH_TABS: &str = "{\u{b}\"a\":[\u{b}1,\u{b}20\u{b}],\u{b}\"b\\n\":null\u{b}}";

const PRINTED: &[Row] = &[
    (Hook::WriteJson, ON_ONE_LINE, ON_LINES, 2, 0),
    (Hook::WriteObject, ON_ONE_LINE, ON_LINES, 2, 0),
];

/// Also over a user's own generator the writer's own error is returned, whichever hook fails.
#[test]
fn write_json_over_a_failing_writer(rt: HostRuntime) -> Tested {
    let value = parse(rt.alloc(), ON_ONE_LINE)?;
    let trouble = Trouble::Fails(ErrorKind::BrokenPipe);
    for over in OVERS {
        for row in PRINTED {
            expect_failures(&rt, rt.alloc(), *over, *row, &value, trouble)?;
        }
    }
    Ok(())
}

/// The indents that were open when the error occurred stay open.
#[test]
fn leaves_the_indents_open(rt: HostRuntime) -> Tested {
    let value = parse(rt.alloc(), "[1]")?;
    let trouble = Trouble::Fails(ErrorKind::BrokenPipe);
    let mut writer = SlowWriter::new(rt.alloc(), 4, trouble);
    let mut generator = PrettyWriterGenerator::new(&mut writer, 2);
    let result = write_json(&mut generator, &value);
    expect(&rt, "the error", result.is_err());
    expect_eq(&rt, "the indents", generator.dent(), 1);
    expect_eq(&rt, "the faults", generator.faults(), 1);
    expect_bytes(&rt, &writer.bytes, "[\n ");
    Ok(())
}

/// A string that is written as it is, with three quotes after it.
fn quotes_last(alloc: Global) -> Result<String, AllocError> {
    joined(alloc, &[("plain", 40000), ("\"\"\"", 1)])
}

/// Appends this string by each hook that takes one, whole, and from the second of its quotes on;
/// then, with 70,000 indents open, the whitespace of a line and the colon after a key.
fn append_all<G: Generator>(generator: &mut G, string: &str) -> io::Result<()> {
    generator.write(string.as_bytes())?;
    generator.write_string(string)?;
    generator.write_string_complex(string, string.len().min(200001))?;
    generator.set_dent(69999);
    generator.indent()?;
    generator.new_line()?;
    generator.write_min(b": ", b':')?;
    generator.set_dent(u64::MAX - 1);
    generator.indent()?;
    generator.write_number(&Number::from_parts_unchecked(true, u64::MAX, 32767))?;
    generator.write_char(b'.')
}

/// How the string ends, by each of these hooks.
const ENDS: &[&str] = &["\"\"\"\"", "\\\"\\\"\\\"\"", "\"\\\"\\\"\""];

/// What they append, where a line and the colon have these parts.
fn appended(alloc: Global, line: &[(&str, usize)]) -> Result<String, AllocError> {
    let mut text = String::new(alloc);
    for end in ENDS {
        text.push_str(joined(alloc, &[("plain", 40000), (end, 1)])?.as_str())?;
    }
    text.push_str(joined(alloc, line)?.as_str())?;
    text.push_str("1.8446744073709551615e32786.")?;
    Ok(text)
}

/// They append what the rules say, where a line and the colon have these parts.
fn expect_all<G: Generator<T = Vec<u8>>>(
    rt: &impl Tester,
    generator: &mut G,
    line: &[(&str, usize)],
) -> Tested {
    append_all(generator, quotes_last(rt.alloc())?.as_str())?;
    let text = appended(rt.alloc(), line)?;
    let written = generator.get_writer().as_slice() == text.as_bytes();
    expect(rt, "the bytes", written);
    expect(rt, "the indents", generator.dent() == u64::MAX);
    expect(rt, "the faults", generator.faults() == 0);
    Ok(())
}

#[test]
fn hooks_take_long_arguments(rt: HostRuntime) -> Tested {
    let alloc = rt.alloc();
    let colon = [(":", 1)];
    expect_all(&rt, &mut DumpGenerator::new(alloc), &colon)?;
    let line = [("\n", 1), (" ", 210000), (": ", 1)];
    expect_all(&rt, &mut PrettyGenerator::new(alloc, 3), &line)?;
    expect_all(
        &rt,
        &mut TabGenerator::new(Vec::new(alloc)),
        &[("\u{b}:", 1)],
    )?;
    let mut bytes: Vec<u8> = Vec::new(alloc);
    expect_all(&rt, &mut WriterGenerator::new(&mut bytes), &colon)?;
    let mut bytes: Vec<u8> = Vec::new(alloc);
    expect_all(&rt, &mut PrettyWriterGenerator::new(&mut bytes, 3), &line)
}

/// The open indents, what is written of `[1]`, and how many faults are counted.
const BELOW_THE_MOST: &[(u64, &str, u64)] = &[(u64::MAX - 1, "[1]", 0), (u64::MAX, "[", 1)];

/// A value is written where one indent more may be open, and not where none may.
#[test]
fn writes_below_the_most_indents(rt: HostRuntime) -> Tested {
    let value = parse(rt.alloc(), "[1]")?;
    for (dent, text, faults) in BELOW_THE_MOST {
        let mut generator = DumpGenerator::new(rt.alloc());
        generator.set_dent(*dent);
        let outcome = write_json(&mut generator, &value);
        expect_eq(&rt, text, outcome.is_ok(), *faults == 0);
        expect_eq(&rt, text, generator.faults(), *faults);
        expect_eq(&rt, text, generator.dent(), *dent);
        expect_bytes(&rt, generator.get_writer(), text);
    }
    Ok(())
}

#[test]
fn fails_at_an_indent_too_many(rt: HostRuntime) {
    let mut generator = DumpGenerator::new(rt.alloc());
    generator.set_dent(u64::MAX);
    expect(&rt, "the result", generator.indent().is_err());
    expect_eq(&rt, "the indents", generator.dent(), u64::MAX);
    expect_eq(&rt, "the faults", generator.faults(), 1);
}
