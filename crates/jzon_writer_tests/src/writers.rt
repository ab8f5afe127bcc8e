//! Writers that take one byte a call, and fail at one call.

use crate::common::{Tested, Tester, expect, expect_eq, expect_trouble};
use jzon::codegen::{
    Compact, Pretty, PrettyWriterGenerator, WriterGenerator, write_json, write_object,
};
use jzon::{JsonValue, Result, parse};
use jzon_test_support::{
    DOCUMENT, DUMP, FAILURES, NO_FAILING_CALL, PRETTY, Refusals, SlowWriter, Trouble, joined,
};
use std::alloc::Global;
use std::io;
use std::io::ErrorKind;

/// How a value is written.
#[derive(Clone, Copy)]
enum How {
    Compact,
    Pretty,
    Layout,
    PrettyLayout,
    Generator,
    PrettyGenerator,
    Object,
}

const HOWS: &[How] = &[
    How::Compact,
    How::Pretty,
    How::Layout,
    How::PrettyLayout,
    How::Generator,
    How::PrettyGenerator,
    How::Object,
];

/// A value, its compact text, and its pretty text with this number of spaces.
#[derive(Drop)]
struct Sample {
    value: JsonValue,
    compact: String,
    pretty: String,
    spaces: u16,
}

/// A small one with a value of nearly each kind.
fn small(alloc: Global) -> Result<Sample> {
    Ok(Sample {
        value: parse(alloc, DOCUMENT)?,
        compact: String::from_str(alloc, DUMP)?,
        pretty: String::from_str(alloc, PRETTY)?,
        spaces: 2,
    })
}

/// One with 40,000 elements, so that even its compact text is longer than 16 bits can count.
fn large(alloc: Global) -> Result<Sample> {
    let compact = joined(alloc, &[("{\"a\":[0", 1), (",0", 39999), ("]}", 1)])?;
    let parts = [
        ("{\n  \"a\": [\n    0", 1),
        (",\n    0", 39999),
        ("\n  ]\n}", 1),
    ];
    Ok(Sample {
        value: parse(alloc, compact.as_str())?,
        compact,
        pretty: joined(alloc, &parts)?,
        spaces: 2,
    })
}

/// One whose lines begin with more spaces than are written at once.
fn wide(alloc: Global) -> Result<Sample> {
    let indent = joined(alloc, &[(" ", 600)])?;
    Ok(Sample {
        value: parse(alloc, "{\"a\":[0]}")?,
        compact: String::from_str(alloc, "{\"a\":[0]}")?,
        pretty: format!(in alloc; "{{\n{indent}\"a\": [\n{indent}{indent}0\n{indent}]\n}}")?,
        spaces: 600,
    })
}

impl How {
    fn text(self, sample: &Sample) -> &str {
        match self {
            How::Pretty | How::PrettyLayout | How::PrettyGenerator => { sample.pretty.as_str() }
            _ => sample.compact.as_str(),
        }
    }

    fn write(self, sample: &Sample, writer: &mut SlowWriter) -> io::Result<()> {
        let value = &sample.value;
        let spaces = sample.spaces;
        match self {
            How::Compact => value.write(writer),
            How::Pretty => value.write_pretty(writer, spaces),
            How::Layout => value.write_layout(writer, Compact),
            How::PrettyLayout => value.write_layout(writer, Pretty(spaces)),
            How::Generator => write_json(&mut WriterGenerator::new(writer), value),
            How::PrettyGenerator => {
                write_json(&mut PrettyWriterGenerator::new(writer, spaces), value)
            }
            How::Object => match value.as_object() {
                Some(object) => write_object(&mut WriterGenerator::new(writer), object),
                None => Ok(()),
            },
        }
    }
}

/// The writer holds the first bytes of the text, and this was its last call.
fn expect_prefix(rt: &impl Tester, writer: &SlowWriter, text: &str, call: usize) {
    expect_eq(rt, "the calls", writer.calls, call);
    expect_eq(rt, "the flushes", writer.flushes, 0);
    expect_eq(rt, "the bytes", writer.bytes.len(), call.saturating_sub(1));
    expect(rt, "a prefix", text.as_bytes().starts_with(&writer.bytes));
}

/// The writer fails at this call: the error is its own, and nothing is written after it.
fn expect_stop(
    rt: &impl Tester,
    sample: &Sample,
    how: How,
    trouble: Trouble,
    call: usize,
) -> Tested {
    let mut writer = SlowWriter::new(rt.alloc(), call, trouble);
    expect_trouble(rt, how.write(sample, &mut writer), trouble)?;
    expect_prefix(rt, &writer, how.text(sample), call);
    Ok(())
}

/// The writer fails at each call in turn.
fn expect_stops(rt: &impl Tester, sample: &Sample, how: How, trouble: Trouble) -> Tested {
    for call in 1..=how.text(sample).len() {
        expect_stop(rt, sample, how, trouble, call)?;
    }
    Ok(())
}

#[test]
fn stops_at_each_call_that_fails(rt: HostRuntime) -> Tested {
    let sample = small(rt.alloc())?;
    for how in HOWS {
        for trouble in FAILURES {
            expect_stops(&rt, &sample, *how, *trouble)?;
        }
        expect_stops(&rt, &sample, *how, Trouble::TakesNothing)?;
    }
    Ok(())
}

const BROKEN: Trouble = Trouble::Fails(ErrorKind::BrokenPipe);

/// The writer fails where 16 bits no longer count its calls, and at its last call.
#[test]
fn stops_late(rt: HostRuntime) -> Tested {
    let sample = large(rt.alloc())?;
    for how in HOWS {
        for call in [65535, 65536, 65537, how.text(&sample).len()] {
            expect_stop(&rt, &sample, *how, BROKEN, call)?;
        }
    }
    Ok(())
}

/// Also among the spaces of a line.
#[test]
fn stops_in_wide_lines(rt: HostRuntime) -> Tested {
    let sample = wide(rt.alloc())?;
    for how in HOWS {
        expect_stops(&rt, &sample, *how, BROKEN)?;
    }
    Ok(())
}

/// More than what was written before each failing call takes, with the words of the errors.
const MOST_OF_FAILED: usize = 1 << 20;

/// A write that fails drops all that it allocates, its error too.
#[test]
fn failed_writes_counted(rt: HostRuntime) -> Tested {
    let sample = small(rt.alloc())?;
    for how in HOWS {
        let mut refusals = Refusals::new(rt.alloc());
        refusals.open();
        expect_stops(&rt, &sample, *how, BROKEN)?;
        refusals.close();
        refusals.expect_within(&rt, "writes that fail", MOST_OF_FAILED)?;
        refusals.expect_even()?;
    }
    Ok(())
}

fn expect_whole(rt: &impl Tester, sample: &Sample) -> Tested {
    for how in HOWS {
        let mut writer = SlowWriter::new(rt.alloc(), NO_FAILING_CALL, Trouble::TakesNothing);
        how.write(sample, &mut writer)?;
        let text = how.text(sample).as_bytes();
        expect(rt, "the text", writer.bytes.as_slice() == text);
        expect_eq(rt, "the flushes", writer.flushes, 0);
    }
    Ok(())
}

#[test]
fn writes_the_whole_text(rt: HostRuntime) -> Tested {
    expect_whole(&rt, &small(rt.alloc())?)?;
    expect_whole(&rt, &large(rt.alloc())?)?;
    expect_whole(&rt, &wide(rt.alloc())?)
}

/// What is at the end of a full buffer: strings, numbers, escapes, keys and lines; and its text in
/// lines.
const PIECES: &[(&str, &str)] = &[
    ("\"abc\"", "\"abc\""),
    (
        "\"0123456789abcdef0123456789abcdefg\"",
        "\"0123456789abcdef0123456789abcdefg\"",
    ),
    ("-123456789.5", "-123456789.5"),
    ("1.5e99", "1.5e99"),
    ("\"a\\nb\\u0001\"", "\"a\\nb\\u0001\""),
    ("{\"key\":[1,{}]}", "{\n  \"key\": [\n   1,\n   {}\n  ]\n }"),
    ("{\"a\\tb\":null}", "{\n  \"a\\tb\": null\n }"),
];

/// How many entries are before the last two, and the lengths of the compact text.
const ROUND_A_BUFFER: &[(usize, usize, usize)] = &[(0, 1000, 1051), (1, 2040, 2057)];

/// A value whose compact text has this length, and ends with the piece.
fn ending(alloc: Global, entries: usize, len: usize, piece: &(&str, &str)) -> Result<Sample> {
    let entry = joined(alloc, &[("\"j\":\"", 1), ("p", 1000), ("\",", 1)])?;
    let line = joined(alloc, &[("\n \"j\": \"", 1), ("p", 1000), ("\",", 1)])?;
    let before = entries.saturating_mul(1007).saturating_add(13);
    let rest = len.saturating_sub(before).saturating_sub(piece.0.len());
    let parts = [
        ("{", 1),
        (entry.as_str(), entries),
        ("\"k\":\"", 1),
        ("p", rest),
        ("\",\"v\":", 1),
    ];
    let lines = [
        ("{", 1),
        (line.as_str(), entries),
        ("\n \"k\": \"", 1),
        ("p", rest),
        ("\",\n \"v\": ", 1),
    ];
    let compact = ended(joined(alloc, &parts)?, piece.0, "}")?;
    Ok(Sample {
        value: parse(alloc, compact.as_str())?,
        compact,
        pretty: ended(joined(alloc, &lines)?, piece.1, "\n}")?,
        spaces: 1,
    })
}

/// The text with its last value, and the end of its object.
fn ended(mut text: String, value: &str, end: &str) -> Result<String> {
    text.push_str(value)?;
    text.push_str(end)?;
    Ok(text)
}

/// The last bytes of a full buffer, the first of the next, and the last of the text.
const CALLS_ROUND_A_BUFFER: &[usize] = &[1023, 1024, 1025, 2048, 2049, usize::MAX];

fn expect_stops_round_a_buffer(rt: &impl Tester, sample: &Sample) -> Tested {
    for how in HOWS {
        for call in CALLS_ROUND_A_BUFFER {
            let call = (*call).min(how.text(sample).len());
            expect_stop(rt, sample, *how, BROKEN, call)?;
        }
    }
    Ok(())
}

/// `write`, `write_pretty` and `write_layout` collect 1,024 bytes.
#[test]
fn writes_texts_round_a_full_buffer(rt: HostRuntime) -> Tested {
    for (entries, first, end) in ROUND_A_BUFFER {
        for len in *first..*end {
            for piece in PIECES {
                let sample = ending(rt.alloc(), *entries, len, piece)?;
                expect_eq(&rt, piece.0, sample.compact.len(), len);
                expect_whole(&rt, &sample)?;
                expect_stops_round_a_buffer(&rt, &sample)?;
            }
        }
    }
    Ok(())
}

/// The bytes of three calls were written, and the error is the writer's.
#[test]
fn stops_at_the_fourth_call(rt: HostRuntime) -> Tested {
    let value = parse(rt.alloc(), "[1,2,3]")?;
    let mut writer = SlowWriter::new(rt.alloc(), 4, BROKEN);
    expect_trouble(&rt, value.write(&mut writer), BROKEN)?;
    expect_prefix(&rt, &writer, "[1,", 4);
    Ok(())
}
