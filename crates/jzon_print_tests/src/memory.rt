//! What printing allocates: each of its allocations fails in turn, and into a sink that has room
//! nothing is allocated.

use crate::common::{Tested, expect};
use jzon::codegen::{
    Compact, DumpGenerator, Layout, Pretty, PrettyGenerator, PrettyWriterGenerator, TextGenerator,
    WriterGenerator, write_json,
};
use jzon::{Error, JsonValue, Result, parse, stringify, stringify_pretty};
use jzon_test_support::{DOCUMENT, DUMP, PRETTY, RUNS_MAX, Refusals, joined};
use std::alloc::Global;
use std::fmt::Write;
use std::io::ErrorKind;
use std::process::Abort;
use std::test::Fail;
use std::{fmt, io};

/// A call that prints into memory, some with a number of spaces for each open container.
#[derive(Clone, Copy)]
pub enum Writing {
    Dump,
    Pretty,
    ObjectDump,
    ObjectPretty,
    LayOut,
    PrettyLayOut,
    InMemory,
    PrettyInMemory,
    DumpGenerator,
    PrettyGenerator,
    Write,
    WritePretty,
    WriteLayout,
    PrettyWriteLayout,
    ToWriter,
    PrettyToWriter,
    WriterGenerator,
    PrettyWriterGenerator,
    Stringify,
    StringifyPretty,
}

/// The result of a writer in memory, whose one error is a failed allocation.
fn of_memory(outcome: io::Result<()>) -> Result<()> {
    match outcome {
        Ok(()) => Ok(()),
        Err(error) if error.kind() == ErrorKind::OutOfMemory => Err(Error::OutOfMemory),
        Err(_) => Err(Error::FailedUtf8Parsing),
    }
}

fn object_text(call: Writing, value: &JsonValue, alloc: Global, spaces: u16) -> Result<String> {
    match (call, value.as_object()) {
        (Writing::ObjectDump, Some(object)) => object.dump(alloc),
        (_, Some(object)) => object.pretty(alloc, spaces),
        _ => Err(Error::UnexpectedEndOfJson),
    }
}

fn in_memory<L: Layout + Copy + Drop>(
    value: &JsonValue,
    alloc: Global,
    layout: L,
) -> Result<String> {
    let mut generator = TextGenerator::in_memory(alloc, layout);
    of_memory(write_json(&mut generator, value))?;
    generator.consume()
}

fn dumped(value: &JsonValue, alloc: Global) -> Result<String> {
    let mut generator = DumpGenerator::new(alloc);
    of_memory(write_json(&mut generator, value))?;
    generator.consume()
}

pub fn prettified(value: &JsonValue, alloc: Global, spaces: u16) -> Result<String> {
    let mut generator = PrettyGenerator::new(alloc, spaces);
    of_memory(write_json(&mut generator, value))?;
    generator.consume()
}

fn text_of(bytes: Vec<u8>) -> Result<String> {
    match String::from_utf8(bytes) {
        Ok(text) => Ok(text),
        Err(_) => Err(Error::FailedUtf8Parsing),
    }
}

/// By a call that takes a writer.
fn write<W: io::Write>(
    call: Writing,
    value: &JsonValue,
    writer: &mut W,
    spaces: u16,
) -> io::Result<()> {
    match call {
        Writing::Write => value.write(writer),
        Writing::WritePretty => value.write_pretty(writer, spaces),
        Writing::WriteLayout => value.write_layout(writer, Compact),
        Writing::ToWriter => write_json(&mut TextGenerator::to_writer(writer, Compact), value),
        Writing::PrettyToWriter => {
            write_json(&mut TextGenerator::to_writer(writer, Pretty(spaces)), value)
        }
        Writing::WriterGenerator => write_json(&mut WriterGenerator::new(writer), value),
        Writing::PrettyWriterGenerator => {
            write_json(&mut PrettyWriterGenerator::new(writer, spaces), value)
        }
        _ => value.write_layout(writer, Pretty(spaces)),
    }
}

fn written(call: Writing, value: &JsonValue, alloc: Global, spaces: u16) -> Result<String> {
    let mut bytes = Vec::new(alloc);
    of_memory(write(call, value, &mut bytes, spaces))?;
    text_of(bytes)
}

impl Writing {
    /// What is printed of the value, which `stringify` takes.
    fn print(self, value: &mut JsonValue, alloc: Global, spaces: u16) -> Result<String> {
        match self {
            Writing::Stringify => stringify(alloc, value.take()),
            Writing::StringifyPretty => stringify_pretty(alloc, value.take(), spaces),
            _ => self.text(value, alloc, spaces),
        }
    }

    /// What is printed of the value. `stringify` takes a copy.
    pub fn text(self, value: &JsonValue, alloc: Global, spaces: u16) -> Result<String> {
        match self {
            Writing::Dump => value.dump(alloc),
            Writing::Pretty => value.pretty(alloc, spaces),
            Writing::ObjectDump | Writing::ObjectPretty => object_text(self, value, alloc, spaces),
            Writing::LayOut => value.lay_out(alloc, Compact),
            Writing::PrettyLayOut => value.lay_out(alloc, Pretty(spaces)),
            Writing::InMemory => in_memory(value, alloc, Compact),
            Writing::PrettyInMemory => in_memory(value, alloc, Pretty(spaces)),
            Writing::DumpGenerator => dumped(value, alloc),
            Writing::PrettyGenerator => prettified(value, alloc, spaces),
            Writing::Stringify => stringify(alloc, value.clone(alloc)?),
            Writing::StringifyPretty => stringify_pretty(alloc, value.clone(alloc)?, spaces),
            _ => written(self, value, alloc, spaces),
        }
    }
}

/// A text with a string of 40 bytes, none of which is escaped.
const LISTED: &str = "{\"a\":[1,\"0123456789abcdef0123456789abcdef01234567\"]}";

/// The same on lines, with two spaces for each open container.
const ON_LINES: &str =
    "{\n  \"a\": [\n    1,\n    \"0123456789abcdef0123456789abcdef01234567\"\n  ]\n}";

/// A call, its name, the text of the value, what is printed of it, and the number of the call's
/// allocations.
type Row = (Writing, &'static str, &'static str, &'static str, usize);

/// The calls that give their text room for 1,024 bytes at once, or send it at once, and the others.
const WRITTEN: &[Row] = &[
    (Writing::Dump, "dump", DOCUMENT, DUMP, 1),
    (Writing::Pretty, "pretty", DOCUMENT, PRETTY, 1),
    (Writing::ObjectDump, "Object::dump", LISTED, LISTED, 1),
    (Writing::ObjectPretty, "Object::pretty", LISTED, ON_LINES, 1),
    (Writing::LayOut, "lay_out", LISTED, LISTED, 1),
    (Writing::PrettyLayOut, "lay_out 2", LISTED, ON_LINES, 1),
    (Writing::DumpGenerator, "generator", LISTED, LISTED, 4),
    (Writing::PrettyGenerator, "generator 2", LISTED, ON_LINES, 5),
    (Writing::Write, "write", LISTED, LISTED, 1),
    (Writing::WritePretty, "write_pretty", LISTED, ON_LINES, 1),
    (
        Writing::PrettyWriteLayout,
        "write_layout",
        LISTED,
        ON_LINES,
        1,
    ),
];

/// The calls that give their text room at once, which a string of 2,000 bytes exceeds.
const GROWING: &[(Writing, &str)] = &[
    (Writing::Dump, "dump of 2,000 bytes"),
    (Writing::ObjectDump, "Object::dump of 2,000 bytes"),
    (Writing::LayOut, "lay_out of 2,000 bytes"),
];

/// One run of the call, on a copy of `before`. Whether an allocation failed: then the call returned
/// `OutOfMemory`, and its value is as it was. Otherwise it returned this text.
fn write_once(
    rt: &impl Abort,
    alloc: Global,
    (call, name, text): (Writing, &str, &str),
    before: &JsonValue,
    refusals: &mut Refusals,
) -> std::result::Result<bool, Fail> {
    let mut value = before.clone(alloc)?;
    refusals.begin();
    let outcome = call.print(&mut value, alloc, 2);
    let has_failed = refusals.has_failed();
    match outcome {
        Ok(found) => expect(rt, name, !has_failed && found.as_str() == text),
        Err(error) => {
            let is_its_own = matches!(error, Error::OutOfMemory);
            expect(rt, name, has_failed && is_its_own && value == *before);
        }
    }
    Ok(has_failed)
}

/// Runs the call with each of its allocations failing in turn. Each run frees all that it allocates.
fn fail_each(
    rt: &(impl Eprint + Abort),
    alloc: Global,
    call: (Writing, &str, &str),
    before: &JsonValue,
    count: usize,
) -> Tested {
    let mut refusals = Refusals::new(alloc);
    for _ in 0..RUNS_MAX {
        refusals.open();
        let has_failed = write_once(rt, alloc, call, before, &mut refusals)?;
        refusals.close();
        if !has_failed {
            break;
        }
    }
    refusals.report(rt, call.1, count)?;
    Ok(())
}

#[test]
fn written_under_refusals(rt: HostRuntime) -> Tested {
    let alloc = rt.alloc();
    for (call, name, source, text, count) in WRITTEN {
        let before = parse(alloc, source)?;
        fail_each(&rt, alloc, (*call, name, text), &before, *count)?;
    }
    Ok(())
}

#[test]
fn grown_texts_under_refusals(rt: HostRuntime) -> Tested {
    let alloc = rt.alloc();
    let text = joined(alloc, &[("{\"a\":\"", 1), ("x", 2_000), ("\"}", 1)])?;
    let before = parse(alloc, text.as_str())?;
    for (call, name) in GROWING {
        fail_each(&rt, alloc, (*call, name, text.as_str()), &before, 2)?;
    }
    Ok(())
}

const SHORT: &[(Writing, &str)] = &[
    (Writing::Dump, "dump of a short text"),
    (Writing::Pretty, "pretty of a short text"),
    (Writing::PrettyLayOut, "lay_out of a short text"),
    (Writing::ObjectDump, "Object::dump of a short text"),
    (Writing::ObjectPretty, "Object::pretty of a short text"),
    (Writing::Stringify, "stringify of a short text"),
    (Writing::StringifyPretty, "stringify_pretty of a short text"),
];

/// A text with a key and a string that are too long to be kept inline.
const LONG_DOCUMENT: &str =
    "{\"0123456789abcdef0123456789abcdef!\":[{\"b\":\"a text of more than thirty bytes\"},[true,{}]]}";

/// Each requests room for 1,024 bytes, once.
#[test]
fn texts_counted(rt: HostRuntime) -> Tested {
    let alloc = rt.alloc();
    for (call, name) in SHORT {
        let mut value = parse(alloc, LONG_DOCUMENT)?;
        let mut refusals = Refusals::new(alloc);
        refusals.open();
        let text = call.print(&mut value, alloc, 2)?;
        refusals.expect_within(&rt, name, 1024)?;
        expect(&rt, name, text.contains("a text of more than thirty bytes"));
    }
    Ok(())
}

/// A buffer with an initial capacity, which grows where that doesn't suffice.
#[derive(Drop)]
struct Sink {
    bytes: Vec<u8>,
}

impl fmt::Write for Sink {
    fn write_str(&mut self, text: &str) -> fmt::Result {
        match self.bytes.extend_from_slice(text.as_bytes()) {
            Ok(()) => Ok(()),
            Err(_) => Err(fmt::Error),
        }
    }
}

/// A call without `alloc` that prints.
#[derive(Clone, Copy)]
enum Print {
    Into(Writing),
    Display,
}

impl Print {
    /// Whether all was printed.
    fn print(self, value: &JsonValue, sink: &mut Sink) -> bool {
        match self {
            Print::Into(call) => write(call, value, &mut sink.bytes, 2).is_ok(),
            Print::Display => write!(sink, "{value}").is_ok(),
        }
    }
}

/// A call, its name, the source of the value, what is printed of it, and how often a sink without
/// room grows then.
type Printed = (Print, &'static str, &'static str, &'static str, usize);

/// One run of the call on a sink with this much room. A run with a failed allocation fails. Whether
/// one failed.
fn print_once(
    rt: &impl Abort,
    alloc: Global,
    row: Printed,
    value: &JsonValue,
    room: usize,
    refusals: &mut Refusals,
) -> std::result::Result<bool, Fail> {
    let (call, name, _, text, _) = row;
    let mut sink = Sink {
        bytes: Vec::with_capacity(alloc, room)?,
    };
    refusals.begin();
    let is_printed = call.print(value, &mut sink);
    let has_failed = refusals.has_failed();
    if has_failed {
        expect(rt, name, !is_printed && room == 0);
        expect(rt, name, text.as_bytes().starts_with(&sink.bytes));
    } else {
        expect(
            rt,
            name,
            is_printed && sink.bytes.as_slice() == text.as_bytes(),
        );
    }
    Ok(has_failed)
}

/// Runs the call with each allocation failing in turn.
fn fail_each_of(
    rt: &impl Abort,
    alloc: Global,
    row: Printed,
    room: usize,
) -> std::result::Result<Refusals, Fail> {
    let value = parse(alloc, row.2)?;
    let mut refusals = Refusals::new(alloc);
    for _ in 0..RUNS_MAX {
        refusals.open();
        let has_failed = print_once(rt, alloc, row, &value, room, &mut refusals)?;
        refusals.close();
        if !has_failed {
            break;
        }
    }
    Ok(refusals)
}

const LONG_TEXT: &str = "abcdefghijklmnopqrstuvwxyz01234";

const LONG_STRING: &str = "\"abcdefghijklmnopqrstuvwxyz01234\"";

const PRINTED: &[Printed] = &[
    (Print::Into(Writing::Write), "write", DOCUMENT, DUMP, 1),
    (
        Print::Into(Writing::WritePretty),
        "write_pretty",
        DOCUMENT,
        PRETTY,
        1,
    ),
    (
        Print::Into(Writing::WriterGenerator),
        "WriterGenerator",
        DOCUMENT,
        DUMP,
        3,
    ),
    (
        Print::Into(Writing::PrettyWriterGenerator),
        "PrettyWriterGenerator",
        DOCUMENT,
        PRETTY,
        4,
    ),
    (Print::Display, "Display", DOCUMENT, DUMP, 3),
    (
        Print::Display,
        "Display of a string",
        LONG_STRING,
        LONG_TEXT,
        1,
    ),
    (
        Print::Display,
        "Display of a number",
        "-12.50e3",
        "-12500",
        1,
    ),
];

/// Without room the sink's own allocations fail, which shows that an allocation is seen; with room
/// there is none.
#[test]
fn room_under_refusals(rt: HostRuntime) -> Tested {
    for row in PRINTED {
        fail_each_of(&rt, rt.alloc(), *row, 0)?.report(&rt, row.1, row.4)?;
        fail_each_of(&rt, rt.alloc(), *row, 256)?.expect_even()?;
    }
    Ok(())
}
