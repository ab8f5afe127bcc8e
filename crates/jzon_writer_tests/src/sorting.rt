//! A user's own generator over any writer, with an order of its own: the entries of each object in
//! the order of their keys, by std's sort, without whitespace.
//!
//! Every hook is proved to write what `sorted_style` allows, and that style allows no other order.
//! So the contract of `write_json` says that what is written is sorted.

ghost use Rattle.std.specs.Prelude.{◌≡◌, IfOk, None, Some, map, refl, slice_get};
ghost use Rattle.jzon.specs.Entries.{entries_of};
ghost use Rattle.jzon.specs.Generator.{IsAnswer};
ghost use Rattle.jzon.specs.PairList.{keys_of};
ghost use Rattle.jzon.specs.SortedStyle.{sorted_style};
ghost use Rattle.jzon.specs.View.{view};
ghost use Rattle.jzon.specs.Writing.{Writes};

use crate::common::{Tested, Tester, expect, expect_eq};
use jzon::codegen::{Generator, write_json, write_object};
use jzon::object::Object;
use jzon::{JsonValue, parse};
use jzon_test_support::{RUNS_MAX, Refusals, SlowWriter, Trouble};
use std::alloc::{AllocError, Global};
use std::io;
use std::io::{ErrorKind, Write};
use std::test::Fail;

/// The keys of the object.
fn keys_in_order<'a>(alloc: Global, object: &'a Object) -> Result<Vec<&'a str>, AllocError>
    ensures { IfOk result (λ keys. map (λ key. key.now) keys.items
        ≡ keys_of (entries_of object.now)) }
{
    let mut keys = Vec::new(alloc);
    for (key, _) in object.iter() {
        keys.push(key)?;
    }
    Ok(keys)
}

/// The positions of the object's entries, in the order of their keys.
fn sorted_positions(alloc: Global, object: &Object) -> Result<Vec<usize>, AllocError>
    ensures { IfOk result (λ positions. IsAnswer sorted_style (keys_of (entries_of object.now))
        (Some positions)) }
{
    let keys = keys_in_order(alloc, object)?;
    let mut positions = Vec::new(alloc);
    for position in 0..keys.len() {
        positions.push(position)?;
    }
    positions.sort_by_key(
        |position|
            ensures { result ≡ slice_get keys.entry.items position.now }
        { keys.get(*position).copied() },
    )?;
    Ok(positions)
}

/// Has the required hooks alone. An allocation of its `order` may fail.
#[derive(Drop)]
pub struct SortedGenerator<W> {
    alloc: Global,
    writer: W,
    dent: u64,
    faults: u64,
}

impl<W: Write> Generator for SortedGenerator<W> {
    ghost use Rattle.jzon.specs.SortedStyleLaws.{IsStyle-sorted};

    type T = W;

    ghost meaning = { λ g. record {
      out = W.contents g.writer;
      dent = g.dent;
      faults = g.faults;
      style = sorted_style;
      lender = None;
    } };

    ghost with_writer = { λ g writer. record g { writer = writer } };

    fn get_writer(&mut self) -> &mut W {
        &mut self.writer
    }

    fn write_min(&mut self, _slice: &[u8], min: u8) -> io::Result<()> {
        self.write_char(min)
    }

    fn faults(&self) -> u64 {
        self.faults
    }

    fn dent(&self) -> u64 {
        self.dent
    }

    fn note_fault(&mut self) {
        self.faults = self.faults.saturating_add(1);
    }

    fn set_dent(&mut self, dent: u64) {
        self.dent = dent;
    }

    fn new_line(&mut self) -> io::Result<()> {
        self.write(b"")
    }

    fn order(&mut self, object: &Object) -> io::Result<Option<Vec<usize>>> {
        match sorted_positions(self.alloc, object) {
            Ok(positions) => Ok(Some(positions)),
            Err(_) => {
                self.note_fault();
                Err(io::Error::from(ErrorKind::OutOfMemory))
            }
        }
    }

    ghost writer_law = { λ _ _. refl };

    ghost style_law = { λ _. IsStyle-sorted };
}

fn sorting<W>(alloc: Global, writer: W) -> SortedGenerator<W> {
    SortedGenerator {
        alloc,
        writer,
        dent: 0,
        faults: 0,
    }
}

/// The value's text without whitespace, with the entries of each object in the order of their keys.
fn sorted_bytes(alloc: Global, value: &JsonValue) -> io::Result<Vec<u8>>
    ensures sorted { IfOk result (λ bytes. Writes sorted_style 0 (view value.now) bytes.items) }
{
    let mut generator = SortedGenerator {
        alloc,
        writer: Vec::new(alloc),
        dent: 0,
        faults: 0,
    };
    write_json(&mut generator, value)?;
    Ok(generator.writer)
}

/// A text, and the text of its value with sorted keys.
const ROWS: &[(&str, &str)] = &[
    (
        "{\"c\":null,\"b\":null,\"a\":null}",
        "{\"a\":null,\"b\":null,\"c\":null}",
    ),
    (NESTED, NESTED_SORTED),
    (
        "[3,{\"b\":-0,\"a\":[{\"d\":1,\"c\":0}]},1]",
        "[3,{\"a\":[{\"c\":0,\"d\":1}],\"b\":-0},1]",
    ),
];

/// Objects and strings in one another, a number, and literals.
const NESTED: &str = "{\"b\":{\"z\":\"y\",\"é\":[],\"a\":[1.50,{}]},\"\":true,\"ab\":\"\\n\"}";

const NESTED_SORTED: &str =
    "{\"\":true,\"ab\":\"\\n\",\"b\":{\"a\":[1.50,{}],\"z\":\"y\",\"é\":[]}}";

/// What is written is sorted, and read back as an equal value, whose dump is sorted too.
fn expect_sorted(rt: &impl Tester, source: &str, sorted: &str) -> Tested {
    let alloc = rt.alloc();
    let value = parse(alloc, source)?;
    let bytes = sorted_bytes(alloc, &value)?;
    expect_eq(rt, source, bytes.as_slice(), sorted.as_bytes());
    let text = String::from_utf8(bytes)?;
    let read = parse(alloc, text.as_str())?;
    expect(rt, source, read == value);
    let dump = value.dump(alloc)?;
    expect_eq(rt, source, dump.as_str(), source);
    Ok(())
}

#[test]
fn reads_back_sorted_texts(rt: HostRuntime) -> Tested {
    for (source, sorted) in ROWS {
        expect_sorted(&rt, source, sorted)?;
    }
    Ok(())
}

/// Writes the value, or its object, if `is_object`.
fn write<W: Write>(
    generator: &mut SortedGenerator<W>,
    value: &JsonValue,
    is_object: bool,
) -> io::Result<()> {
    match value.as_object() {
        Some(object) if is_object => write_object(generator, object),
        _ => write_json(generator, value),
    }
}

/// The writer fails at this call: its own error is returned, one fault is counted, and the bytes
/// before it were written.
fn expect_stop(rt: &impl Tester, value: &JsonValue, is_object: bool, call: usize) -> Tested {
    let trouble = Trouble::Fails(ErrorKind::BrokenPipe);
    let mut generator = sorting(rt.alloc(), SlowWriter::new(rt.alloc(), call, trouble));
    match write(&mut generator, value, is_object) {
        Err(error) => expect(rt, "its error", trouble.is_returned(rt.alloc(), &error)?),
        Ok(()) => expect(rt, "no error", false),
    }
    let written = generator.writer.bytes.as_slice();
    expect_eq(
        rt,
        "faults, calls",
        (generator.faults, generator.writer.calls),
        (1, call),
    );
    let is_prefix = NESTED_SORTED.as_bytes().starts_with(written);
    expect(rt, "a prefix", is_prefix && written.len() + 1 == call);
    Ok(())
}

#[test]
fn returns_the_error_of_the_writer(rt: HostRuntime) -> Tested {
    let value = parse(rt.alloc(), NESTED)?;
    for call in 1..=NESTED_SORTED.len() {
        expect_stop(&rt, &value, false, call)?;
        expect_stop(&rt, &value, true, call)?;
    }
    Ok(())
}

/// After a failed allocation the error says so, one fault is counted, and what was written is a
/// prefix of the sorted text; else the whole text is. Whether an allocation failed.
fn run(rt: &impl Tester, value: &JsonValue, is_object: bool, refusals: &mut Refusals) -> bool {
    let mut generator = sorting(rt.alloc(), Vec::new(rt.alloc()));
    refusals.begin();
    let result = write(&mut generator, value, is_object);
    let has_failed = refusals.has_failed();
    let written = generator.writer.as_slice();
    let is_prefix = NESTED_SORTED.as_bytes().starts_with(written);
    let holds = match result {
        Ok(()) => !has_failed && written.len() == NESTED_SORTED.len(),
        Err(error) => has_failed && error.kind() == ErrorKind::OutOfMemory && generator.faults == 1,
    };
    expect(rt, NESTED, holds && is_prefix);
    has_failed
}

/// Each allocation fails in turn, those of `order` too.
fn fail_each(rt: &impl Tester, is_object: bool) -> Result<Refusals, Fail> {
    let value = parse(rt.alloc(), NESTED)?;
    let mut refusals = Refusals::new(rt.alloc());
    for _ in 0..RUNS_MAX {
        if !run(rt, &value, is_object, &mut refusals) {
            break;
        }
    }
    Ok(refusals)
}

#[test]
fn generator_under_refusals(rt: HostRuntime) -> Tested {
    fail_each(&rt, false)?.report(&rt, "write_json, SortedGenerator", 8)?;
    fail_each(&rt, true)?.report(&rt, "write_object, SortedGenerator", 8)?;
    Ok(())
}
