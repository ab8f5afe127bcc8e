//! A user's own generators: one of the required hooks alone, one that overrides `write` and
//! `write_char` to count, and one that notes each hook that `write_json` calls.

ghost use Rattle.std.specs.Prelude.{◌∷◌, ◌≡◌, [], false, None, refl};
ghost use Rattle.jzon.specs.StyleLaws.{IsStyle-only};
ghost use Rattle.jzon.specs.Styles.{only};

use crate::common::{Tested, Tester, expect, expect_bytes, expect_eq, expect_trouble};
use jzon::codegen::{DumpGenerator, Generator, write_json, write_object};
use jzon::number::{NAN, Number};
use jzon::object::Object;
use jzon::{JsonValue, parse};
use jzon_test_support::{Trouble, joined};
use std::alloc::Global;
use std::io;
use std::io::Write;
use std::process::Abort;
use std::test::Fail;

/// Has the required hooks alone. Writes a vertical tab before each element and each closing bracket,
/// in a style that allows no other whitespace. Its `order` may fail with an error of its own.
#[derive(Drop)]
pub struct TabGenerator<W> {
    writer: W,
    dent: u64,
    faults: u64,
    has_order: bool,
}

const ORDERLESS: Trouble = Trouble::FailsBySystem(5);

impl<W: Write> Generator for TabGenerator<W> {
    type T = W;

    ghost meaning = { λ g. record {
      out = W.contents g.writer;
      dent = g.dent;
      faults = g.faults;
      style = only
          (λ dent. 11 ∷ []) false;
      lender = None;
    } };

    ghost with_writer = { λ g writer. record g { writer = writer } };

    fn get_writer(&mut self) -> &mut W {
        &mut self.writer
    }

    fn write_min(&mut self, _slice: &[u8], min: u8) -> io::Result<()> {
        self.write_char(min)
    }

    fn faults(&self) -> u64 {
        self.faults
    }

    fn dent(&self) -> u64 {
        self.dent
    }

    fn note_fault(&mut self) {
        self.faults = self.faults.saturating_add(1);
    }

    fn set_dent(&mut self, dent: u64) {
        self.dent = dent;
    }

    fn new_line(&mut self) -> io::Result<()> {
        self.write_char(11)
    }

    fn order(&mut self, _object: &Object) -> io::Result<Option<Vec<usize>>> {
        if self.has_order {
            return Ok(None);
        }
        self.note_fault();
        Err(ORDERLESS.error())
    }

    ghost writer_law = { λ _ _. refl };

    ghost style_law = { λ _. IsStyle-only (λ dent. 11 ∷ []) false (λ dent. refl) };
}

impl<W> TabGenerator<W> {
    /// One that has written nothing.
    pub fn new(writer: W) -> TabGenerator<W> {
        TabGenerator {
            writer,
            dent: 0,
            faults: 0,
            has_order: true,
        }
    }
}

/// Writes the value, or its object, if it is one and `is_object`.
fn write<G: Generator>(generator: &mut G, value: &JsonValue, is_object: bool) -> io::Result<()> {
    match value.as_object() {
        Some(object) if is_object => write_object(generator, object),
        _ => write_json(generator, value),
    }
}

/// What the generator writes of a text's value, and whether it is read back equal.
fn goes_round(alloc: Global, source: &str) -> Result<(Vec<u8>, bool), Fail> {
    let value = parse(alloc, source)?;
    let mut generator = TabGenerator::new(Vec::new(alloc));
    write_json(&mut generator, &value)?;
    let text = String::from_utf8(generator.writer)?;
    let is_equal = parse(alloc, text.as_str())? == value;
    Ok((text.into_bytes(), is_equal))
}

#[test]
fn reads_vertical_tabs(rt: HostRuntime) -> Tested {
    let (bytes, is_equal) = goes_round(rt.alloc(), "[1,2]")?;
    let expected = b"\x5b\x0b\x31\x2c\x0b\x32\x0b\x5d".as_slice();
    expect_eq(&rt, "the bytes", bytes.as_slice(), expected);
    expect(&rt, "read back", is_equal);
    Ok(())
}

/// The parts of texts: many elements, many entries in many objects, and many escapes.
const LARGE: &[[(&str, usize); 3]] = &[
    [("[0", 1), (",0", 70000), ("]", 1)],
    [("[{}", 1), (",{\"a\":[],\"b\":{}}", 70000), ("]", 1)],
    [("{\"\\n\":\"", 1), ("a\\u0001", 70000), ("\"}", 1)],
];

#[test]
fn reads_back_large_values(rt: HostRuntime) -> Tested {
    for parts in LARGE {
        let text = joined(rt.alloc(), parts)?;
        let (_, is_equal) = goes_round(rt.alloc(), text.as_str())?;
        expect(&rt, "read back", is_equal);
    }
    Ok(())
}

/// A text, whether its object is written alone, what is written after it, how many indents are open
/// then, and how many faults are counted.
const ORDERED: &[(&str, bool, &[u8], u64, u64)] = &[
    ("[[1,{}]]", false, b"[\x0b[\x0b1,\x0b", 2, 1),
    ("{}", true, b"[\x0b[\x0b1,\x0b", 2, 2),
];

/// What was written before the object stays, and one fault is counted.
#[test]
fn returns_the_error_of_order(rt: HostRuntime) -> Tested {
    let mut generator = TabGenerator::new(Vec::new(rt.alloc()));
    generator.has_order = false;
    for (text, is_object, written, dent, faults) in ORDERED {
        let value = parse(rt.alloc(), text)?;
        let outcome = write(&mut generator, &value, *is_object);
        expect_trouble(&rt, outcome, ORDERLESS)?;
        expect_eq(&rt, "the bytes", generator.writer.as_slice(), *written);
        expect_eq(&rt, "the indents", generator.dent, *dent);
        expect_eq(&rt, "the faults", generator.faults, *faults);
    }
    Ok(())
}

/// Counts the bytes passed to a generator, not those that go to its writer directly, and the calls
/// of `write` and of `write_char`.
#[derive(Drop)]
pub struct Counting<G: Generator> {
    inner: G,
    count: usize,
    writes: usize,
    chars: usize,
}

impl<G: Generator> Counting<G> {
    /// One that has counted nothing.
    pub fn new(inner: G) -> Counting<G>
        ensures { result.inner ≡ inner }
    {
        Counting {
            inner,
            count: 0,
            writes: 0,
            chars: 0,
        }
    }

    fn add(&mut self, count: usize)
        ensures { self.new ≡ record self.old { count = self.new.count } }
    {
        self.count = self.count.saturating_add(count);
    }
}

impl<G: Generator> Generator for Counting<G> {
    type T = G::T;

    ghost meaning = { λ g. G.meaning g.inner };

    ghost with_writer = { λ g w. record g { inner = G.with_writer g.inner w } };

    fn get_writer(&mut self) -> &mut G::T {
        self.inner.get_writer()
    }

    fn write(&mut self, slice: &[u8]) -> io::Result<()> {
        self.add(slice.len());
        self.writes = self.writes.saturating_add(1);
        self.inner.write(slice)
    }

    fn write_char(&mut self, ch: u8) -> io::Result<()> {
        self.add(1);
        self.chars = self.chars.saturating_add(1);
        self.inner.write_char(ch)
    }

    fn write_min(&mut self, slice: &[u8], min: u8) -> io::Result<()> {
        self.add(1);
        self.inner.write_min(slice, min)
    }

    fn faults(&self) -> u64 {
        self.inner.faults()
    }

    fn dent(&self) -> u64 {
        self.inner.dent()
    }

    fn note_fault(&mut self) {
        self.inner.note_fault()
    }

    fn set_dent(&mut self, dent: u64) {
        self.inner.set_dent(dent)
    }

    fn new_line(&mut self) -> io::Result<()> {
        self.inner.new_line()
    }

    fn order(&mut self, object: &Object) -> io::Result<Option<Vec<usize>>> {
        self.inner.order(object)
    }

    ghost writer_law = { λ g w. G.writer_law g.inner w };

    ghost style_law = { λ g. G.style_law g.inner };
}

/// The value has this text, each byte of which is counted; `write` is called `writes` times, and
/// `write_char` as often as is returned.
fn expect_counted(
    rt: &impl Abort,
    alloc: Global,
    value: &JsonValue,
    text: &str,
    writes: usize,
) -> Result<usize, Fail> {
    let mut generator = Counting::new(DumpGenerator::new(alloc));
    write_json(&mut generator, value)?;
    expect_bytes(rt, generator.inner.get_writer(), text);
    expect_eq(rt, text, generator.count, text.len());
    expect_eq(rt, text, generator.writes, writes);
    Ok(generator.chars)
}

/// A string, its text, and the calls of `write`: the bytes before the first escape, then in turn
/// those before an escape and the escape, and those after the last.
const STRINGS: &[(&str, &str, usize)] = &[
    ("", "\"\"", 2),
    ("plain", "\"plain\"", 2),
    ("a\"b\\\n\u{1}é", "\"a\\\"b\\\\\\n\\u0001é\"", 10),
];

const NUMBERS: &[(bool, u64, i16, &str)] = &[(false, 125, -1, "-12.5"), (true, 1, 30, "1e30")];

#[test]
fn counts_strings_and_numbers(rt: HostRuntime) -> Tested {
    let alloc = rt.alloc();
    for (string, text, writes) in STRINGS {
        let value = JsonValue::String(String::from_str(alloc, string)?);
        expect_counted(&rt, alloc, &value, text, *writes)?;
    }
    for (positive, mantissa, exponent, text) in NUMBERS {
        let number = Number::from_parts_unchecked(*positive, *mantissa, *exponent);
        expect_counted(&rt, alloc, &JsonValue::Number(number), text, 1)?;
    }
    expect_counted(&rt, alloc, &JsonValue::Number(NAN), "null", 1)?;
    Ok(())
}

/// The provided hooks take a string of any length.
#[test]
fn counts_a_long_string(rt: HostRuntime) -> Tested {
    let alloc = rt.alloc();
    let string = joined(alloc, &[("plain", 40000)])?;
    let text = joined(alloc, &[("\"", 1), ("plain", 40000), ("\"", 1)])?;
    expect_counted(&rt, alloc, &JsonValue::String(string), text.as_str(), 2)?;
    Ok(())
}

/// Each comma and each bracket is a call of `write_char`.
#[test]
fn counts_containers(rt: HostRuntime) -> Tested {
    let array = parse(rt.alloc(), "[1,20]")?;
    let chars = expect_counted(&rt, rt.alloc(), &array, "[1,20]", 2)?;
    expect_eq(&rt, "write_char", chars, 3);
    let object = parse(rt.alloc(), "{\"a\":[],\"b\":{}}")?;
    expect_counted(&rt, rt.alloc(), &object, "{\"a\":[],\"b\":{}}", 6)?;
    Ok(())
}

const TOO_DEEP: Trouble = Trouble::FailsBySystem(5);

/// Notes a character for each hook that is called, and passes the call on.
#[derive(Drop)]
struct Noting<G: Generator> {
    inner: G,
    calls: String,
}

impl<G: Generator> Noting<G> {
    /// One that has noted nothing.
    fn new(alloc: Global, inner: G) -> Noting<G>
        ensures { result.inner ≡ inner }
    {
        Noting {
            inner,
            calls: String::new(alloc),
        }
    }

    /// Where memory runs out the call isn't noted.
    fn note(&mut self, hook: char)
        ensures { self.new ≡ record self.old { calls = self.new.calls } }
    {
        let _ = self.calls.push(hook);
    }
}

impl<G: Generator> Generator for Noting<G> {
    type T = G::T;

    ghost meaning = { λ g. G.meaning g.inner };

    ghost with_writer = { λ g w. record g { inner = G.with_writer g.inner w } };

    fn get_writer(&mut self) -> &mut G::T {
        self.inner.get_writer()
    }

    fn write(&mut self, slice: &[u8]) -> io::Result<()> {
        self.note('w');
        self.inner.write(slice)
    }

    /// Noted by the character itself.
    fn write_char(&mut self, ch: u8) -> io::Result<()> {
        self.note(char::from(ch));
        self.inner.write_char(ch)
    }

    fn write_min(&mut self, slice: &[u8], min: u8) -> io::Result<()> {
        self.note(':');
        self.inner.write_min(slice, min)
    }

    fn write_string(&mut self, string: &str) -> io::Result<()> {
        self.note('s');
        self.inner.write_string(string)
    }

    fn write_number(&mut self, num: &Number) -> io::Result<()> {
        self.note('n');
        self.inner.write_number(num)
    }

    fn new_line(&mut self) -> io::Result<()> {
        self.note('l');
        self.inner.new_line()
    }

    /// Its error is one of its own.
    fn indent(&mut self) -> io::Result<()> {
        self.note('+');
        match self.inner.indent() {
            Ok(()) => Ok(()),
            Err(_) => Err(TOO_DEEP.error()),
        }
    }

    fn dedent(&mut self) {
        self.note('-');
        self.inner.dedent()
    }

    fn order(&mut self, object: &Object) -> io::Result<Option<Vec<usize>>> {
        self.note('o');
        self.inner.order(object)
    }

    fn faults(&self) -> u64 {
        self.inner.faults()
    }

    fn dent(&self) -> u64 {
        self.inner.dent()
    }

    fn note_fault(&mut self) {
        self.inner.note_fault()
    }

    fn set_dent(&mut self, dent: u64) {
        self.inner.set_dent(dent)
    }

    ghost writer_law = { λ g w. G.writer_law g.inner w };

    ghost style_law = { λ g. G.style_law g.inner };
}

/// A text, and the hooks that are called for its value.
const CALLED: &[(&str, &str)] = &[
    ("null", "w"),
    ("true", "w"),
    ("false", "w"),
    ("-1.50", "n"),
    ("\"a\\n\"", "s"),
    ("[]", "w"),
    ("{}", "ow"),
    ("[1,\"a\"]", "[+ln,ls-l]"),
    ("{\"a\":[],\"b\":{\"c\":null}}", "o{+ls:w,ls:o{+ls:w-l}-l}"),
];

/// The hooks that are called for the value, or for its object, if it is one and `is_object`, where
/// this many indents are open; and the outcome.
fn noted(alloc: Global, dent: u64, value: &JsonValue, is_object: bool) -> (String, io::Result<()>) {
    let mut generator = Noting::new(alloc, DumpGenerator::new(alloc));
    generator.inner.set_dent(dent);
    let outcome = write(&mut generator, value, is_object);
    (generator.calls, outcome)
}

fn expect_called(rt: &impl Tester, text: &str, hooks: &str) -> Tested {
    let value = parse(rt.alloc(), text)?;
    for is_object in [false, true] {
        let (calls, outcome) = noted(rt.alloc(), 0, &value, is_object);
        outcome?;
        expect_eq(rt, text, calls.as_str(), hooks);
    }
    Ok(())
}

#[test]
fn calls_hooks_in_order(rt: HostRuntime) -> Tested {
    for (text, hooks) in CALLED {
        expect_called(&rt, text, hooks)?;
    }
    Ok(())
}

/// A text, and the hooks that are called for its value where no indent more may be open.
const STOPPED: &[(&str, &str)] = &[("[1]", "[+"), ("{\"a\":1}", "o{+")];

/// Where no indent more may be open, the error is that of the hook, and no hook is called after it.
#[test]
fn returns_the_error_of_indent(rt: HostRuntime) -> Tested {
    for (text, hooks) in STOPPED {
        let value = parse(rt.alloc(), text)?;
        let (calls, outcome) = noted(rt.alloc(), u64::MAX, &value, false);
        expect_trouble(&rt, outcome, TOO_DEEP)?;
        expect_eq(&rt, text, calls.as_str(), hooks);
    }
    Ok(())
}
