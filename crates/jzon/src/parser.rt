//! Parses texts (RFC 8259, section 2; docs/RULES.md, "Texts") in loops, without recursion. By
//! `GoesOn` a method agrees with an automaton (docs/ARCHITECTURE.md, "How the parser is proved");
//! `left` is its outcome over the rest of the text, from a state. An *item* is an element or an
//! entry.

ghost use Rattle.std.specs.Prelude.{◌≡◌, ◌≢◌, ◌<◌, ◌+◌, length, chars, IfOk, IfErr, Err, None, Some, OnOk, true};
ghost use Rattle.jzon_tree.specs.View.{view};
ghost use Rattle.jzon.specs.Answer.{IsMeaningOf, IsReadable, IsErrorUnlessMemory, TakesMemory};
ghost use Rattle.jzon.specs.Private.Cursor.{left, next_byte, GoesOn, PassesOn};
ghost use Rattle.jzon.specs.Private.Machine.{no_frames, is_fresh, before, after_value, from, Reads};
ghost use Rattle.jzon.specs.Private.OpenContainers.{frames_around, frames_here, before_item, after_end, whole, HasAllValues, AwaitsValue, IsBeforeItem, IsAfterEnd, KeepsAround};
ghost use Rattle.jzon.specs.Private.Read.{after_read, IsAfterValue, ReadsItems};
ghost use Rattle.jzon.specs.Located.{IsLocated};
ghost use Rattle.jzon.specs.Reading.{usual};
ghost use Rattle.jzon_base.specs.Tokens.{begin_array, begin_object, end_array, quotation_mark};
ghost use Rattle.jzon.specs.Private.Brackets.{closer, after_opener};

use crate::container_kind::ContainerKind;
use crate::cursor::Cursor;
use crate::located::LocatedError;
use crate::primitive::put_primitive;
use crate::reading::Reading;
use crate::stacks::Stacks;
use crate::stop::{self, Stop};
use crate::string::read_string;
use jzon_base::error::{Error, Result};
use jzon_tree::value::JsonValue;
use std::alloc::Global;

/// The value that a text means (RFC 8259; docs/RULES.md, "Texts").
///
/// - A number keeps its digits as long as they fit in a `u64`. The others are cut, not rounded, and
///   an exponent is clamped to -32768 to 32767. An exact `Reading` rejects a number whose value that
///   would change.
/// - Of a repeated key the last value is kept, at the position of the first. A strict `Reading`
///   rejects it.
/// - Whitespace may also have vertical tabs and form feeds. A byte order mark isn't whitespace.
///
/// # Errors
///
/// The first error of the text (docs/RULES.md, "Which error is reported"), or `OutOfMemory` if an
/// allocation fails before that. A text without strings, arrays and objects allocates nothing.
///
/// ```rust
/// let value = jzon::parse(alloc, "[1, -12.50e3, {\"a\": null}]")?;
/// let text = value.dump(alloc)?;   // [1,-12500,{"a":null}]
/// let first = value.at_index(0).as_u64();   // Some(1)
/// ```
pub fn parse(alloc: Global, source: &str) -> Result<JsonValue>
    ensures value { IfOk result (IsMeaningOf usual (chars source.now)) }
    ensures readable { IfOk result (λ v. IsReadable usual (view v)) }
    ensures error { IfErr result (IsErrorUnlessMemory usual (chars source.now)) }
    ensures memory { result ≡ Err Error.OutOfMemory → TakesMemory (chars source.now) }
{
    parse_as(alloc, source, &Reading::USUAL)
}

/// The value that a text means by `reading` (docs/RULES.md, "Readings"), whose depth replaces the
/// 512 open containers of `parse`. A strict one rejects vertical tabs and form feeds, and a
/// repeated key with `DuplicateKey`, at the key's opening quote. An exact one rejects a number with
/// `InexactNumber`, at the first digit by which it isn't exact. All else is as with `parse`.
///
/// ```rust
/// jzon::parse_as(alloc, text, &Reading::STRICT)
/// ```
pub fn parse_as(alloc: Global, source: &str, reading: &Reading) -> Result<JsonValue>
    ensures value { IfOk result (IsMeaningOf reading.now (chars source.now)) }
    ensures readable { IfOk result (λ v. IsReadable reading.now (view v)) }
    ensures error { IfErr result (IsErrorUnlessMemory reading.now (chars source.now)) }
    ensures memory { result ≡ Err Error.OutOfMemory → TakesMemory (chars source.now) }
{
    match read(alloc, source, reading) {
        Ok(value) => Ok(value),
        Err(stop) => Err(stop.error(source)),
    }
}

/// Does what `parse_as` does; an error has its place too: of a repeated key the opening quote, of a
/// container too many the first character in it, of too many digits the first too many, of two
/// escapes that mean no character their last digit.
pub fn parse_located(
    alloc: Global,
    source: &str,
    reading: &Reading,
) -> std::result::Result<JsonValue, LocatedError>
    ensures value { IfOk result (IsMeaningOf reading.now (chars source.now)) }
    ensures readable { IfOk result (λ v. IsReadable reading.now (view v)) }
    ensures error { IfErr result (IsLocated reading.now source.now) }
    ensures memory { IfErr result (λ l. l.place ≡ None → TakesMemory (chars source.now)) }
{
    match read(alloc, source, reading) {
        Ok(value) => Ok(value),
        Err(stop) => Err(stop.located(source)),
    }
}

/// Parses a text, or stops at its first error, whose line and column aren't counted yet.
fn read(alloc: Global, source: &str, reading: &Reading) -> stop::Result<JsonValue>
    ensures outcome { Reads source.now result (from reading.now source.now (before no_frames) 0) }
    ensures memory { result ≡ Err Stop.Memory → TakesMemory (chars source.now) }
{
    let mut cursor = Cursor::new(source, *reading);
    let first = cursor.peek();
    let Some(kind) = ContainerKind::opened_by(first) else {
        return read_primitive(alloc, &mut cursor, first);
    };
    if cursor.open_container(kind, 0)? {
        return expect_end(&cursor, kind.empty(alloc));
    }
    read_container(alloc, &cursor, kind)
}

/// Reads the rest of a text at its first token, a primitive whose first byte is `first`. Apart, so
/// that a call clears only the locals that it needs.
#[inline(never)]
fn read_primitive(alloc: Global, cursor: &mut Cursor<'_>, first: u8) -> stop::Result<JsonValue>
    requires first { first ≡ next_byte cursor.old }
    requires no_array { first ≢ begin_array }
    requires no_object { first ≢ begin_object }
    ensures memory { result ≡ Err Stop.Memory → first ≡ quotation_mark }
    ensures outcome { Reads cursor.old.source.now result (left cursor.old (before no_frames)) }
{
    let (source, start) = (cursor.source, cursor.index);
    let exact = cursor.reading.exact_numbers();
    let mut buffer = String::new(alloc);
    let mut value = JsonValue::Null;
    let end = put_primitive(exact, alloc, source, start, first, &mut buffer, &mut value)?;
    cursor.go_to(end);
    expect_end(cursor, value)
}

/// Reads the rest of a text after the opening bracket of the outermost container, which isn't
/// empty. Apart, so that a call clears only the locals that it needs.
#[inline(never)]
fn read_container(
    alloc: Global,
    cursor: &Cursor<'_>,
    kind: ContainerKind,
) -> stop::Result<JsonValue>
    requires room { 0 < cursor.now.reading.depth }
    requires some { next_byte cursor.now ≢ closer kind }
    ensures { Reads cursor.now.source.now result (left cursor.now (after_opener kind no_frames)) }
{
    let stacks = Stacks::new(alloc, cursor.reading.strict(), kind)?;
    let mut parser = Parser {
        // By fields, because the checker takes `*cursor` for a move, though `Cursor` is `Copy`.
        cursor: Cursor {
            source: cursor.source,
            index: cursor.index,
            reading: cursor.reading,
        },
        stacks,
        buffer: String::new(alloc),
    };
    parser.read_to_end()
}

/// What `read_value` read.
#[derive(Clone, Copy)]
enum Next {
    /// A value, and the comma after it.
    Item,
    /// The opening bracket of a container that isn't empty.
    Opened(ContainerKind),
    /// A value, and the closing bracket after it.
    End,
}

/// Returns the value of the text if the text ends at the cursor; else fails there.
#[inline(always)]
fn expect_end(cursor: &Cursor<'_>, value: JsonValue) -> stop::Result<JsonValue>
    ensures memory { result ≢ Err Stop.Memory }
    ensures outcome { Reads cursor.now.source.now result
        (left cursor.now (after_value no_frames (view value))) }
{
    if cursor.index < cursor.source.len() {
        return Err(cursor.fault());
    }
    Ok(value)
}

/// A text that is being parsed, in a container that isn't empty. After an error its fields are
/// unspecified.
#[derive(Drop)]
struct Parser<'a> {
    cursor: Cursor<'a>,
    stacks: Stacks,
    /// The last string that had escapes, unescaped.
    buffer: String,
}

impl<'a> Parser<'a> {
    /// Reads the rest of the text, and returns its value: items, until a container opens or ends,
    /// and so on.
    #[inline(always)]
    fn read_to_end(&mut self) -> stop::Result<JsonValue>
        requires before { IsBeforeItem self.old.cursor self.old.stacks }
        requires strict { self.old.stacks.strict ≡ self.old.cursor.reading.strict }
        ensures { Reads self.old.cursor.source.now result
            (left self.old.cursor (before_item self.old.stacks)) }
    {
        loop {
            if let Some(kind) = self.read_items()? {
                self.stacks.open(kind)?;
            } else if self.end_containers()? {
                return self.finish();
            }
        }
    }

    /// Returns the value of the text, whose outermost container ended, if the text ends too.
    #[inline(never)]
    fn finish(&mut self) -> stop::Result<JsonValue>
        requires { IsAfterEnd self.old.cursor self.old.stacks true }
        ensures { Reads self.old.cursor.source.now result
            (left self.old.cursor (after_end self.old.stacks true)) }
    {
        let value = self.stacks.finish()?;
        expect_end(&self.cursor, value)
    }

    /// Reads items of the innermost container, to its end (`None`), or past the opening bracket of
    /// one in it that isn't empty, of this kind.
    #[inline(always)]
    fn read_items(&mut self) -> stop::Result<Option<ContainerKind>>
        requires before { IsBeforeItem self.old.cursor self.old.stacks }
        requires strict { self.old.stacks.strict ≡ self.old.cursor.reading.strict }
        ensures { ReadsItems self.old.cursor self.old.stacks result self.new.cursor self.new.stacks }
    {
        let container = self.stacks.innermost_kind();
        loop {
            // A call for each kind, so that each is compiled with its closing bracket.
            let next = match container {
                ContainerKind::Array => self.read_value(ContainerKind::Array)?,
                ContainerKind::Object => {
                    self.read_key()?;
                    self.read_value(ContainerKind::Object)?
                }
            };
            match next {
                Next::Item => {}
                Next::Opened(kind) => return Ok(Some(kind)),
                Next::End => return Ok(None),
            }
        }
    }

    /// Reads the next key of the innermost container, and the colon. A strict reading rejects a
    /// repeated key at its opening quote.
    #[inline(always)]
    fn read_key(&mut self) -> stop::Result<()>
        requires object { self.old.stacks.innermost.kind ≡ ContainerKind.Object }
        requires before { IsBeforeItem self.old.cursor self.old.stacks }
        requires strict { self.old.stacks.strict ≡ self.old.cursor.reading.strict }
        ensures kept { OnOk result (KeepsAround self.old.stacks self.new.stacks) }
        ensures awaits { OnOk result (AwaitsValue ContainerKind.Object self.new.stacks.innermost) }
        ensures outcome { GoesOn self.old.cursor (before_item self.old.stacks) result self.new.cursor
            (λ _. before (frames_here self.new.stacks)) }
    {
        if self.cursor.peek() != b'"' {
            return Err(self.cursor.fault());
        }
        let source = self.cursor.source;
        let start = self.cursor.index;
        let spelled = read_string(source, start + 1, &mut self.buffer)?;
        let (name, wide) = spelled.text(source, start + 1, &self.buffer);
        if self.stacks.push_key(name, wide)? {
            return Err(Stop::Duplicate(start));
        }
        self.cursor.pass_colon(spelled.end)
    }

    /// Reads the next value of the innermost container, of the kind `container`, and the comma or
    /// closing bracket after it; of a container that isn't empty, only the opening bracket.
    #[inline(always)]
    fn read_value(&mut self, container: ContainerKind) -> stop::Result<Next>
        requires kind { self.old.stacks.innermost.kind ≡ container }
        requires awaits { AwaitsValue container self.old.stacks.innermost }
        requires room { length self.old.stacks.around < self.old.cursor.reading.depth }
        requires some { is_fresh (frames_here self.old.stacks) ≡ true →
            next_byte self.old.cursor ≢ end_array }
        ensures kept { OnOk result (KeepsAround self.old.stacks self.new.stacks) }
        ensures after { IfOk result (IsAfterValue self.new.cursor self.new.stacks) }
        ensures outcome { GoesOn self.old.cursor (before (frames_here self.old.stacks)) result
            self.new.cursor (after_read self.new.stacks) }
    {
        let first = self.cursor.peek();
        if let Some(opened) = ContainerKind::opened_by(first) {
            let depth = self.stacks.depth();
            if !self.cursor.open_container(opened, depth)? {
                return Ok(Next::Opened(opened));
            }
            self.stacks.push_empty(opened)?;
            let here = self.cursor.index;
            if self.cursor.end_item(here, container)? {
                return Ok(Next::End);
            }
            return Ok(Next::Item);
        }
        let source = self.cursor.source;
        let start = self.cursor.index;
        let exact = self.cursor.reading.exact_numbers();
        let end = self
            .stacks
            .push_primitive(exact, source, start, first, &mut self.buffer)?;
        if self.cursor.end_item(end, container)? {
            return Ok(Next::End);
        }
        Ok(Next::Item)
    }

    /// Adds the innermost container, which ended, to the one around it, and reads what follows, as
    /// long as containers end. Returns `true` if the outermost one ended, which `finish` takes;
    /// `false` after a comma.
    #[inline(always)]
    fn end_containers(&mut self) -> stop::Result<bool>
        requires even { HasAllValues self.old.stacks.innermost.kind self.old.stacks.innermost }
        requires room { length self.old.stacks.around < self.old.cursor.reading.depth }
        ensures strict { OnOk result (self.new.stacks.strict ≡ self.old.stacks.strict) }
        ensures after { IfOk result (IsAfterEnd self.new.cursor self.new.stacks) }
        ensures outcome { PassesOn self.old.cursor (after_value (frames_around self.old.stacks)
            (whole self.old.stacks.innermost)) result self.new.cursor (after_end self.new.stacks) }
    {
        loop {
            if self.stacks.depth() == 1 {
                return Ok(true);
            }
            self.stacks.close()?;
            let container = self.stacks.innermost_kind();
            let here = self.cursor.index;
            if !self.cursor.end_item(here, container)? {
                return Ok(false);
            }
        }
    }
}
