//! From files, bytes and lines to values, and what to do with an error.

use jzon::{Error, JsonValue, LocatedError, Place, Reading, Result};
use std::alloc::Global;
use std::{fs, io};

/// The value of a file.
pub fn load(rt: &HostRuntime, path: &str) -> io::Result<JsonValue> {
    let text = fs::read_to_string(rt, path)?;
    Ok(jzon::parse(rt.alloc(), text.as_str())?)
}

/// The value of a text in bytes.
pub fn parse_bytes(alloc: Global, bytes: &[u8]) -> Result<JsonValue> {
    match str::from_utf8(bytes) {
        Ok(text) => jzon::parse(alloc, text),
        Err(_) => Err(Error::FailedUtf8Parsing),
    }
}

/// The value of a text that may begin with a byte order mark.
pub fn parse_after_mark(alloc: Global, text: &str) -> Result<JsonValue> {
    jzon::parse(alloc, text.strip_prefix('\u{feff}').unwrap_or(text))
}

/// The value of a text that repeats no key in an object.
pub fn parse_strictly(alloc: Global, text: &str) -> Result<JsonValue> {
    jzon::parse_as(alloc, text, &Reading::STRICT)
}

/// The value of a text in which at most 16 containers are open at once.
pub fn parse_flat(alloc: Global, text: &str) -> Result<JsonValue> {
    jzon::parse_as(alloc, text, &Reading::USUAL.with_depth(16))
}

/// What to print for an error of a file: where it is, the line, and a caret below the character. A
/// long line is cut round the column.
pub fn explained(alloc: Global, file: &str, text: &str, located: &LocatedError) -> Result<String> {
    let error = &located.error;
    let Some(Place { line, column, .. }) = located.place else {
        return Ok(format!(in alloc; "{file}: {error}")?);
    };
    let faulty = text.lines().nth(line.saturating_sub(1)).unwrap_or("");
    let skipped = column.saturating_sub(41);
    let shown = from_character(faulty, skipped);
    let after = from_character(shown, 80);
    let shown = shown.strip_suffix(after).unwrap_or(shown);
    let mut indent = String::new(alloc);
    for character in shown
        .chars()
        .take(column.saturating_sub(skipped).saturating_sub(1))
    {
        indent.push(if character == '\t' { '\t' } else { ' ' })?;
    }
    Ok(format!(in alloc; "{file}:{line}:{column}: {error}\n{shown}\n{indent}^")?)
}

/// What follows this many characters.
fn from_character(text: &str, count: usize) -> &str {
    match text.char_indices().nth(count) {
        Some((offset, _)) => text.get(offset..).unwrap_or(""),
        None => "",
    }
}

/// Whether nothing but whitespace of JSON is in the text.
fn is_blank(text: &str) -> bool {
    text.bytes().all(|byte| matches!(byte, 9..=13 | 32))
}

/// The values of a text that has one JSON text on each line. Blank lines are skipped.
pub fn parse_lines(alloc: Global, text: &str) -> Result<Vec<JsonValue>> {
    let mut values = Vec::new(alloc);
    for line in text.lines() {
        if !is_blank(line) {
            values.push(jzon::parse(alloc, line)?)?;
        }
    }
    Ok(values)
}

/// The values of texts that follow one another, with whitespace or nothing between them. The line
/// and column of an error are counted in the text that it is about.
pub fn parse_all(alloc: Global, texts: &str) -> Result<Vec<JsonValue>> {
    let mut values = Vec::new(alloc);
    let mut rest = texts;
    for _ in 0..texts.len() {
        if is_blank(rest) {
            break;
        }
        rest = add_first(alloc, rest, &mut values)?;
    }
    Ok(values)
}

/// Adds the value of the first text, and returns what follows this text: the first text ends where
/// `parse_located` finds the next one to begin.
fn add_first<'a>(alloc: Global, texts: &'a str, values: &mut Vec<JsonValue>) -> Result<&'a str> {
    let located = match jzon::parse_located(alloc, texts, &Reading::USUAL) {
        Ok(value) => {
            values.push(value)?;
            return Ok("");
        }
        Err(located) => located,
    };
    let parts = located
        .place
        .and_then(|place| texts.split_at_checked(place.offset));
    let Some((first, later)) = parts else {
        return Err(located.error);
    };
    match jzon::parse(alloc, first) {
        Ok(value) => values.push(value)?,
        Err(Error::OutOfMemory) => return Err(Error::OutOfMemory),
        Err(_) => return Err(located.error),
    }
    Ok(later)
}
