//! From values to files and texts.

use jzon::{JsonValue, Result};
use std::alloc::Global;
use std::fs::File;
use std::io;
use std::io::{BufWriter, Write};

/// Writes a value into a file, on lines.
pub fn save(rt: &HostRuntime, path: &str, value: &JsonValue) -> io::Result<()> {
    write_line(rt.alloc(), File::create(rt, path)?, value)
}

/// Writes a value and a newline, in large pieces.
pub fn write_line<W: Write + Drop>(alloc: Global, writer: W, value: &JsonValue) -> io::Result<()> {
    let mut buffered = BufWriter::new(alloc, writer)?;
    value.write_pretty(&mut buffered, 2)?;
    buffered.write_all(b"\n")?;
    buffered.flush()
}

/// Adds the compact text of an array or object to a string.
pub fn add_text(text: &mut String, value: &JsonValue) -> Result<()> {
    write!(text, "{value}")?;
    Ok(())
}

/// The compact text of a value, with an escape for each character that isn't ASCII.
pub fn ascii(alloc: Global, value: &JsonValue) -> Result<String> {
    let text = value.dump(alloc)?;
    let mut escaped = String::new(alloc);
    for character in text.chars() {
        if character.is_ascii() {
            escaped.push(character)?;
        } else {
            push_escape(alloc, &mut escaped, character)?;
        }
    }
    Ok(escaped)
}

/// Adds one escape for each of the one or two UTF-16 units of the character.
fn push_escape(alloc: Global, text: &mut String, character: char) -> Result<()> {
    let mut room = [0u16; 2];
    for unit in character.encode_utf16(&mut room).iter() {
        let escape = format!(in alloc; "\\u{unit:04x}")?;
        text.push_str(escape.as_str())?;
    }
    Ok(())
}
