//! Texts of an error, for a person, in one line: escaped as in a string of JSON, also the
//! *hidden* characters, which aren't seen, end a line, or turn the direction of what follows
//! (`\uXXXX`; above U+FFFF two of these, for surrogates). Where bytes bound the characters shown,
//! each counts as wide as the widest.

ghost use Rattle.std.specs.Prelude.{◌≡◌, ◌<◌, ◌≤◌, ◌-◌, ◌^◌, Some, chars, false, length, map, min, nat_le, not, true, ◌&&◌};
ghost use Rattle.std.specs.Char.{digit_char};
ghost use Rattle.std.specs.Fmt.{WritesOnOk};
ghost use Rattle.std.specs.List.{list_any};
ghost use Rattle.jzon_pointer.specs.Shown.{byte_text, cut_text, escape_text, fitted, is_hidden, is_hidden_pair, is_hidden_unit, name_shown, names_text, others_text, pair_text, piece, place_text, pointer_shown, shown_char, shown_text, text_error_text, token_shown, widest, words_shown};

use jzon::{Error, LocatedError};
use std::fmt;

/// A pointer in a message: escaped, and if it takes more than 200 bytes so, its beginning and its
/// end, of at most 100 bytes each, with `..` between them.
///
/// ```rust
/// let shown = format!(in alloc; "{}", ShownPointer(path))?;
/// ```
#[derive(Clone, Copy)]
pub struct ShownPointer<'a>(pub &'a str);

impl fmt::Display for ShownPointer<'_> {
    ghost output = { λ p. Some (pointer_shown p.0.now) };

    fn fmt<W: fmt::Write>(&self, f: &mut fmt::Formatter<W>) -> fmt::Result {
        show_pointer(f, self.0)
    }
}

/// A token or a key in a message: escaped, and after 40 characters, or 456 bytes, `..`.
#[derive(Clone, Copy)]
pub struct ShownToken<'a>(pub &'a str);

impl fmt::Display for ShownToken<'_> {
    ghost output = { λ t. Some (token_shown t.0.now) };

    fn fmt<W: fmt::Write>(&self, f: &mut fmt::Formatter<W>) -> fmt::Result {
        let room = 456 / widest(self.0);
        show_cut(f, self.0, room.min(40), 0)
    }
}

/// The words of a program in a message: as they are, or, if there are more than 200 bytes or a
/// character is hidden, escaped, and after at most 200 bytes `..`.
#[derive(Clone, Copy)]
pub struct ShownWords<'a>(pub &'a str);

impl fmt::Display for ShownWords<'_> {
    ghost output = { λ t. Some (words_shown t.0.now) };

    fn fmt<W: fmt::Write>(&self, f: &mut fmt::Formatter<W>) -> fmt::Result {
        if is_line(self.0) {
            return f.write_str(self.0);
        }
        show_fitting(f, self.0, 200, 200 / widest(self.0), 0)
    }
}

/// Whether a text has at most 200 bytes, and no hidden character.
fn is_line(text: &str) -> bool
    ensures { result ≡ (nat_le (length text.now) 200 && not (list_any is_hidden (chars text.now))) }
{
    text.len() <= 200 && !has_hidden(text)
}

/// Whether a character of a text is hidden.
fn has_hidden(text: &str) -> bool
    ensures { result ≡ list_any is_hidden (chars text.now) }
{
    text.chars().any(|ch| is_hidden(ch))
}

/// A pointer, escaped, and cut in the middle if it takes more than 200 bytes.
pub fn show_pointer<W: fmt::Write>(f: &mut fmt::Formatter<W>, pointer: &str) -> fmt::Result
    ensures { WritesOnOk W.write_str_gives f.old result (pointer_shown pointer.now) f.new }
{
    let each = 100 / widest(pointer);
    show_fitting(f, pointer, 200, each, each)
}

/// How many bytes the widest character of a text takes as it is shown: at least 1, as a divisor.
fn widest(text: &str) -> usize
    ensures widest { result ≡ widest (chars text.now) }
    ensures some { 1 ≤ result }
{
    let mut most = 1usize;
    for ch in text.chars() {
        most = most.max(width(ch));
    }
    most
}

/// How many bytes a character takes where it is shown: `\uXXXX` has 6.
fn width(ch: char) -> usize
    ensures { result ≡ length (shown_char ch) }
{
    match ch {
        '"' | '\\' | '\n' | '\r' | '\t' => 2,
        _ if is_hidden_unit(ch) => 6,
        _ if is_hidden_pair(ch) => 12,
        _ => ch.len_utf8(),
    }
}

/// A text, escaped; of one that takes more than `most` bytes so, its first `front` and its last
/// `back` characters, with dots between them. `most` is bounded because `shown_len` saturates, and
/// `front` because `show_cut` asks for that.
fn show_fitting<W: fmt::Write>(
    f: &mut fmt::Formatter<W>,
    text: &str,
    most: usize,
    front: usize,
    back: usize,
) -> fmt::Result
    requires most { most < 1000 }
    requires front { front < 1000 }
    ensures { WritesOnOk W.write_str_gives f.old result (fitted most front back text.now) f.new }
{
    if shown_len(text) <= most {
        return show_text(f, text);
    }
    show_cut(f, text, front, back)
}

/// How many bytes a text takes where it is shown, or the most that a `usize` counts.
fn shown_len(text: &str) -> usize
    ensures { result ≡ min (length (shown_text text.now)) (2 ^ 64 - 1) }
{
    let mut bytes = 0usize;
    for ch in text.chars() {
        bytes = bytes.saturating_add(width(ch));
    }
    bytes
}

/// The first `front` and the last `back` characters of a text, escaped, with dots between them if
/// others are there. `front` is bounded because `at` saturates: the proof doesn't know that a text
/// has fewer than 2^64 characters.
fn show_cut<W: fmt::Write>(
    f: &mut fmt::Formatter<W>,
    text: &str,
    front: usize,
    back: usize,
) -> fmt::Result
    requires { front < 1000 }
    ensures { WritesOnOk W.write_str_gives f.old result (cut_text front back text.now) f.new }
{
    let last = text.chars().count().saturating_sub(back);
    let mut at = 0usize;
    for ch in text.chars() {
        show_piece(f, ch, at, front, last)?;
        at = at.saturating_add(1);
    }
    Ok(())
}

/// Character `at` of a text: itself before `front` and from `last` on, and dots at `front`.
fn show_piece<W: fmt::Write>(
    f: &mut fmt::Formatter<W>,
    ch: char,
    at: usize,
    front: usize,
    last: usize,
) -> fmt::Result
    ensures { WritesOnOk W.write_str_gives f.old result (piece front last at ch) f.new }
{
    if at < front || last <= at {
        return show_char(f, ch);
    }
    if at == front {
        return f.write_str("..");
    }
    Ok(())
}

/// A text's error as `jzon` prints it, but with its character escaped.
pub fn show_text_error<W: fmt::Write>(
    f: &mut fmt::Formatter<W>,
    error: &LocatedError,
) -> fmt::Result
    ensures { WritesOnOk W.write_str_gives f.old result
        (text_error_text error.now.error error.now) f.new }
{
    match &error.error {
        Error::UnexpectedCharacter { ch, line, column } => {
            f.write_str("Unexpected character: ")?;
            show_char(f, *ch)?;
            write!(f, " at ({line}:{column})")
        }
        _ => write!(f, "{error}"),
    }
}

/// The pointer of a value, and a colon. Nothing for the whole value.
pub fn show_place<W: fmt::Write>(f: &mut fmt::Formatter<W>, pointer: &str) -> fmt::Result
    ensures { WritesOnOk W.write_str_gives f.old result (place_text pointer.now) f.new }
{
    if pointer.is_empty() {
        return Ok(());
    }
    show_pointer(f, pointer)?;
    f.write_str(": ")
}

/// A text without quotes, escaped, and not cut.
pub fn show_text<W: fmt::Write>(f: &mut fmt::Formatter<W>, text: &str) -> fmt::Result
    ensures { WritesOnOk W.write_str_gives f.old result (shown_text text.now) f.new }
{
    for ch in text.chars() {
        show_char(f, ch)?;
    }
    Ok(())
}

/// A character in a string of JSON, by its escape if it is hidden.
pub(crate) fn show_char<W: fmt::Write>(f: &mut fmt::Formatter<W>, ch: char) -> fmt::Result
    ensures { WritesOnOk W.write_str_gives f.old result (shown_char ch) f.new }
{
    match ch {
        '"' => f.write_str("\\\""),
        '\\' => f.write_str("\\\\"),
        '\n' => f.write_str("\\n"),
        '\r' => f.write_str("\\r"),
        '\t' => f.write_str("\\t"),
        _ if is_hidden_unit(ch) => show_escape(f, u32::from(ch)),
        _ if is_hidden_pair(ch) => show_pair(f, u32::from(ch)),
        _ => f.write_char(ch),
    }
}

/// Whether a character is hidden: it is shown by its escape.
pub fn is_hidden(ch: char) -> bool
    ensures { result ≡ is_hidden ch }
{
    is_hidden_unit(ch) || is_hidden_pair(ch)
}

/// Whether a character up to U+FFFF, of one unit of UTF-16, is hidden.
fn is_hidden_unit(ch: char) -> bool
    ensures hidden { result ≡ is_hidden_unit ch }
    ensures small { result ≡ true → ch < 65536 }
{
    match ch {
        '\0'..='\u{1f}' | '\u{7f}'..='\u{9f}' | '\u{ad}' | '\u{34f}' | '\u{61c}' => true,
        '\u{115f}'..='\u{1160}' | '\u{17b4}'..='\u{17b5}' | '\u{180b}'..='\u{180f}' => true,
        '\u{200b}'..='\u{200f}' | '\u{2028}'..='\u{202e}' => true,
        '\u{2060}'..='\u{206f}' | '\u{2800}' | '\u{3164}' => true,
        '\u{fe00}'..='\u{fe0f}' | '\u{feff}' | '\u{ffa0}' | '\u{fff0}'..='\u{fffb}' => true,
        _ => false,
    }
}

/// Whether a character above U+FFFF, of a pair of units, is hidden: a format control of hieroglyphs, of shorthand or of
/// music, a tag, a variation selector, or one of U+E0000 to U+E0FFF that is unassigned.
fn is_hidden_pair(ch: char) -> bool
    ensures hidden { result ≡ is_hidden_pair ch }
    ensures above { result ≡ true → 65536 ≤ ch }
    ensures below { result ≡ true → ch < 1114112 }
{
    matches!(
        ch,
        '\u{13430}'..='\u{1343f}'
            | '\u{1bca0}'..='\u{1bca3}'
            | '\u{1d173}'..='\u{1d17a}'
            | '\u{e0000}'..='\u{e0fff}'
    )
}

/// The two surrogates of a character above U+FFFF: each first one is that of 1,024 characters, from
/// U+10000 on, and the second counts them.
fn show_pair<W: fmt::Write>(f: &mut fmt::Formatter<W>, code: u32) -> fmt::Result
    requires above { 65536 ≤ code }
    requires below { code < 1114112 }
    ensures { WritesOnOk W.write_str_gives f.old result (pair_text code) f.new }
{
    show_escape(f, 0xd800 + (code - 0x10000) / 1024)?;
    show_escape(f, 0xdc00 + code % 1024)
}

/// `\uXXXX` of a character below U+10000, or of a surrogate.
fn show_escape<W: fmt::Write>(f: &mut fmt::Formatter<W>, code: u32) -> fmt::Result
    requires { code < 65536 }
    ensures { WritesOnOk W.write_str_gives f.old result (escape_text code) f.new }
{
    f.write_str("\\u")?;
    show_byte(f, code / 256)?;
    show_byte(f, code % 256)
}

/// Two hexadecimal digits.
fn show_byte<W: fmt::Write>(f: &mut fmt::Formatter<W>, byte: u32) -> fmt::Result
    requires { byte < 256 }
    ensures { WritesOnOk W.write_str_gives f.old result (byte_text byte) f.new }
{
    f.write_char(hex_digit(byte / 16))?;
    f.write_char(hex_digit(byte % 16))
}

/// In lower case; the `'0'` is never taken.
fn hex_digit(digit: u32) -> char
    requires { digit < 16 }
    ensures { result ≡ digit_char digit }
{
    char::from_digit(digit, 16).unwrap_or('0')
}

/// Names of a program: the first eight, with commas between them, and `..` for others; or `none`.
pub fn show_names<W: fmt::Write>(f: &mut fmt::Formatter<W>, names: &[&str]) -> fmt::Result
    ensures { WritesOnOk W.write_str_gives f.old result
        (names_text (map (λ n. n.now) names.now)) f.new }
{
    let Some((first, others)) = names.split_first() else {
        return f.write_str("none");
    };
    write!(f, "{}", ShownName(*first))?;
    if others.len() <= 7 {
        return show_others(f, others);
    }
    show_others(f, &others[..7])?;
    f.write_str(", ..")
}

/// `, ` and the name, for each.
fn show_others<W: fmt::Write>(f: &mut fmt::Formatter<W>, names: &[&str]) -> fmt::Result
    ensures { WritesOnOk W.write_str_gives f.old result
        (others_text (map (λ n. n.now) names.now)) f.new }
{
    for name in names {
        write!(f, ", {}", ShownName(*name))?;
    }
    Ok(())
}

/// A name of a program, escaped, and after at most 40 bytes `..`.
#[derive(Clone, Copy)]
struct ShownName<'a>(&'a str);

impl fmt::Display for ShownName<'_> {
    ghost output = { λ t. Some (name_shown t.0.now) };

    fn fmt<W: fmt::Write>(&self, f: &mut fmt::Formatter<W>) -> fmt::Result {
        show_fitting(f, self.0, 40, 40 / widest(self.0), 0)
    }
}
