//! The text of a number (docs/RULES.md, "Printed numbers"; RFC 8259, section 6). `put_digits` puts
//! that of a common number (`is_common`) in a few stores; `number_text` makes that of any.

ghost use Rattle.std.specs.Prelude.{◌≡◌, ◌+◌, ◌≤◌, ◌<◌, ◌↔◌, ◌++◌, ◌∷◌, length, take, drop, replicate, slice_index, IsAscii, IsTrue, OnOk, OnErr};
ghost use Rattle.std.specs.Io.KnownBytes.{Appends};
ghost use Rattle.arrayvec.specs.ArrayString.{array_string_len};
ghost use Rattle.jzon_base.specs.NumberText.{IsCommon, point_after, point_after_first, fraction_text, small_exponent_text, magnitude_text, number_text};
ghost use Rattle.jzon_base.specs.PartialWrites.{AppendsBeginning};

use crate::util::write_bytes;
use arrayvec::ArrayString;
use itoa::{Buffer, write_digits};
use std::io::{self, Write};
use std::simd::Simd;

/// The most bytes in the text of a number: a minus, 20 digits, a point, and an exponent of 7 bytes,
/// such as `e-32749`.
pub const MAX_LEN: usize = 29;

/// The most digits after the point of a common number: `put_point` moves so many bytes at once.
const PLACES: usize = 16;

/// The bytes that `put_digits` needs: a sign, up to 19 digits before the point, and 17 from the
/// point on, rounded up to three stores of 16.
#[doc(hidden)]
pub const DIGITS_ROOM: usize = 48;

/// The text of a number. In contracts its room, `MAX_LEN`, is written 29.
pub type NumberText = ArrayString<MAX_LEN>;

/// Writes the text of the number `n * 10 ^ exponent` with its sign. After an error of the writer,
/// which is returned, a prefix of it is written.
pub fn write<W: Write>(wr: &mut W, positive: bool, n: u64, exponent: i16) -> io::Result<()>
    ensures ok { OnOk result
        (Appends (W.contents wr.old) (W.contents wr.new) (number_text positive n exponent)) }
    ensures err { OnErr result
        (AppendsBeginning (W.contents wr.old) (W.contents wr.new)
        (number_text positive n exponent)) }
{
    let text = number_text(positive, n, exponent);
    write_bytes(wr, text.as_str().as_bytes())
}

/// Whether the number is common: it isn't 0, its exponent is 0 to -`PLACES`, and a digit is before
/// its point.
#[doc(hidden)]
#[inline(always)]
pub fn is_common(mantissa: u64, exponent: i16) -> bool
    ensures { IsTrue result ↔ IsCommon mantissa exponent }
{
    if mantissa == 0 || exponent > 0 || exponent < -16 {
        return false;
    }
    mantissa.ilog10() as usize + 1 > exponent.unsigned_abs() as usize
}

/// Puts the text of a common number at `start`, in a few stores, and returns its end. A minus must
/// be at `start`; a positive number overwrites it. Bytes before it stay.
#[doc(hidden)]
#[inline(always)]
pub fn put_digits(
    room: &mut [u8],
    start: usize,
    positive: bool,
    mantissa: u64,
    exponent: i16,
) -> usize
    requires common { IsCommon mantissa exponent }
    requires room { start + DIGITS_ROOM ≤ length room.old }
    requires minus { slice_index room.old start ≡ 45 }
    ensures text { take result room.new
        ≡ take start room.old ++ number_text positive mantissa exponent }
    ensures within { (start ≤ result) × (result ≤ start + DIGITS_ROOM) }
    ensures len { length room.new ≡ length room.old }
{
    let end = start + (usize::from(!positive) + (mantissa.ilog10() as usize + 1));
    write_digits(mantissa, room, end);
    if exponent == 0 {
        return end;
    }
    put_point(room, end - exponent.unsigned_abs() as usize);
    end + 1
}

/// Puts a point at offset `point`; the 16 bytes from there on are moved up by one.
#[inline(always)]
fn put_point(room: &mut [u8], point: usize)
    requires { point + 17 ≤ length room.old }
    ensures text { room.new ≡ take point room.old
        ++ (46 ∷ (take 16 (drop point room.old) ++ drop (point + 17) room.old)) }
    ensures len { length room.new ≡ length room.old }
{
    let places = Simd::<u8, PLACES>::from_slice(&room[point..]);
    places.copy_to_slice(&mut room[point + 1..]);
    room[point] = b'.';
}

/// The text of the number `mantissa * 10 ^ exponent` with its sign.
#[tactic(auto, using(std::proofs::lemmas::Fmt::decimal_nonempty))]
pub fn number_text(positive: bool, mantissa: u64, exponent: i16) -> NumberText
    ensures { result.bytes ≡ number_text positive mantissa exponent }
{
    let mut text = NumberText::new();
    if !positive {
        text.push('-');
    }
    if mantissa == 0 {
        text.push('0');
    } else {
        let mut buffer = Buffer::new();
        push_magnitude(&mut text, buffer.format(mantissa), exponent);
    }
    text
}

/// Appends `digits * 10 ^ exponent`: without an exponent if that takes at most 20 digits, or 17
/// after the point; else with a point after the first digit and, unless 0, an exponent.
fn push_magnitude(text: &mut NumberText, digits: &str, exponent: i16)
    requires ascii { IsAscii digits.now }
    requires some { 0 < length digits.now }
    requires digits { length digits.now ≤ 20 }
    requires start { array_string_len text.old ≤ 1 }
    ensures { text.new.bytes ≡ text.old.bytes ++ magnitude_text digits.now exponent }
{
    let size = exponent.unsigned_abs() as usize;
    if exponent == 0 {
        text.push_str(digits);
    } else if exponent > 0 && digits.len() + size <= 20 {
        text.push_str(digits);
        push_zeros(text, size);
    } else if exponent > 0 {
        push_point_after_first(text, digits);
        text.push('e');
        let mut buffer = Buffer::new();
        text.push_str(buffer.format((size + digits.len() - 1) as u16));
    } else if size <= 17 {
        push_fraction(text, digits, size);
    } else {
        push_point_after_first(text, digits);
        push_small_exponent(text, digits.len(), size);
    }
}

/// Appends the digits divided by `10 ^ places`, without an exponent.
fn push_fraction(text: &mut NumberText, digits: &str, places: usize)
    requires ascii { IsAscii digits.now }
    requires places { places ≤ 17 }
    requires start { array_string_len text.old ≤ 1 }
    requires digits { length digits.now ≤ 20 }
    ensures { text.new.bytes ≡ text.old.bytes ++ fraction_text digits.now places }
{
    let count = digits.len();
    if count > places {
        push_point_after(text, digits, count - places);
    } else {
        text.push_str("0.");
        push_zeros(text, places - count);
        text.push_str(digits);
    }
}

/// Appends the exponent of `count` digits divided by `10 ^ places`, with the point after the first
/// digit: `count - 1 - places`. Nothing for 0, and `e+1` for 1, the largest: there are at most 20
/// digits, and at least 18 places.
fn push_small_exponent(text: &mut NumberText, count: usize, places: usize)
    requires count { count ≤ 20 }
    requires small { 18 ≤ places }
    requires places { places ≤ 32768 }
    requires room { array_string_len text.old + 7 ≤ 29 }
    ensures { text.new.bytes ≡ text.old.bytes ++ small_exponent_text count places }
{
    if count == places + 1 {
        return;
    }
    if count == places + 2 {
        text.push_str("e+1");
        return;
    }
    let mut buffer = Buffer::new();
    text.push_str("e-");
    text.push_str(buffer.format((places + 1 - count) as u16));
}

/// Appends digits, with a point after the first if there are more.
fn push_point_after_first(text: &mut NumberText, digits: &str)
    requires ascii { IsAscii digits.now }
    requires room { array_string_len text.old + length digits.now + 1 ≤ 29 }
    ensures { text.new.bytes ≡ text.old.bytes ++ point_after_first digits.now }
{
    if digits.len() > 1 {
        push_point_after(text, digits, 1);
    } else {
        text.push_str(digits);
    }
}

/// Appends digits, with a point after the first `whole`.
fn push_point_after(text: &mut NumberText, digits: &str, whole: usize)
    requires ascii { IsAscii digits.now }
    requires within { whole ≤ length digits.now }
    requires room { array_string_len text.old + length digits.now + 1 ≤ 29 }
    ensures { text.new.bytes ≡ text.old.bytes ++ point_after whole digits.now }
{
    text.push_str(&digits[..whole]);
    text.push('.');
    text.push_str(&digits[whole..]);
}

fn push_zeros(text: &mut NumberText, count: usize)
    requires { array_string_len text.old + count ≤ 29 }
    ensures { text.new.bytes ≡ text.old.bytes ++ replicate count 48 }
{
    for _ in 0..count {
        text.push('0');
    }
}
