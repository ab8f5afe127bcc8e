//! Escapes in strings (RFC 8259, section 7): simple ones, a backslash and a letter, and the
//! hexadecimal digits of others, as they are read and printed. By `read_back` in contracts, what is
//! printed is read back.

ghost use Rattle.std.specs.Prelude.{◌≡◌, ◌<◌, IsTrue, IfSome};
ghost use Rattle.std.specs.Char.{is_ascii_hexdigit, digit_char, digit_value};
ghost use Rattle.std.specs.Option.{SomeIff};
ghost use Rattle.jzon_base.specs.Escapes.{is_simple, unescaped, letter_of};

/// What the simple escape with each letter means, and 0 for all other bytes.
#[rattlefmt::skip]
static UNESCAPED: [u8; 256] = [
    0, 0, 0, 0, 0, 0, 0, 0, 0, 0, 0, 0, 0, 0, 0, 0,
    0, 0, 0, 0, 0, 0, 0, 0, 0, 0, 0, 0, 0, 0, 0, 0,
    0, 0, b'"', 0, 0, 0, 0, 0, 0, 0, 0, 0, 0, 0, 0, b'/',
    0, 0, 0, 0, 0, 0, 0, 0, 0, 0, 0, 0, 0, 0, 0, 0,
    0, 0, 0, 0, 0, 0, 0, 0, 0, 0, 0, 0, 0, 0, 0, 0,
    0, 0, 0, 0, 0, 0, 0, 0, 0, 0, 0, 0, b'\\', 0, 0, 0,
    0, 0, 8, 0, 0, 0, 12, 0, 0, 0, 0, 0, 0, 0, 10, 0,
    0, 0, 13, 0, 9, 0, 0, 0, 0, 0, 0, 0, 0, 0, 0, 0,
    0, 0, 0, 0, 0, 0, 0, 0, 0, 0, 0, 0, 0, 0, 0, 0,
    0, 0, 0, 0, 0, 0, 0, 0, 0, 0, 0, 0, 0, 0, 0, 0,
    0, 0, 0, 0, 0, 0, 0, 0, 0, 0, 0, 0, 0, 0, 0, 0,
    0, 0, 0, 0, 0, 0, 0, 0, 0, 0, 0, 0, 0, 0, 0, 0,
    0, 0, 0, 0, 0, 0, 0, 0, 0, 0, 0, 0, 0, 0, 0, 0,
    0, 0, 0, 0, 0, 0, 0, 0, 0, 0, 0, 0, 0, 0, 0, 0,
    0, 0, 0, 0, 0, 0, 0, 0, 0, 0, 0, 0, 0, 0, 0, 0,
    0, 0, 0, 0, 0, 0, 0, 0, 0, 0, 0, 0, 0, 0, 0, 0,
];

/// The letter of the simple escape that each byte is printed as, and 0 for all others. No byte from
/// 96 on has one.
#[rattlefmt::skip]
static ESCAPE_LETTERS: [u8; 96] = [
    0, 0, 0, 0, 0, 0, 0, 0, b'b', b't', b'n', 0, b'f', b'r', 0, 0,
    0, 0, 0, 0, 0, 0, 0, 0, 0, 0, 0, 0, 0, 0, 0, 0,
    0, 0, b'"', 0, 0, 0, 0, 0, 0, 0, 0, 0, 0, 0, 0, 0,
    0, 0, 0, 0, 0, 0, 0, 0, 0, 0, 0, 0, 0, 0, 0, 0,
    0, 0, 0, 0, 0, 0, 0, 0, 0, 0, 0, 0, 0, 0, 0, 0,
    0, 0, 0, 0, 0, 0, 0, 0, 0, 0, 0, 0, b'\\', 0, 0, 0,
];

const NONE: u8 = 255;

/// The value of each byte that is a hexadecimal digit, and `NONE` for all others.
#[rattlefmt::skip]
static DIGIT_VALUES: [u8; 256] = [
    NONE, NONE, NONE, NONE, NONE, NONE, NONE, NONE, NONE, NONE, NONE, NONE, NONE, NONE, NONE, NONE,
    NONE, NONE, NONE, NONE, NONE, NONE, NONE, NONE, NONE, NONE, NONE, NONE, NONE, NONE, NONE, NONE,
    NONE, NONE, NONE, NONE, NONE, NONE, NONE, NONE, NONE, NONE, NONE, NONE, NONE, NONE, NONE, NONE,
    0, 1, 2, 3, 4, 5, 6, 7, 8, 9, NONE, NONE, NONE, NONE, NONE, NONE,
    NONE, 10, 11, 12, 13, 14, 15, NONE, NONE, NONE, NONE, NONE, NONE, NONE, NONE, NONE,
    NONE, NONE, NONE, NONE, NONE, NONE, NONE, NONE, NONE, NONE, NONE, NONE, NONE, NONE, NONE, NONE,
    NONE, 10, 11, 12, 13, 14, 15, NONE, NONE, NONE, NONE, NONE, NONE, NONE, NONE, NONE,
    NONE, NONE, NONE, NONE, NONE, NONE, NONE, NONE, NONE, NONE, NONE, NONE, NONE, NONE, NONE, NONE,
    NONE, NONE, NONE, NONE, NONE, NONE, NONE, NONE, NONE, NONE, NONE, NONE, NONE, NONE, NONE, NONE,
    NONE, NONE, NONE, NONE, NONE, NONE, NONE, NONE, NONE, NONE, NONE, NONE, NONE, NONE, NONE, NONE,
    NONE, NONE, NONE, NONE, NONE, NONE, NONE, NONE, NONE, NONE, NONE, NONE, NONE, NONE, NONE, NONE,
    NONE, NONE, NONE, NONE, NONE, NONE, NONE, NONE, NONE, NONE, NONE, NONE, NONE, NONE, NONE, NONE,
    NONE, NONE, NONE, NONE, NONE, NONE, NONE, NONE, NONE, NONE, NONE, NONE, NONE, NONE, NONE, NONE,
    NONE, NONE, NONE, NONE, NONE, NONE, NONE, NONE, NONE, NONE, NONE, NONE, NONE, NONE, NONE, NONE,
    NONE, NONE, NONE, NONE, NONE, NONE, NONE, NONE, NONE, NONE, NONE, NONE, NONE, NONE, NONE, NONE,
    NONE, NONE, NONE, NONE, NONE, NONE, NONE, NONE, NONE, NONE, NONE, NONE, NONE, NONE, NONE, NONE,
];

/// What a backslash and this letter mean, or `None` if no simple escape has it.
#[inline(always)]
pub fn meant_by(letter: u8) -> Option<char>
    ensures { SomeIff result (IsTrue (is_simple letter)) (unescaped letter) }
{
    let meant = UNESCAPED[letter as usize];
    if meant == 0 {
        None
    } else {
        Some(char::from(meant))
    }
}

/// The letter of the simple escape that this byte is printed as, or `None` if it has none.
#[inline(always)]
pub fn letter_of(byte: u8) -> Option<u8>
    ensures letter { SomeIff result (0 < letter_of byte) (letter_of byte) }
    ensures read_back { IfSome result (λ letter. IsTrue (is_simple letter)
        × (unescaped letter ≡ byte)) }
{
    if byte >= 96 {
        return None;
    }
    let letter = ESCAPE_LETTERS[byte as usize];
    if letter == 0 { None } else { Some(letter) }
}

/// The value of the hexadecimal digit, of either case, or `None` for any other byte.
#[inline(always)]
pub fn hex_value(byte: u8) -> Option<u32>
    ensures { SomeIff result (IsTrue (is_ascii_hexdigit byte)) (digit_value byte) }
{
    let value = DIGIT_VALUES[byte as usize];
    if value == NONE {
        None
    } else {
        Some(u32::from(value))
    }
}

/// The lower-case hexadecimal digit of this value.
#[inline(always)]
pub fn hex_digit(value: u8) -> u8
    requires { value < 16 }
    ensures digit { result ≡ digit_char value }
    ensures read_back { IsTrue (is_ascii_hexdigit result) × (digit_value result ≡ value) }
{
    if value < 10 {
        b'0' + value
    } else {
        b'a' - 10 + value
    }
}
