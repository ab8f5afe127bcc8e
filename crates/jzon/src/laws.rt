//! Laws on texts and values, for every reading. Each law is the contract of a function that does
//! nothing (`crates/jzon/CALLING.md`, "Laws"). A *tree* shows how a text follows the grammar, a
//! *fault* is a wrong offset with its kind, a *breach* a limit exceeded at a character.

ghost use Rattle.jzon.specs.Exact.{ExactNumbers, InexactNumbers};
ghost use Rattle.jzon.specs.Laws.{OneReading, OneText, DigitBreaches, OneFault, NumberText, Redump, StrictStyles, ReadsBack};

/// Two trees that spell the same text are equal, so a text can be read in at most one way.
pub fn one_reading()
    ensures { OneReading }
{}

/// The text of a tree is the same in each reading. A container too many may be found at the first
/// digit of a number, but no digit limit is broken there, so neither hides the other.
pub fn one_spelling()
    ensures text { OneText }
    ensures breach { DigitBreaches }
{}

/// Each text has exactly one tree, which breaks no limit, and no fault; or no tree within the
/// limits, and exactly one fault is its first.
pub fn one_fault()
    ensures { OneFault }
{}

/// The printed text of a number but NaN has at most 29 bytes, and is read as an equal number, which
/// prints as this text again.
pub fn number_text()
    ensures { NumberText }
{}

/// The compact text of a value, maybe with NaN, that nests no deeper than the reading allows is
/// read as a value with the same compact text.
pub fn redump()
    ensures { Redump }
{}

/// The compact and pretty styles allow only whitespace of a strict reading, so `reads_back` applies
/// to them in each reading.
pub fn strict_styles()
    ensures { StrictStyles }
{}

/// Each text written for a value without NaN that nests no deeper than the reading allows is read
/// as an equal value; for a strict reading, if its style allows strict whitespace only.
pub fn reads_back()
    ensures { ReadsBack }
{}

/// Each number of a text that an exact reading accepts has the value that its digits and exponent
/// spell: no digit but 0 is dropped, and the exponent is clamped only if the mantissa is 0.
pub fn exact_numbers()
    ensures { ExactNumbers }
{}

/// A number that an exact reading rejects as inexact has no mantissa and exponent with its value,
/// unless that mantissa and the kept digits differ by zeros at the end: `10e-32769` is `1e-32768`.
pub fn inexact_numbers()
    ensures { InexactNumbers }
{}
