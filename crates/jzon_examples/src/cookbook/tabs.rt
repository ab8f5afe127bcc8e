//! A custom generator: each line begins with a tab for each container around it, up to 64.

ghost use Rattle.std.specs.Prelude.{◌≤◌, IfOk, IsTrue, string_bytes};
ghost use Rattle.jzon.specs.Laws.{IsReadAs};
ghost use Rattle.jzon.specs.Lawful.{HasNoNan};
ghost use Rattle.jzon.specs.Reading.{usual};
ghost use Rattle.jzon.specs.Same.{same};
ghost use Rattle.jzon.specs.Value.{nest};
ghost use Rattle.jzon.specs.View.{view};

use jzon::codegen::{Generator, write_json};
use jzon::object::Object;
use jzon::{Error, JsonValue, Result};
use std::alloc::Global;
use std::io;

/// A newline, and the most tabs that a line begins with.
#[rattlefmt::skip]
const LINE: [u8; 65] = [
    b'\n', b'\t', b'\t', b'\t', b'\t', b'\t', b'\t', b'\t', b'\t', b'\t', b'\t', b'\t', b'\t', b'\t', b'\t', b'\t',
    b'\t', b'\t', b'\t', b'\t', b'\t', b'\t', b'\t', b'\t', b'\t', b'\t', b'\t', b'\t', b'\t', b'\t', b'\t', b'\t',
    b'\t', b'\t', b'\t', b'\t', b'\t', b'\t', b'\t', b'\t', b'\t', b'\t', b'\t', b'\t', b'\t', b'\t', b'\t', b'\t',
    b'\t', b'\t', b'\t', b'\t', b'\t', b'\t', b'\t', b'\t', b'\t', b'\t', b'\t', b'\t', b'\t', b'\t', b'\t', b'\t',
    b'\t',
];

/// Writes into memory.
#[derive(Drop)]
pub struct Tabs {
    text: Vec<u8>,
    dent: u64,
    faults: u64,
}

impl Generator for Tabs {
    ghost use Rattle.std.specs.Prelude.{Some, None, refl};
    ghost use Rattle.jzon.specs.Writing.{any_style};
    ghost use Rattle.jzon.specs.StyleLaws.{IsStyle-any};

    type T = Vec<u8>;

    ghost meaning = { λ g. record {
      out = Some g.text.items;
      dent = g.dent;
      faults = g.faults;
      style = any_style;
      lender = None;
    } };

    ghost with_writer = { λ g text. record g { text = text } };

    fn get_writer(&mut self) -> &mut Vec<u8> {
        &mut self.text
    }

    /// A colon and a space, not the colon alone.
    fn write_min(&mut self, slice: &[u8], _min: u8) -> io::Result<()> {
        self.write(slice)
    }

    fn faults(&self) -> u64 {
        self.faults
    }

    fn dent(&self) -> u64 {
        self.dent
    }

    fn note_fault(&mut self) {
        self.faults = self.faults.saturating_add(1);
    }

    fn set_dent(&mut self, dent: u64) {
        self.dent = dent;
    }

    fn new_line(&mut self) -> io::Result<()> {
        let tabs = self.dent.min(64) as usize;
        self.write(&LINE[..=tabs])
    }

    fn order(&mut self, _object: &Object) -> io::Result<Option<Vec<usize>>> {
        Ok(None)
    }

    ghost writer_law = { λ _ _. refl };

    ghost style_law = { λ _. IsStyle-any };
}

/// The text of a value, on lines that begin with tabs. It is read back as an equal value.
pub fn with_tabs(alloc: Global, value: &JsonValue) -> Result<String>
    requires nan { HasNoNan (view value.now) }
    requires depth { nest (view value.now) ≤ 512 }
    ensures read { IfOk result (λ text. IsReadAs usual (string_bytes text)
        (λ again. IsTrue (same again (view value.now)))) }
{
    let mut generator = Tabs {
        text: Vec::new(alloc),
        dent: 0,
        faults: 0,
    };
    match write_json(&mut generator, value) {
        Ok(()) => String::from_utf8(generator.text).map_err(|_| Error::FailedUtf8Parsing),
        Err(_) => Err(Error::OutOfMemory),
    }
}
