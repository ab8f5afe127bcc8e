//! Printing (docs/GENERATORS.md). `driver` goes over a value and calls the methods (*hooks*) of a
//! `generator`. Those of the crate, in `text_generator`, write to a `destination`.
//!
//! ```text
//! trait        implemented by                                used by
//! Generator    TextGenerator; a caller's own                 write_json, write_object
//! Layout       Compact; Pretty; a reference; a caller's own  TextGenerator
//! Destination  Memory: dump, pretty, lay_out                 TextGenerator
//!              Through: write, write_pretty, write_layout
//!              &mut W: a caller's WriterGenerator
//! Write        a vector; a caller's writer; Buffered         Destination
//! ```

mod buffer;
pub(crate) mod buffered;
pub(crate) mod destination;
mod display;
pub(crate) mod driver;
mod error_slot;
mod generator;
mod layout;
mod pieces;
mod strings;
mod text_generator;

pub use driver::{write_json, write_object};
pub use generator::Generator;
pub use layout::{Compact, Layout, Pretty};
pub use text_generator::{
    DumpGenerator, PrettyGenerator, PrettyWriterGenerator, TextGenerator, WriterGenerator,
};
