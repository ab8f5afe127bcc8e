//! What callers of `jzon` often need beside it (docs/TOOLS.md): changes at a pointer, patches,
//! merge patches, layers, canonical texts, sorted keys, and redaction. Free functions and their
//! errors, by module.
#![tactic(auto)]

pub mod canonical;
pub mod edit;
pub mod merge;
pub mod patch;
pub mod redact;
pub mod sorted_layout;
mod weight;
