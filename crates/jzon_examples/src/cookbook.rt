//! What users of a JSON library want to do. docs/COOKBOOK.md quotes these functions, file by file,
//! and the crate `jzon_examples_tests` runs each.

pub mod building;
pub mod changing;
pub mod depth;
pub mod looking;
pub mod printing;
pub mod proved;
pub mod read_back;
pub mod reading;
pub mod refused;
pub mod tabs;
