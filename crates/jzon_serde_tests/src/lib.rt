//! Tests of `jzon_serde`: types of each form of serde's derives, texts for each, and what is written
//! again or what the error says. They are a crate of their own because a crate that contains tests is
//! proved twice.
#![tactic(auto)]

#[cfg(test)]
mod again;
#[cfg(test)]
mod common;
#[cfg(test)]
mod errors;
#[cfg(test)]
mod hostile;
#[cfg(test)]
mod rows;
#[cfg(test)]
mod types;
