//! Tests of `jzon_tools`, in a file of the name of each module. They are a crate of their own because
//! a crate that contains tests is proved twice.
#![tactic(auto)]

#[cfg(test)]
mod canonical;
#[cfg(test)]
mod common;
#[cfg(test)]
mod decode;
#[cfg(test)]
mod encode;
#[cfg(test)]
mod error;
#[cfg(test)]
mod examples;
#[cfg(test)]
mod locate;
#[cfg(test)]
mod merge;
#[cfg(test)]
mod patch;
#[cfg(test)]
mod pointer;
#[cfg(test)]
mod redact;
#[cfg(test)]
mod sorted_layout;
