//! Tests of the data that every crate shares.
//!
//! `data` asks places in a source, the line that tells a fault, names, built-in names by number, and shared atoms.
#![tactic(auto)]

#[cfg(test)]
mod data;
