//! Tests of files, stores and sinks.
//!
//! `answers` asks those in memory, a store that is torn, and those of the system, on files that it makes.
#![tactic(auto)]

#[cfg(test)]
mod answers;
