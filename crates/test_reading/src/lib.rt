//! Tests of what no program shows of the reader.
//!
//! `spans` asks where data and faults begin and end, by the sources of `rows`; `deep` reads data that are nested deeper
//! than a program may nest them, and `grammar` reads a source by the grammar. What they expect is from R6RS 4.
#![tactic(auto)]

#[cfg(test)]
mod deep;
#[cfg(test)]
mod grammar;
#[cfg(test)]
mod rows;
#[cfg(test)]
mod spans;
