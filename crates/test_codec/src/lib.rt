//! Tests of records as bytes.
//!
//! `rows` has bytes, each row with what they are, and whether they spell the record of a library: those that do are
//! decoded, and what was decoded is encoded as the same bytes; from those that don't nothing is decoded. `notation` reads
//! the rows. `records` puts them where they belong in a record, and tries the limits of height; `entries` tries entries,
//! places and seals.
//!
//! Records are forgotten and not dropped: the proof of their drop takes minutes, and tells nothing here.
#![tactic(auto)]

#[cfg(test)]
mod entries;
#[cfg(test)]
mod notation;
#[cfg(test)]
mod records;
#[cfg(test)]
mod rows;
