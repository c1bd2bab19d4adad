//! Tests of what no program shows beside the expansion itself.
//!
//! `words` reads command lines, `exports` asks how many names the libraries of this profile export, and in which order, and
//! `report` writes a report. `plans` has plans that no program has: references that lead back, to later records, to none, or
//! to themselves (R6RS 7.2). `tables` puts records in while expansions share the tables of those that came before.
//!
//! Records and expansions are forgotten and not dropped: the proof of their drop takes minutes, and tells nothing here.
#![tactic(auto)]

#[cfg(test)]
mod exports;
#[cfg(test)]
mod plans;
#[cfg(test)]
mod report;
#[cfg(test)]
mod tables;
#[cfg(test)]
mod words;
