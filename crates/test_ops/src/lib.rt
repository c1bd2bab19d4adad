//! Tests of primitives by themselves: what no program shows.
//!
//! What calls come to and what they cost is told by the tables of `tests/cases`. Here `calls` fills the table of
//! primitives, and `table` fills it wrongly and asks for costs above a limit.
#![tactic(auto)]

#[cfg(test)]
mod calls;
#[cfg(test)]
mod table;
