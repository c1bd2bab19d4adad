//! Uses of keywords are counted over whole expansions.
//!
//! `law_uses` counts the uses that one form is, one behind another, until it is none. A form contains others, each of
//! which makes uses of its own. Here all of them are added up (`specs/Made`): the uses that were made, and those that are
//! left, are those that were left before, so none is counted twice and none is given back.
//!
//! ```text
//! (f (m 1) (m 2))      the uses that `(m 1)` makes, and those that come of them, are no longer left to `(m 2)`
//! ```
//!
//! An expansion of a library begins with 1,000,000. So it is the 1,000,001st use that is refused, whatever the forms are in
//! which the uses before it were made.
#![tactic(auto)]

pub mod laws;
