//! Matches and instances in the words of the report (R6RS libraries 12.4).
//!
//! `law_matches` and `law_templates` prove what matching and instances do, in terms that the matcher has too: whether an
//! identifier is like a literal, which atom a value is. Here each of these is said by cases of its own, so that a definition
//! that is wrong, with code to match, proves none of these laws.
//!
//! ```text
//! pattern (_ a b ...)     matches (my-or x y z): a is x, and b is y, z
//! template (list b ... a)  gives (list y z x)
//! ```
//!
//! `specs/Matching` says when a pattern matches a value and what its variables are bound to, and `specs/Instances` what a
//! template gives. Which forms are patterns is said by law_patterns. Nothing runs here, and no program stands on this crate.
#![tactic(auto)]

pub mod laws;
