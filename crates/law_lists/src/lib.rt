//! The primitives in the words of R6RS.
//!
//! `eval_prims` says what a call of a primitive makes, with bounds on how deep it looks and how far it walks, and
//! on the bytes of texts. Here stands what a reader of the report expects of it:
//!
//! ```text
//! (equal? x y)                            looks into pairs, vectors and strings, however deep they are
//! (append '(1 2) '(3) x)                  is a list of 1, 2 and 3, and then x itself
//! (substring "scheme" 1 3)                has the characters from the one at 1 to before the one at 3
//! (syntax->datum (datum->syntax id d))    is d
//! (generate-temporaries l)                has as many identifiers as l has elements, with binders of their own
//! ```
//!
//! The cells are those of a run: whole, as no run leaves them otherwise. Nothing runs here, and no program
//! stands on this crate.
#![tactic(auto)]

pub mod laws;
