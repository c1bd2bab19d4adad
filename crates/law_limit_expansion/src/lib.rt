//! Trees stay within their limits in expansion.
//!
//! Forms are taken apart, stamped and handed to transformers; what is built of them is within the limits of a tree, or it is a fault. So the
//! constants and the templates of a record are within the limits where the forms of its library were, whatever its macros do:
//!
//! ```text
//! (define x '(a (b)))        the constant is the datum of a part of this form
//! ```
//!
//! That is told for any law of trees that holds of what is within the limits (`law_limits`): it holds of each tree that is met, form by form, in bodies,
//! in quasi forms, in record forms and in what a use of a keyword gives.
#![tactic(auto)]

pub mod laws;
