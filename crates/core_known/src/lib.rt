//! What labels are bound to: in libraries that are complete, and in the one that is expanded.
//!
//! A library's record has what each of its labels is bound to. A run puts these *bindings* once into a table that
//! all share (`given`, `shared`). Who needs some of the libraries marks them there (`needed`), so that to need one
//! costs a mark, however much it binds; behind them grow the bindings of the library that is expanded (`known`):
//!
//! ```text
//! shared   (a) binds 1 and 2     (b) binds 1     (c) binds 1, 2 and 3
//! needs    yes                   no              yes
//! known    the bindings of (a), those of (c), and then those that came later
//! ```
//!
//! A label is looked for where its library is, so a look-up costs the same, however many libraries there are.
//!
//! The promise: all this is a plain list of labels with what they are bound to, first to last, and each call gives
//! exactly what its definition over that list gives; a refusal changes nothing. Templates are compiled and
//! identifiers are resolved over these tables.
#![tactic(auto)]

pub mod given;
pub mod known;
pub mod needed;
pub mod shared;
