//! Every record that expansion makes has its spelling as an entry of the store.
//!
//! An entry spells a record as bytes (`core_codec`). Not every value is spelled: the rest of a list has no span of its own, a pattern has one
//! ellipsis at most and no more than 2,000 levels, a `begin` has two parts or more, and bindings and rows of frames rise by name:
//!
//! ```text
//! (a . #<at 3 to 6>(b c))        no spelling: the rest has a span
//! (define-syntax m (syntax-rules () ((_ (((x)))) x)))      its pattern has five levels
//! ```
//!
//! A library's record has none of what isn't spelled, whatever its macros do, if its forms have none: its patterns and templates have no more
//! levels than the forms that they stand for, at most 1,000, and its bindings and rows rise because the library's names are counted. So it is
//! spelled if its names, spans, numbers and lengths are: the definitions count in natural numbers, and an entry has 32 and 64 bits for each.
#![tactic(auto)]

pub mod laws;
