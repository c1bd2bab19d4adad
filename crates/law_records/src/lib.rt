//! That record types are defined as the libraries report has them (6.2).
//!
//! How the forms of records are written is said by `specs/Records` of law_shapes; `specs/RecordTypes` here says what
//! they stand for, in terms of the procedures of 6.3.
//!
//! ```text
//! (define-record-type point (fields x (mutable y)) (sealed #t))
//!     (make-record-type-descriptor 'point #f #f #t #f '#((immutable x) (mutable y)))
//!     (make-record-constructor-descriptor rtd #f #f)
//!     make-point, point?, point-x, point-y and point-y-set!
//! ```
//!
//! The law: a form that is written so expands to just these definitions, and any other is at fault.
#![tactic(auto)]

pub mod laws;
