//! Record types: what the forms of `(rnrs records syntactic)` stand for.
//!
//! A form that defines a record type is short for definitions by the procedures of the procedural layer (R6RS
//! libraries 6.2 and 6.3):
//!
//! ```text
//! (define-record-type point (fields x (mutable y)))
//!
//! (begin (define rtd (make-record-type-descriptor 'point #f #f #f #f '#((immutable x) (mutable y))))
//!        (define rcd (make-record-constructor-descriptor rtd #f #f))
//!        (define-syntax point (lambda (x) ..))     ; gives rtd or rcd where a form names the record type
//!        (define make-point (record-constructor rcd))
//!        (define point? (record-predicate rtd))
//!        (define point-x (record-accessor rtd 0))
//!        (define point-y (record-accessor rtd 1))
//!        (define point-y-set! (record-mutator rtd 1)))
//! ```
//!
//! What a form *introduces*, as `define` and `record-accessor` here, stands for the names of the implementation
//! whatever the program imports or binds: such leaves have one stamp, the frame of the library `Core`, whose rows
//! are made here. `rtd` and `rcd` have none, and a use of the form puts a mark on them, so that no program can refer to them.
//! A clause is known by what its first identifier stands for, and never by its symbol.
//!
//! The promise: `record_forms` gives exactly the form of its definition. What has no meaning is `BadForm`, at the
//! first clause that has none, or that may not stand behind those before it, and else at the form; a form that would
//! pass a limit of trees is `TooDeep` at the form. `record_frame` gives exactly its rows. Only want of memory is free.
//!
//! Marks are put on by the expander, which stands above, counts the uses and expands what comes of them.
#![tactic(auto)]

pub mod clause;
pub mod clauses;
pub mod context;
pub mod definitions;
pub mod forms;
pub mod frame;
pub mod introduced;
pub mod laws;
pub mod names;
