//! How much room expansion needs, and that no more changes what it answers.
//!
//! What expansion does with the forms inside a form is defined by recursion on *room*: how many forms may
//! still nest (`inside` of expand_forms). Where there is no room left, a form is TooDeep. But a form is
//! TooDeep, too, where more than 600 core forms and applications stand round it, and that is what R6RS
//! leaves to an implementation: a limit that is told, in `docs/DECISIONS.md`. Room is no part of it.
//!
//! ```text
//! (begin (begin (begin ... 1)))    600 of them expand to 1; with 601 the innermost form, 1, is TooDeep
//! ```
//!
//! One law is that this is the limit, and one, that sequences, applications, procedures and other core forms count alike. The
//! third: a form with so many round it that these and the room make 602 has one answer, whatever the room is: core
//! code and state, or a fault and its place. So no answer of expansion comes from the end of the room, and 602, the
//! room that expansion begins with, is enough for each expression, body, library and program.
#![tactic(auto)]

pub mod laws;
