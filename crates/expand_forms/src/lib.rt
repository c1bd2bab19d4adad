//! Expansion: what forms mean, as core code.
//!
//! Expansion takes forms as syntax trees and gives core code (R6RS 10): `(lambda (x) (define y x) y)`
//! becomes a procedure whose formal has a *label* of its own, and whose body is a `letrec*` of another
//! label for `y`. What an identifier stands for the *frames* say that are stamped on it. A form is
//! known by what its *head* stands for: a core form, an application, or the use of a keyword.
//!
//! The forms of a *body* are taken in two passes. The first binds what the definitions define, so that
//! every form of the body sees every definition; the second expands what waited: the values of
//! variables, and expressions. A definition that changes what an earlier head stood for is at fault.
//!
//! The promise: each call gives exactly the core code that the definition gives, or its fault at its
//! place, and leaves exactly the state that the definition leaves; only want of memory is free.
//!
//! Here stand the core forms, and uses of keywords: those that programs and libraries define, and the forms of
//! records.
//!
//! A form is expanded at a *site*, which has a place, a level and a depth, with some *room* and some *means*: `site` and
//! `at` say what each is. Callers have an `expander`. `top` expands the body of a library or program, in the two passes of
//! `body`. `expand_uses` puts what comes of a use of a keyword in its place, until a form is no use. `expression`
//! has the core forms, but for those of `patterns` (`syntax-case`), `quasi` (`quasiquote`, `quasisyntax`) and
//! `keywords` (`let-syntax`, `letrec-syntax`).
#![tactic(auto)]

pub mod at;
pub mod body;
mod cores;
pub mod expand_uses;
pub mod expander;
pub mod expression;
pub mod inside;
pub mod keywords;
pub mod links;
pub mod patterns;
pub mod quasi;
pub mod site;
pub mod tally;
pub mod top;
pub mod transformers;
