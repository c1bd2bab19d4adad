//! What `quasiquote` and `quasisyntax` forms come to.
//!
//! A *template* is a form in which some parts are to be filled in (R6RS 11.17; libraries 12.8):
//!
//! ```text
//! `(1 ,x ,@y (2 3))      comes to   (append (list '1 x) y (list '(2 3)) '())
//! `(1 `(2 ,(3 ,x)))      comes to   (list '1 (list 'quasiquote (list '2 (list 'unquote (list '3 x)))))
//! #`(a #,x #,@y)         comes to   the template (a v v ...), with the inserts x and y
//! ```
//!
//! Levels count how deep templates are nested: behind `quasiquote` a level is added, behind `unquote` one is taken
//! away, and only what stands behind `unquote` or `unquote-splicing` at level 0 is an expression. What the head of a
//! list does is its *word*, told by what the identifier stands for. `(1 . ,x)` is read as the list `(1 unquote x)`;
//! so the last two elements of a longer list are its tail where the first of them has such a word.
//!
//! The promise: `quasi` gives exactly the plan of its definition, a tree of constants, expressions and calls of
//! `list`, `cons*`, `append` and `list->vector`; `quasi_syntax` gives exactly the template and the inserts of its own.
//! What the reports have no meaning for is `BadForm` at the whole form. Only want of memory is free.
//!
//! A part that holds no expression stays the form that it was, and is opened once. Nothing is expanded here: the
//! expander, which stands above, expands the expressions and makes the calls.
#![tactic(auto)]

pub mod maker;
pub mod parts;
pub mod plan;
pub mod quasi;
pub mod quasi_syntax;
pub mod word;
