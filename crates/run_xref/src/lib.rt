//! The binding map: which identifier of a source refers to which binder, through macros.
//!
//! An expansion notes a *link* for each identifier of a source that it takes as a variable or a primitive: the
//! identifier's span, the label that it stands for, and whether it binds it. The *map* pairs each such identifier with
//! what it leads to: the identifier that binds its label, a primitive, or nothing in a source. For
//!
//! ```text
//! 1 (import (rnrs))
//! 2 (define-syntax my-or (syntax-rules () ((_ a b) (let ((t a)) (if t t b)))))
//! 3 (define t 5) (my-or #f t)
//! ```
//!
//! the text of the map is
//!
//! ```text
//! p.sps:3:9 p.sps:3:9
//! p.sps:3:24 p.sps:3:9
//! ```
//!
//! The `t` of the use is that of line 3, and not the one that the macro binds, which has no span and so gives no line.
//!
//! The promise: the map has exactly the pairs that the links tell, each once and in order; its text is exactly that of
//! the definition; only want of memory is free. `laws` has the map as a relation.
//!
//! Lines and columns come of marks along each file: to find one place costs the same wherever it stands.
#![tactic(auto)]

pub mod binders;
pub mod files;
pub mod laws;
pub mod map;
pub mod marks;
pub mod pair;
pub mod ranked;
pub mod rows;
pub mod text;
