//! Core code: what expansion makes of a program.
//!
//! After expansion no keyword is left. A program is core expressions of a dozen kinds, in which every
//! variable is known by its *label*. `(define (f x) (if x 1 2))` is the line that defines the label of
//! `f` as the procedure with the formals (l), whose body is the `if` of the variable l and the quoted
//! 1 and 2. A *compiled library*, or record, has its lines, what its labels are bound to, and what it exports.
//! `syntax` and `syntax-case` stay in the code of transformers, with their patterns and templates.
//!
//! Each type is seen as plain data: an expression as `PlainCore`, whose parts are expressions and
//! chains of these, and the shared code of a procedure as that code itself.
#![tactic(auto)]

pub mod binding;
pub mod bindings;
pub mod code;
pub mod core_form;
pub mod formals;
pub mod height;
pub mod labels;
pub mod link;
pub mod pattern;
pub mod record;
pub mod references;
pub mod share;
pub mod template;

pub use base_data::op::Op;
pub use stx_tree::frame_row::FrameRow;
