//! What the leaves of syntax trees stand for.
//!
//! A *leaf* is a symbol with its marks and stamps. It *stands for* a label where one of its stamps
//! names a frame that has a row with the leaf's symbol and the marks of that stamp, and the first such
//! stamp counts. Note the marks: a frame is asked for those that the leaf had when it was stamped, and
//! never for those that it has now. So in
//!
//! ```text
//! (define-syntax my-or
//!   (syntax-rules () ((_ a b) (let ((t a)) (if t t b)))))
//! (lambda (t) (my-or #f t))
//! ```
//!
//! the `t` of the template has the mark of the use when the frame of `let` is stamped on it, and the
//! `t` of the `lambda` has none; each finds its own row, and nothing is captured.
//!
//! The promise: `stands` gives exactly what this definition gives for the frames as they are, also
//! when it is asked through remembered answers and frames grew since; `bind` is `Duplicate` exactly
//! where its frame has the same symbol and marks; and `same_binder` and `same_binding` are the two
//! ways in which R6RS calls identifiers equal, `bound-identifier=?` and `free-identifier=?`
//! (libraries 12.5).
//!
//! The tables are those of stx_frames, the trees those of stx_object. The expander asks this crate what
//! each head and each reference means, and patterns ask it whether a literal matches.
#![tactic(auto)]

pub mod laws;
pub mod same;
pub mod scope;

pub use stx_tree::frame_row;
