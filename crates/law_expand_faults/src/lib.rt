//! Why expansion refuses an identifier, a binder, an export or a use, and where.
//!
//! An identifier that stands for nothing, a keyword where an expression must stand, a target that can't be assigned, a second binder, an export of what
//! isn't bound, a use too many: each by what the identifier stands for, with the kind, the words and the place of its fault (`specs`):
//!
//! ```text
//! (set! x 1)     x exported: AssignedExport x, at the form     x imported: AssignedImport x
//! (else 1)       KeywordMisuse else, at `else`
//! (let ((x 1) (x 2)) x)     Duplicate x, at the second x
//! ```
#![tactic(auto)]

pub mod laws;
