//! Whether core code is well made.
//!
//! Core code that comes out of a store need not be what an expansion made. Before anything is done with it, it is looked
//! through, once from its outermost expression to its leaves: a `begin` has two parts or more and a `lambda` one case,
//! each primitive is one of those that this implementation names, no label has two binders and no two procedures one
//! number, no pattern variable is referenced or assigned, and each template has its pattern variables round it, under
//! the right number of ellipses (libraries report 12.4).
//!
//! For example, `(lambda (x.0 x.0) x.0)` isn't well made, since `x.0` has two binders, and `(begin y.1)` isn't, since
//! one part is no sequence.
//!
//! The promise: `is_well_made` decides exactly `IsWellMade`, which holds of all core code that an expansion gives. What
//! is bound, mentioned and numbered is noted in lists on the way, and each list is looked at through a set: the time
//! grows with the code, and not with its square.
#![tactic(auto)]

pub mod labels;
pub mod once;
pub mod parts;
pub mod scan;
pub mod templates;
pub mod well_made;
