//! Laws of templates and their instances (R6RS libraries 12.4).
//!
//! An instance looks up the variables of its template and takes their turns. The definition must say
//! something also of a variable that isn't there, or that has no turn left: such a one counts as
//! unspecified, and as having no turns. Here it is shown that this is never asked, where each variable
//! of the template is bound to the depth that the template carries and stands under as many ellipses:
//! whatever stood for an absent variable, the instance would be the same.
//!
//! A template that is written as its pattern gives back what the pattern took: at the value `(1 (2 3))`
//! of `(a (b ...))`, the template `(a (b ...))` makes a list of 1 and of a list of 2 and 3. The pairs are
//! new ones of the store, whether or not the value was a syntax tree; what variables took is the value
//! itself. `specs/Repeating` says what it is to be the same data.
//!
//! An instance is measured before it is made. What is measured is what the cells cost that it then adds, and
//! where lengths differ both give the same fault.
//!
//! Nothing runs here, and no program stands on this crate.
#![tactic(auto)]

pub mod laws;
