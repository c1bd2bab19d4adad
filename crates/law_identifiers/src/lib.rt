//! That what identifiers stand for is settled: it stays while other forms are expanded.
//!
//! A form is expanded after what stands before it, and binds names, makes frames and takes marks meanwhile. None of
//! this changes what an identifier that was there before stands for:
//!
//! ```scheme
//! (let ((x 1))
//!   (list x                    ; x stands for this binder here,
//!         (let ((x 2)) x)      ; and whatever is bound here,
//!         x))                  ; it does so here
//! ```
//!
//! `specs/Identifiers` has the laws. They need no more of an identifier than holds of each that an expansion comes to, by
//! the laws of `law_fresh_expansion`.
//!
//! Here are no calls to make: each function stands for the law that it ensures.
#![tactic(auto)]

ghost use Rattle.law_identifiers.specs.Identifiers.{IdentifiersStay, ReferencesStay};

/// What an identifier of an expansion stands for doesn't change while a form is expanded.
pub fn identifiers_stay()
    ensures { IdentifiersStay }
{}

/// An identifier that is expanded after a form becomes a reference to what it stood for before that
/// form, or is a use of a macro.
pub fn references_stay()
    ensures { ReferencesStay }
{}
