//! Laws of links: which identifiers of a source stand for what.
//!
//! An expansion leaves a list of links, and the binding map of a program is made of them:
//!
//! ```text
//! (define t 5) (my-or #f t)      the `t` in the use is linked to the label of the `t` that is defined
//! ```
//!
//! Each link is that of an identifier that was written at its place: one that stood for the label when it was taken as a
//! reference or assigned, one that stood for a primitive, or one that was bound to the label. And each reference in the
//! record of a library whose identifier has a place is linked, as is each binder of a variable that has one. What a macro
//! adds has no place, and so no link.
//!
//! Nothing runs here, and no program stands on this crate.
#![tactic(auto)]

ghost use Rattle.law_links.specs.Whole.{BindersAreLinked, LinksAreOfIdentifiers};

/// To bind an identifier with a span as a variable adds one link, from it to the new label.
pub fn binders_are_linked()
    ensures { BindersAreLinked }
{}

/// The links of a library's expansion are those of identifiers that stood for their labels or were bound to
/// them, and each reference in its lines and in its keywords' expressions is linked if its identifier has a
/// span.
pub fn links_are_of_identifiers()
    ensures { LinksAreOfIdentifiers }
{}
