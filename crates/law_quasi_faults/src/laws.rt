//! The laws of refused templates. Each function here computes nothing: what it promises is the law.

ghost use Rattle.law_quasi_faults.specs.Decided.{QuotesAreDecided, SyntaxesAreDecided};

/// A `quasiquote` form has a plan exactly where its template is well formed, and else it is a `BadForm`, at
/// the form.
pub fn quasiquote_forms_are_decided()
    ensures { QuotesAreDecided }
{}

/// A `quasisyntax` form is a `BadForm`, at the form, exactly where its template isn't well formed, unless it
/// is too deep or too large.
pub fn quasisyntax_forms_are_decided()
    ensures { SyntaxesAreDecided }
{}
