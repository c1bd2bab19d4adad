//! The law of what `quasisyntax` inserts. The function here computes nothing: what it promises is the law.

ghost use Rattle.law_inserts.specs.Inserted.{InsertsAreTold};

/// A `quasisyntax` form comes to the template and the inserts that the cases of the report say (R6RS libraries 12.8): a leaf for
/// each expression of `unsyntax`, a leaf and an ellipsis for each of `unsyntax-splicing`, one level further in behind `quasisyntax`.
pub fn inserts_are_those_of_the_report()
    ensures { InsertsAreTold }
{}
