//! Laws of faults in expansion. Each function here computes nothing: what it promises is the law.

ghost use Rattle.law_expand_faults.specs.Bindings.{BindingsAreTold};
ghost use Rattle.law_expand_faults.specs.Evaluations.{EvaluationsAreTold};
ghost use Rattle.law_expand_faults.specs.Identifiers.{IdentifiersAreTold};
ghost use Rattle.law_expand_faults.specs.Uses.{UsesTooManyAreTold};

/// An identifier as an expression or as the target of an assignment is refused exactly where what it stands for is told
/// to be no such thing: Unbound, KeywordMisuse, OutOfContext, AssignedElsewhere, AssignedExport or AssignedImport.
pub fn identifiers_are_told()
    ensures { IdentifiersAreTold }
{}

/// A binder is Duplicate exactly where its frame binds the identifier already, and an export is ExportUnbound exactly
/// where it is the first whose identifier stands for nothing.
pub fn bindings_are_told()
    ensures { BindingsAreTold }
{}

/// A use of a keyword where none is left is TooManyExpansions, at that use.
pub fn uses_too_many_are_told()
    ensures { UsesTooManyAreTold }
{}

/// A fault of an evaluation for an expansion, or of an output, has its kind and words, and stands at the form that asked
/// for it: what the call of a transformer comes to, at the use.
pub fn evaluations_are_told()
    ensures { EvaluationsAreTold }
{}
