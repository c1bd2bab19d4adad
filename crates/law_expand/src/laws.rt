//! Laws of expansion. Each function here computes nothing: what it promises is the law.

ghost use Rattle.law_expand.specs.Behind.{RecordsFollow};
ghost use Rattle.law_expand.specs.Good.{RecordsAreGood};
ghost use Rattle.law_expand.specs.InScope.{ScopeStays};
ghost use Rattle.law_expand.specs.Keywords.{KeywordsAreGood};
ghost use Rattle.law_expand.specs.Serving.{FollowersServe, RecordsServe};
ghost use Rattle.law_expand.specs.Shallow.{RecordsAreShallow};
ghost use Rattle.law_expand.specs.Variables.{VariablesHaveIndices};
ghost use Rattle.law_expand.specs.Uses.{UsesAreReplaced, BodyUsesAreReplaced, RecordFormsAreReplaced, BodyRecordFormsAreReplaced};
ghost use Rattle.law_expand.specs.Named.{ReferencesNameBinders, AssignmentsNameBinders, BindersAreFound, BindersStay};

/// Every record that expansion gives is closed, bound once and well made, and no primitive in its lines
/// is a keyword.
pub fn records_are_good()
    ensures { RecordsAreGood }
{}

/// Each keyword of a record has its expression, which is well made and closed under what the records
/// before define and has no keyword for a primitive; no two of its lines and expressions bind one label
/// or number two codes alike.
pub fn keywords_are_good()
    ensures { KeywordsAreGood }
{}

/// Every record that expansion gives nests at most 2,404 levels deep, in each line and in each
/// expression of a keyword.
pub fn records_are_shallow()
    ensures { RecordsAreShallow }
{}

/// Each variable that a line of a record defines or binds has an index, so a name; none is bound twice,
/// no two share an index, and each that a line defines is one of the top.
pub fn variables_have_indices()
    ensures { VariablesHaveIndices }
{}

/// A record follows the records before it if these follow one another, and no two imports or exports
/// have one name: its exports, bindings, binders, codes and rows are its own and there once, and what
/// it mentions is known.
pub fn records_follow()
    ensures { RecordsFollow }
{}

/// Records that follow one another serve, and so does every record that expansion gives where what it
/// imports is there.
pub fn records_serve()
    ensures followers { FollowersServe }
    ensures records { RecordsServe }
{}

/// An identifier that is no use of a macro becomes a reference to the label that it stands for, an
/// assignment has the label of its target, the identifier of a binder stands for the binder's label,
/// and no form that is expanded meanwhile changes that.
pub fn references_name_binders()
    ensures references { ReferencesNameBinders }
    ensures assignments { AssignmentsNameBinders }
    ensures binders { BindersAreFound }
    ensures stay { BindersStay }
{}

/// A use of a macro expands to what the form expands to that its transformer gives, and in a body it is
/// taken as that form; so is a record form, as the definitions or the expression that it stands for.
pub fn uses_are_replaced()
    ensures expressions { UsesAreReplaced }
    ensures bodies { BodyUsesAreReplaced }
    ensures records { RecordFormsAreReplaced }
    ensures records_in_bodies { BodyRecordFormsAreReplaced }
{}

/// What comes into scope in an expression is out of scope after it.
pub fn scope_stays()
    ensures { ScopeStays }
{}
