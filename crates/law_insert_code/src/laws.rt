//! The laws of the code of `quasisyntax` forms. Each function here computes nothing: what it promises is the law.

ghost use Rattle.law_insert_code.specs.Inserted.{CodeGivesTheInstance};
ghost use Rattle.law_insert_code.specs.Code.{FormsHaveSuchCode};

/// Where the code of each expression of a `quasisyntax` form gives a value, and lists where they are spliced, the code of the
/// form comes to what its template comes to, in which the variable of each expression is bound to that value, and under an
/// ellipsis to the elements of that list (R6RS libraries 12.8).
pub fn code_gives_the_instance()
    ensures { CodeGivesTheInstance }
{}

/// The code of a `quasisyntax` form matches the list of its expressions' values against a pattern variable for each, under as
/// many ellipses as the insert is; without inserts it is the template.
pub fn forms_have_such_code()
    ensures { FormsHaveSuchCode }
{}
