//! The laws. Each function here computes nothing: what it promises is the law.

ghost use Rattle.law_room.specs.Counted.{FormsCountOnce};
ghost use Rattle.law_room.specs.Limit.{LimitOfNesting};
ghost use Rattle.law_room.specs.Room.{FormsNeedNoMore, ItemsNeedNoMore, CasesNeedNoMore, BodiesNeedNoMore, TopsNeedNoMore};

/// Expansion answers the same with any room in which 600 forms can nest: an expression, a form of a
/// body, a case of a procedure, a body, and a library or program.
pub fn room_changes_nothing()
    ensures forms { FormsNeedNoMore }
    ensures items { ItemsNeedNoMore }
    ensures cases { CasesNeedNoMore }
    ensures bodies { BodiesNeedNoMore }
    ensures tops { TopsNeedNoMore }
{}

/// A form at a depth of more than 600 is TooDeep, at its place, whatever form it is; a constant in 600
/// nested `begin`s expands to itself, and any form in 601 is TooDeep.
pub fn limit_of_nesting()
    ensures { LimitOfNesting }
{}

/// Sequences, applications, assignments, procedures, and forms of `if`, `syntax-case`, `letrec`,
/// `letrec*`, `let-syntax` and `letrec-syntax` add one to the depth of what is in them: a constant in
/// 600 of them expands, and any other form but an identifier in 601 is TooDeep, at its place.
pub fn forms_count_once()
    ensures { FormsCountOnce }
{}
