//! The laws. The functions here compute nothing: what they promise are the laws.

ghost use Rattle.law_spellings.specs.Levels.{AreNoHigher, LevelsStayWithin};
ghost use Rattle.law_spellings.specs.Rising.{RecordsRise};
ghost use Rattle.law_spellings.specs.Spellings.{RecordsStaySpelled, RecordsHaveSpellings};

/// A pattern and a template have no more levels than the form is high that they stand for; so each of a record has at most
/// 1,000, where the forms of its library and all trees before it are within the limits of a tree.
pub fn levels_stay_within()
    ensures forms { AreNoHigher }
    ensures records { LevelsStayWithin }
{}

/// Each label that a record binds comes after the one before it by name, and no row of a frame before one of an earlier
/// frame, whatever is expanded.
pub fn records_rise()
    ensures { RecordsRise }
{}

/// Every record that expansion makes has its spelling as an entry, if its names, spans, numbers and lengths have theirs and
/// all before it was spelled.
pub fn records_have_spellings()
    ensures stay { RecordsStaySpelled }
    ensures records { RecordsHaveSpellings }
{}
