//! Laws of steady expansions. Each function here computes nothing: what it promises is the law.

ghost use Rattle.law_steady.specs.Libraries.{ExpansionsNeverStuck, RecordsStandBehind, MoreStandBefore};

/// No expansion of a library or program ends with the fault of cells that don't fit, if the records
/// before it stand behind one another and the codes of the texts are whole.
pub fn no_expansion_gets_stuck()
    ensures { ExpansionsNeverStuck }
{}

/// The record that such an expansion gives stands behind the records before it, and one that stands
/// behind some records stands behind more.
pub fn records_stand_behind()
    ensures records { RecordsStandBehind }
    ensures more { MoreStandBefore }
{}
