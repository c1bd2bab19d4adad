//! The law of limits. The function here computes nothing: what it promises is the law.

ghost use Rattle.law_limit_expansion.specs.Limits.{RecordsStayWithin};

/// Each tree of a record is at most 1,000 high and has at most 16,777,216 parts, if the forms of its library and all
/// trees before it were so.
pub fn records_stay_within()
    ensures { RecordsStayWithin }
{}
