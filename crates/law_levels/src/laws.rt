//! The laws of levels. Each function here computes nothing: what it promises is the law.

ghost use Rattle.law_levels.specs.Levels.{CoreIsBounded, PatternsAreBounded, TemplatesAreBounded};
ghost use Rattle.law_levels.specs.Limits.{LimitsOfEntries};

/// A pattern of more levels than there is room for has no spelling. Where the room is enough, a larger one
/// makes no difference.
pub fn patterns_are_bounded()
    ensures { PatternsAreBounded }
{}

/// A template of more levels than there is room for has no spelling. Where the room is enough, a larger one
/// makes no difference.
pub fn templates_are_bounded()
    ensures { TemplatesAreBounded }
{}

/// Core code with more core expressions in one another than there is room for has no spelling. Where the room
/// is enough, a larger one makes no difference.
pub fn core_is_bounded()
    ensures { CoreIsBounded }
{}

/// The patterns and templates of an entry have at most 2,000 levels, its core code 8,193, and its constants
/// 1,000. Its numbers of two, four and eight bytes are those that such bytes can write.
pub fn limits_of_entries_are_written()
    ensures { LimitsOfEntries }
{}
