//! Laws of names that are written. The function here computes nothing: what it promises is the law.

ghost use Rattle.law_written.specs.Written.{MentionsAreWritten, WrittenAreGenerated, ReferencesAreWritten};

/// A datum that spells core code writes, for each reference and each target of an assignment, the generated name of its
/// label; and in a hygienic record that is the label that the identifier stood for.
pub fn references_are_written()
    ensures mentions { MentionsAreWritten }
    ensures generated { WrittenAreGenerated }
    ensures references { ReferencesAreWritten }
{}
