//! Laws of nesting. Each function here computes nothing: what it promises is the law.

ghost use Rattle.law_nesting.specs.Nesting.{CodeHasItsHeight, LinesNest};
ghost use Rattle.law_nesting.specs.Texts.{ReadWhereNested, SpellingsNest, LineSpellingsNest};

/// Where nothing stands between forms and their parts, the height is that of core code.
pub fn code_has_its_height()
    ensures { CodeHasItsHeight }
{}

/// Each line of a record that expansion gives nests at most 2,404 levels deep, in core code and in its text,
/// constants aside.
pub fn lines_nest()
    ensures { LinesNest }
{}

/// What spells core code nests as deep as the code in text and its constants do, at most; what spells a line, one
/// deeper; and each is read back wherever so many lists may be nested.
pub fn spellings_nest()
    ensures read { ReadWhereNested }
    ensures code { SpellingsNest }
    ensures lines { LineSpellingsNest }
{}
