//! What is printed is read back.
//!
//! A reader makes data of texts, and a printer makes texts of data. The file `'(1+ . #\xA)` is no
//! datum: `1+` is no identifier. But `'(\x31;+ . #\xA)` is one, and its text is
//! `(quote (\x31;+ . #\newline))`. Read again, this is the same datum; only the spans are of the new
//! text.
//!
//! The promise: each datum that any file has is read back from its text, wherever so many forms may
//! be nested as there. It is a law about definitions, and holds of each call of the reader and of the
//! printer, since these give what their definitions give.
//!
//! Here are no calls to make: each function stands for the law that it ensures. The first says which
//! data are read back, the second that only such data are read, and the third joins the two. The last
//! is on files of one datum a line.
#![tactic(auto)]

ghost use Rattle.law_round.specs.Lines.{LinesAreReadBack};
ghost use Rattle.law_round.specs.ReadBack.{ReadableAreReadBack, OnlyReadableAreRead, ReadAreReadBack};

/// The text of a readable datum, as a file, has this datum alone, but for the spans. Readable is what
/// has integers of 128 bits, ratios and decimals as R6RS 4.2.8 spells them, characters, strings and
/// bytes, symbols with a character or more, and no more forms in one another than may be nested.
pub fn readable_are_read_back()
    ensures { ReadableAreReadBack }
{}

/// Each datum of a file in which so many forms may be nested is readable with that nesting.
pub fn only_readable_are_read()
    ensures { OnlyReadableAreRead }
{}

/// Each datum of any file is read back from its own text, spans aside.
pub fn read_are_read_back()
    ensures { ReadAreReadBack }
{}

/// The texts of readable data, each on a line of its own, as a file, have these data in order, but for
/// the spans.
pub fn lines_are_read_back()
    ensures { LinesAreReadBack }
{}
