//! What bytes the lexer refuses, and with which fault (R6RS 4.2).
//!
//! In the file `(a "b\q")` the string that begins at offset 3 can't go on at its backslash, at offset 5:
//! behind it stand no blanks with a line end, and `q` is no escape. So the fault is BadEscape, from 3 to 5.
//!
//! The promise: `specs` says by cases over bytes, without the lexer, where the bytes of a source go on
//! neither with a token nor to the end: the token that can't go on, where it begins, and why. The lexer
//! refuses exactly these bytes, with exactly that fault. The start of a file that is skipped, a byte
//! order mark and a line for the system, is said by cases too.
//!
//! Here are no calls to make: each function stands for the laws that it ensures.
#![tactic(auto)]

ghost use Rattle.law_faults.specs.Laws.{GapFaultsAre, StringFaultsAre, CharacterFaultsAre, MarkedFaultsAre, FaultsAre, OneFault, StartsAre, StartFaultsAre};

/// What is skipped at the start of a source is a byte order mark, if there is one, and a line for the
/// system, if there is one; and it is refused exactly where that line has bytes that are no character.
pub fn starts_are_marks_and_lines()
    ensures starts { StartsAre }
    ensures faults { StartFaultsAre }
{}

/// A gap is refused exactly where one of its comments has bytes that are no character, or where the
/// source ends in a block comment, and then at the innermost that is open (R6RS 4.2.3).
pub fn gaps_go_wrong_in_comments()
    ensures { GapFaultsAre }
{}

/// A string is refused exactly where behind some elements the source ends, a byte begins no character, or
/// a backslash begins no escape (R6RS 4.2.7).
pub fn strings_go_wrong_at_elements()
    ensures { StringFaultsAre }
{}

/// What begins with `#\` is refused exactly where nothing follows, a byte begins no character, no delimiter
/// comes behind, or several characters are no name and no number of a character (R6RS 4.2.6).
pub fn characters_go_wrong_in_names()
    ensures { CharacterFaultsAre }
{}

/// A number behind its mark is refused exactly at a backslash that begins no escape, and where the text is
/// no integer of the base, or none of 128 bits (R6RS 4.2.8).
pub fn marked_numbers_go_wrong_in_digits()
    ensures { MarkedFaultsAre }
{}

/// From an offset on the lexer refuses exactly the bytes that go wrong in a gap, or after one in a
/// token, and no bytes go wrong in two ways.
pub fn bytes_go_wrong_in_gaps_and_tokens()
    ensures faults { FaultsAre }
    ensures one { OneFault }
{}
