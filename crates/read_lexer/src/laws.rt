//! What the definitions of gaps and lexemes mean in the words of R6RS 4.2.

ghost use Rattle.read_lexer.specs.Between.{GapsAre};
ghost use Rattle.read_lexer.specs.Grammar.{LexemesAre, EndsAre, OneToken};

/// Between two tokens are exactly whitespace characters and comments, as many as there are (R6RS
/// 4.2.3).
pub fn gaps_are_whitespace_and_comments()
    ensures { GapsAre }
{}

/// The lexeme after an offset is exactly the token after the gap there, and there is none exactly if
/// the gap reaches the end; bytes begin with one token at most.
pub fn lexemes_are_tokens_behind_gaps()
    ensures tokens { LexemesAre }
    ensures ends { EndsAre }
    ensures one { OneToken }
{}
