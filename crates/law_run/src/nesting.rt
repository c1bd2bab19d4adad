//! How deep the text of a run nests.
//!
//! A reader of core text needs to know how many lists may be open at once:
//!
//! ```text
//! (define %/f/0 (lambda (%/x/1) (if %/x/1 (quote ((1 2) 3)) 4)))     five
//! ```
//!
//! In a line at most 601 forms of the source stand in one another, each of which comes to at most four levels (`law_nesting`); a
//! constant is the datum of a tree, and no tree is higher than 1,000 (`law_limit_expansion`). Both are laws of one library behind others.
//! Here they are told of whole runs: of the texts that this implementation has, of the derived library, and of each library that is
//! loaded and of the program. So each line of a text nests at most 3,405 deep, and is read back wherever so many forms may be nested;
//! the checker of core text allows 8,192.
//!
//! Here are no calls to make: each function stands for the law that it ensures.

ghost use Rattle.law_run.specs.Limits.{PreludeStaysWithin, RunsStayWithin};
ghost use Rattle.law_run.specs.Nesting.{RunsNest, TextsNest};

use law_core_grammar::core_text_is_read_back;

/// Each tree in the records of a run, and each of which a constant there is the datum, is at most 1,000 high and has at
/// most 16,777,216 parts.
pub fn runs_stay_within()
    ensures prelude { PreludeStaysWithin }
    ensures runs { RunsStayWithin }
{}

/// Each line of a run nests at most 2,404 levels deep, constants aside; and each line of its text at most 3,405 lists deep, so
/// that it can be read where so many forms may be nested.
pub fn texts_of_runs_nest()
    ensures runs { RunsNest }
    ensures texts { TextsNest }
{
    core_text_is_read_back();
}
