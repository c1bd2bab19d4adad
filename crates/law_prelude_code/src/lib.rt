//! What the texts of the prelude come to.
//!
//! Ten procedures, `map` among them, are given to expansion time as texts in Scheme. A run reads each text and
//! expands it; what a call of the procedure means is then told by the code:
//!
//! ```text
//! (lambda (f l) (filter (lambda (x) (not (f x))) l))                  the text of `remp`
//! (lambda (69 70) (filter (lambda (74) (not (69 74))) 70))            its code, whose variables are numbers of the prelude
//! ```
//!
//! The codes are written out in law_given, which tells in the words of R6RS what calls of them give. Here it is
//! told that they are just what the texts expand to, so that those laws are laws of every run.
//!
//! The proof computes: reading and expansion are definitions, and the texts are constants.
//!
//! Nothing is computed when the program runs: the function stands for the laws that it ensures.
#![tactic(auto)]

ghost use Rattle.law_prelude_code.specs.Texts.{TextsExpand, TableIsWritten, TextsSpendNothing};

/// The ten texts of procedures given in Scheme expand to the codes that `law_given` writes out, and
/// these are the table of every run. Their expansion spends no fuel.
pub fn texts_expand_to_what_is_written()
    ensures codes { TextsExpand }
    ensures table { TableIsWritten }
    ensures fuel { TextsSpendNothing }
{}
