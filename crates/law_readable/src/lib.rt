//! What transformers make can be written and read back.
//!
//! A transformer makes syntax of its own, and constants with it:
//!
//! ```text
//! (datum->syntax k (string->symbol (string-append "make-" (symbol->string name))))    an identifier
//! (datum->syntax k (list->string (map char-upcase cs)))                               a string
//! (datum->syntax k (list->vector (list 1 2 3)))                                       a vector
//! ```
//!
//! Core text has them all, and must be read as what it says. Not each datum can be read: a symbol without characters has no spelling, nor
//! a string that isn't UTF-8, a character that is a surrogate, an integer of more than 128 bits, or a vector whose elements aren't a list.
//! The promise: there are none of these in what an evaluation comes to, where there are none in the code, the cells and the values that it
//! begins with. Row by row, no primitive makes one. So there are none in the form that a use of a keyword gives.
//!
//! And that is all that reading asks: a datum with none of these is read back from its text, wherever enough forms may be nested.
//!
//! Here are no calls to make: each function stands for the law that it ensures.
#![tactic(auto)]

ghost use Rattle.law_readable.specs.Laws.{PrimitivesMakeReadables, ReadablesAreRead, ReadablesStay};
ghost use Rattle.law_readable.specs.Stages.{UsesMakeReadables};

/// What a primitive makes of values that can be read can be read.
pub fn primitives_make_readables()
    ensures { PrimitivesMakeReadables }
{}

/// What an evaluation gives can be read if its code, its cells and what it looks up can; and so can the
/// tree that a value is read as.
pub fn readables_stay()
    ensures { ReadablesStay }
{}

/// The form that a use of a macro gives can be read, and all on the stage then, if the form of the use
/// and all on the stage could.
pub fn uses_make_readables()
    ensures { UsesMakeReadables }
{}

/// Each datum that can be read is read back from its text, where some number of forms may be nested.
pub fn readables_are_read()
    ensures { ReadablesAreRead }
{}
