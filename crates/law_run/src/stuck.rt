//! No run gets stuck.
//!
//! A run loads a program with all that it imports, expands one library after another, and writes the core text or
//! the binding map. On the way it evaluates: transformers, and libraries on demand. For cells of an evaluation that
//! don't fit the definition has a fault of its own, `Stuck`, so that the contracts of the code need to ask nothing of
//! the cells. Here it is told that no run ends with it, whatever the files hold and whatever the words are:
//!
//! ```text
//! (import (rnrs) (util stack))                       a program
//! (library (util stack) (export ..) ..)              is expanded behind the derived library
//! (define-syntax push! (lambda (x) .. (map f l) ..)) the transformer is closed, and each procedure that it calls has a code
//! ```
//!
//! So there is a text, or one of the faults 1 to 47 of the table.
//!
//! Five things bring this about. What comes before expansion tells kinds of its own (law_kinds). In a part of a
//! run, as far as it came, the record of each library stands behind those that its library needs: so it is where a
//! run goes on, and where it stops. Behind such records no expansion gets stuck (law_steady). And the text of
//! core code is refused only for `syntax` in it.
//!
//! And the procedures that are given in Scheme, such as `map`, have the codes to which their texts expand
//! (law_prelude_code): each is closed, well made and named once, and gives a procedure. Nothing is asked of the
//! files and the words.
//!
//! Nothing is computed here: each function stands for the law that it ensures.

ghost use Rattle.law_run.specs.Stuck.{RunsNeverStuck, WrittenTextsAreTexts, WholeNeverStuck};

/// Whatever the files hold, a program has a core text and a binding map, or a fault other than that of
/// cells that don't fit.
pub fn no_run_gets_stuck()
    ensures { RunsNeverStuck }
{}

/// The codes that `law_given` writes out for the texts in Scheme are closed, well made and numbered
/// once, and each gives a procedure: so a world that has them is whole.
pub fn texts_make_a_whole_world()
    ensures { WrittenTextsAreTexts }
{}

/// For all files and words the whole gives the usage line, a text, or the line of a fault other than
/// that of cells that don't fit.
pub fn the_whole_never_gets_stuck()
    ensures { WholeNeverStuck }
{}
