//! Every record of a run is hygienic.
//!
//! A reference names what its identifier stood for where it stood, and no use of a keyword captures what it didn't introduce:
//!
//! ```text
//! m.sls    (library (m) (export my-or) (import (rnrs))
//!            (define-syntax my-or (syntax-rules () ((_ a b) (let ((t a)) (if t t b))))))
//! p.sps    (import (rnrs) (m))
//!          (lambda (t) (my-or #f t))              (lambda (t.1) (let ((t.2 #f)) (if t.2 t.2 t.1)))
//! ```
//!
//! Expansion promises this of one library (law_references), where the marks in the records before it are of their libraries, where the
//! codes of the texts have no others, where its forms have neither marks nor stamps, and where its name is new. Here it is told that in a
//! run all this holds, so that each record is hygienic, and the program's, with no premise but that it was loaded and expanded; and so is
//! each that was made where a later library, or the program, is at fault. Four things bring this about.
//!
//! - The codes of the texts that this implementation has are those that are written out, and these have no leaves at all.
//! - The forms of a file, and of the derived library, are data, whose trees have blank leaves.
//! - A record has marks of its own library and of those behind which it was expanded; what a needed library needs is needed, so those
//!   are among the libraries that any later library is expanded behind.
//! - No two libraries of a run have one name.
//!
//! Here are no calls to make: each function stands for the law that it ensures.

ghost use Rattle.law_run.specs.Hygienic.{CodesHaveNoLeaves, FormsWereRead, PartsAreHygienic, RunsAreHygienic};

/// The codes of the texts in Scheme have no identifiers, and the forms of a file have neither marks nor
/// stamps.
pub fn nothing_is_marked_before()
    ensures codes { CodesHaveNoLeaves }
    ensures forms { FormsWereRead }
{}

/// In every run the lines, keywords' expressions and exports of each record name what their identifiers
/// stood for, by both sentences of hygiene; so do those of each record that was made before a fault.
pub fn runs_are_hygienic()
    ensures runs { RunsAreHygienic }
    ensures parts { PartsAreHygienic }
{}
