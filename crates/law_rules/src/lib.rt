//! A transformer that is a `syntax-case` of templates needs no machine.
//!
//! The procedures that transform macro uses are mostly of one shape: a `syntax-case` of the one argument, whose
//! outputs are templates. `(lambda (x) (syntax-case x () ((_ a b) #'(if a b #f))))` is one. What such a procedure
//! gives can be told on the syntax tree alone: the pattern that takes the form, and the template with what its
//! variables took, with neither cells nor a machine.
//!
//! The promise: where eval_rules tells a tree and a cost for such a procedure, its use on the stage gives that
//! tree and spends that fuel, and changes nothing else. Nothing runs here.
#![tactic(auto)]

pub mod laws;
