//! No expansion gets stuck.
//!
//! An expansion runs transformers: it evaluates libraries on demand, the expressions of keywords, and calls. For
//! cells that don't fit the definition has a fault of its own, `Stuck`, so that the contracts of the code need to
//! ask nothing of the cells. Here it is told that no library and no program is refused with it, whatever stands in
//! its imports and forms.
//!
//! ```text
//! (define-syntax m (let ((f (lambda (t) #'1))) (lambda (s) (f s))))    the expression is closed and well made, and its codes are new
//! (m)                                                                  so the call is of a procedure whose code is there
//! ```
//!
//! It is asked that the name of the library is new, that the records before it stand behind one another in the words of
//! law_stuck, and that a world with the procedures that are texts is whole.
//!
//! The proof follows the forms as they nest. From a state in which the stage is steady each form leads to such a
//! state, or is at fault in another way: every fault that a definition gives is named here. The transformer of an
//! own keyword is evaluated from an expression that is closed and well made and shares no name with one that is
//! kept; that is what law_expand tells. Its label was made when it began to wait, so no other transformer was
//! evaluated for it meanwhile.
//!
//! What forms expand to is defined in expand_forms. Nothing runs here.
#![tactic(auto)]

pub mod laws;
