//! That the marks of an expansion are new when they are taken: where the leaves of what an evaluation gives
//! come from.
//!
//! A use of a keyword takes the next name of the library as its mark, and the laws of `law_hygiene` ask
//! that nothing had this mark before. But a transformer runs between, and what it gives may have leaves of its
//! code, of its cells, of its argument, and temporaries:
//!
//! ```text
//! #'(x y)                                x, y: constants of the template
//! (datum->syntax #'k 'x)                 x: the marks and stamps of k
//! (syntax-case form () ((_ e) #'e))      e: a part of the argument
//! (generate-temporaries #'(a b))         two leaves whose only mark is a name that was free
//! ```
//!
//! There are no others. So if all marks there were taken before the next name, they are so in what comes of an
//! evaluation, before the name that is next then; and names that were taken are never free again.
//!
//! `specs/Leaves` says of what is true of each leaf of a tree that it is true in a value, in cells and in core code;
//! `specs/Names` how that rises with the names; `specs/Coming` and `specs/Below` have the laws.
//!
//! Here are no calls to make: each function stands for the law that it ensures.
#![tactic(auto)]

ghost use Rattle.law_fresh.specs.Below.{MarksStayBefore, TheNextIsNew};
ghost use Rattle.law_fresh.specs.Coming.{LeavesWereThere};

/// The marks and stamps of each identifier in what an evaluation gives are those of one in its code,
/// its cells, its arguments or the variables of libraries, or of a temporary that it made; its symbol
/// may be new.
pub fn leaves_were_there()
    ensures { LeavesWereThere }
{}

/// If all marks were taken before the next name of a library, so are those of the value and the cells
/// after an evaluation in that library, and no name that was taken is free again.
pub fn marks_stay_before()
    ensures { MarksStayBefore }
{}

/// The mark of a library's next name is on no tree and no row whose marks were taken before.
pub fn the_next_is_new()
    ensures { TheNextIsNew }
{}
