//! What core code and records of libraries promise to those who take them.
//!
//! Core code is *closed* where each label in it lies in the scope of its binder: `(lambda (x) x)` is,
//! and `(begin (lambda (x) x) x)` is not. It is *well made* where further each label has one binder,
//! each code its own number, and each template suits the pattern variables round it. The records of
//! libraries are *bound once* where no label has two binders, and no two variables of level 0 have one
//! generated name. A record *follows* earlier ones where all that it mentions is its own or theirs.
//!
//! The promise: each of these is told by a test, which is true exactly where it holds. The definitions
//! are about plain core code, so that expansion, evaluation, the entries of a store and the checker of
//! core text can speak of one and the same thing.
//!
//! Here are no calls to make: each function stands for the law that it ensures.
#![tactic(auto)]

ghost use Rattle.law_core.specs.Decided.{ClosedIsDecided, WellMadeIsDecided, RecordsClosedIsDecided, BoundOnceIsDecided, FollowsIsDecided};
ghost use Rattle.law_core.specs.Given.{ReferencesAreGiven};
ghost use Rattle.law_core.specs.Following.{FollowersAreClosed};
ghost use Rattle.law_core.specs.Examples.{ClosedExamples, WellMadeExamples, RecordExamples, FollowsExamples};

/// A test decides whether core code is closed under given labels.
pub fn closed_is_decided()
    ensures { ClosedIsDecided }
{}

/// Each label that closed core code refers to or assigns, and that no binder in it binds, is one of
/// those under which it is closed.
pub fn references_are_given()
    ensures { ReferencesAreGiven }
{}

/// A test decides whether core code is well made under pattern variables of given depths.
pub fn well_made_is_decided()
    ensures { WellMadeIsDecided }
{}

/// A test decides whether each line of some records is closed under what the lines of all of them
/// define.
pub fn records_closed_is_decided()
    ensures { RecordsClosedIsDecided }
{}

/// A test decides whether some records bind each label once.
pub fn bound_once_is_decided()
    ensures { BoundOnceIsDecided }
{}

/// A test decides whether a record follows others.
pub fn follows_is_decided()
    ensures { FollowsIsDecided }
{}

/// Records of which each follows those before it are closed.
pub fn followers_are_closed()
    ensures { FollowersAreClosed }
{}

/// Examples of what the tests of closed and well made code, of records bound once and of followers
/// accept and refuse.
pub fn examples_are_told()
    ensures closed { ClosedExamples }
    ensures well_made { WellMadeExamples }
    ensures records { RecordExamples }
    ensures follows { FollowsExamples }
{}
