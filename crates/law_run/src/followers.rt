//! Records that follow one another keep to all that is asked of records elsewhere.
//!
//! Laws on evaluation, on the tables of a run and on its text ask different things of the records that they speak of. Each was
//! stated for what it needs, and each is proved of the records that a run makes. A record that comes out of a store was
//! made by another run, if it was made by one at all. It is looked through, and passes where it follows the needed
//! records that stand before it. Here it is told that this is enough:
//!
//! ```text
//! r follows others      evaluation can stand on it behind them; the tables of a run can take it
//! all follow in turn    each serves those behind it; they name once what they name, and mention only what is known
//! ```
//!
//! One thing that is asked of records whose text is made doesn't follow: that no two variables share an index, where one of
//! them is neither defined nor bound in a line.
//!
//! And where a run has a text, the records that expansion gives its libraries follow those that they need. So over an
//! honest store every entry is reused that was made with the roots and of the sources of the run.
//!
//! Here are no calls to make: each function stands for the law that it ensures.

ghost use Rattle.law_run.specs.Followers.{FollowersKeepTo, FollowersKeepTogether, FollowersStand};
ghost use Rattle.law_run.specs.Passing.{RunsPass};

/// A record that follows others stands behind them: evaluation can stand on it, it can be put beside them in the
/// tables of a run, and what it binds and what its frames give stands once.
pub fn followers_keep_to()
    ensures { FollowersKeepTo }
{}

/// Of records that follow one another each stands behind those before it and serves those behind it. All of them name
/// once what they name, and mention only what they bind and define.
pub fn followers_keep_together()
    ensures { FollowersKeepTogether }
{}

/// A record that follows others stands among the records of a text, where no two of the variables that it binds have one
/// index.
pub fn followers_stand()
    ensures { FollowersStand }
{}

/// Where a program is expanded, the record that expansion gives a library can stand for it. So over an honest store an
/// entry at its place, made with the roots and of the sources of the run, is reused.
pub fn runs_pass()
    ensures { RunsPass }
{}
