//! Frames: which symbols are bound where.
//!
//! A *frame* holds the bindings of one place, as of a library, a `lambda` or a body. Each of its
//! *rows* gives a *label* to a symbol with *marks*. The marks keep apart the symbols that a program
//! wrote from those that uses of keywords brought in (Dybvig, Hieb and Bruggeman 1992), and the label
//! is what the binding is known by from then on.
//!
//! ```text
//! frame f   x with marks ()    label 1    the x that the program binds
//!           x with marks (7)   label 2    the x that a use with mark 7 brought in and binds
//! ```
//!
//! Who refers to an `x` asks by *stamps*, the newest first, each a frame and the marks that the symbol
//! had when it came into the frame's scope. By ((f, (7)), (f, ())) it finds label 2. Before the second
//! row was bound it found label 1, by its second stamp.
//!
//! The promise: every call gives exactly what its definition over plain lists of rows gives, and after
//! a refusal nothing has changed. Rows lie in tables that are indexed by symbol and marks, so a stamp
//! costs two look-ups, whatever the size of its frame. `binders` tells which frames bind a symbol, where they are
//! few (`indexed`), so that other stamps cost none. `kept` also remembers answers, each with the
//! sizes of the frames that gave nothing before it was found; since frames only grow, an answer whose
//! sizes are still those is the answer of now. The frames of a library that is complete lie in a table that is
//! made once (`given`), and those of all such libraries in one table of the run (`shared`). Who needs some of
//! them marks them there (`needed`), so that to need a library costs a mark, and behind them grow the frames of
//! the library that is expanded (`joined`). A frame is looked for where its library is. None of this shows in
//! a contract.
//!
//! The definitions are in `specs/Scope`, `specs/Listed`, `specs/Given` and `specs/Needed`, and the laws that tell
//! what they mean in `laws`. The crate knows symbols, marks and stamps alone; stx_scope asks it for leaves of trees.
#![tactic(auto)]

pub mod binders;
pub mod frames;
pub mod given;
pub mod indexed;
pub mod joined;
pub mod kept;
pub mod key;
pub mod laws;
pub mod memo;
pub mod needed;
pub mod shared;
pub mod table;
