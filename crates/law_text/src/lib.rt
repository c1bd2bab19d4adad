//! The text of a run is closed, and bound once.
//!
//! A program runs as one core text: the lines of the libraries that its plan names, in their order, and then
//! its own. Each record was expanded by itself, behind the records of the libraries that it imports. Here it is
//! told what holds of them together:
//!
//! ```text
//! (util stack)     (define %util.stack/push/0 ..)
//! (util loop)      (define %util.loop/run/0 .. %util.stack/push/0 ..)     refers to (util stack)
//! (util list)      (define %util.list/sort/0 ..)                          nobody refers to it
//! the program      .. %util.loop/run/0 ..                                 refers to (util loop)
//!
//! the text         the lines of (util stack), of (util loop), and of the program
//! ```
//!
//! The promise: the text is *closed*, so whatever a line of it mentions is defined in it, and a plan leaves
//! nothing out; it is *bound once*, so no label has two binders; and no two of its variables share both the
//! library and the index that their generated names tell.
//!
//! What is asked of the records stands in `specs/Standing`: no two of them have one name, and each is as
//! expansion leaves it, behind some of the others. A line can mention what these define, and no more; what it
//! mentions of another library makes this one of its references, and a plan follows references to their end.
//! Labels of two records differ in their libraries, and those of one record differ by what is asked of it.
//!
//! Here are no calls to make: the function stands for the law that it ensures.
#![tactic(auto)]

ghost use Rattle.law_text.specs.Text.{TextIsClosedOnce};

/// The records of the planned libraries and the program's, each closed and bound once after those that
/// it needs, make a text that is closed and bound once, in which no two variables share library and
/// index.
pub fn a_text_is_closed_and_bound_once()
    ensures { TextIsClosedOnce }
{}
