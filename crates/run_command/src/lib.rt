//! The command line: which words ask for what.
//!
//! ```text
//! scheme-expand [--root DIR[:DIR]...] [--cache DIR] [--report] [--write core|xref] PROGRAM
//! scheme-expand --make N
//!
//! --root=lib:vendor --report p.sps    the core text of p.sps, with libraries under lib and then vendor
//! p.sps                               the same under the one directory .
//! --make 20                           20 libraries and a program, made in memory
//! --write xref --cache c p.sps        refused: stored libraries keep no places
//! ```
//!
//! The words are read as one simple command of `clap`: each option at most once, its value in the next
//! word or behind `=`, and behind `--` no more options. There are no short options, no abbreviations, and
//! neither help nor version.
//!
//! The promise: `read_words` answers `Usage` exactly where `clap`, by its own definition of this command,
//! refuses the words, or where one of the further rules does, and else exactly what the words ask for,
//! with defaults filled in. Only want of memory is free.
//!
//! The definition is in `specs/Words`, over the command that `specs/Command` writes out.
#![tactic(auto)]

pub mod command;
pub mod job;
pub mod number;
pub mod roots;
pub mod words;
