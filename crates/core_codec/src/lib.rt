//! How a compiled library, or record, is spelled as bytes.
//!
//! `base_bytes` spells numbers, texts, lists, choices and names. Here its combinators make the codecs of everything else
//! that a record holds: syntax trees and data, patterns, templates and core code, bindings, frame rows and lines of
//! text. A level of core code is a codec over the codec of its parts,
//!
//! ```text
//! core 0         nothing has a spelling
//! core (n + 1)   a tag, then the parts of that case, whose own core code is spelled by `core n`
//! ```
//!
//! so that heights are limited and each recursive definition is one line. Where a type holds more values than have a
//! spelling, its codec says which: a list has one element or more and a tail that is no list, `begin` has two parts or
//! more, a `lambda` has one case, patterns stand behind an ellipsis only where there is one, bindings rise by their
//! labels and frame rows by their frames. So no record has two spellings, and no bytes spell two records.
//!
//! The promise is the two laws below. They are about definitions alone: the crates above this one put and read these
//! bytes, and their contracts name the codecs of `specs/`.
#![tactic(auto)]

ghost use Rattle.core_codec.specs.RecordLaws.{RoundTrip, NothingElse};

/// The encoding of a record that has a spelling is decoded to that record.
pub fn a_record_is_decoded()
    ensures { RoundTrip }
{}

/// Bytes are decoded only where they are the encoding of a record that has a spelling, and to that record.
pub fn nothing_else_is_decoded()
    ensures { NothingElse }
{}
