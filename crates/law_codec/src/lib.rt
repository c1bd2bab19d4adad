//! What the bytes of a record are: laws about the codecs of `base_bytes` and `core_codec`.
//!
//! The two laws of `core_codec` say that the codecs take apart what they put together. They hold of any layout: with two
//! tags exchanged, or with the lowest byte of a number first, they would hold as well. So each kind of value has a law
//! here that gives its bytes, with tags and counts as numbers:
//!
//! ```text
//! (set! x 1)   4, the bytes of x's label, the bytes of the core expression 1
//! #t           1, 1
//! ```
//!
//! Bindings rise by their labels, and rows by their frames, in the order of `base_data`. The law of order says that this
//! is the order of their spellings, byte by byte.
//!
//! Here are no calls to make: each function stands for the law that it ensures.
#![tactic(auto)]

ghost use Rattle.law_codec.specs.Layout.{LayoutOfNumbers, LayoutOfTexts, LayoutOfNames, LayoutOfAtoms, LayoutOfOptions, LayoutOfData};
ghost use Rattle.law_codec.specs.Layout.{LayoutOfTrees, LayoutOfPatterns, LayoutOfTemplates, LayoutOfCore, LayoutOfBindings, LayoutOfRecords};
ghost use Rattle.law_codec.specs.OrderLaws.{NamesRiseAsSpelled};

/// A number has one byte, two, four, eight or sixteen, the highest first.
pub fn layout_of_numbers()
    ensures { LayoutOfNumbers }
{}

/// A text is its length in eight bytes and its bytes; a character is the number of its scalar value, in four bytes.
pub fn layout_of_texts()
    ensures { LayoutOfTexts }
{}

/// The name of a library is a tag, and the parts of a name that a user gave. Labels, marks, frames and numbers of
/// procedures are the library that counts them and a number; a span is a file and two places.
pub fn layout_of_names()
    ensures { LayoutOfNames }
{}

/// An atom is a tag, and the value that it holds.
pub fn layout_of_atoms()
    ensures { LayoutOfAtoms }
{}

/// What may be absent is 0, or 1 and what is there.
pub fn layout_of_options()
    ensures { LayoutOfOptions }
{}

/// A datum is its span, a tag and its parts. A list is its elements and its tail.
pub fn layout_of_data()
    ensures { LayoutOfData }
{}

/// A syntax tree is its span, a tag and its parts. A leaf is its symbol, its marks and its stamps.
pub fn layout_of_trees()
    ensures { LayoutOfTrees }
{}

/// A pattern is a tag and its parts: of a list or a vector the patterns before the ellipsis, the one that it repeats,
/// where there is one, and those after it.
pub fn layout_of_patterns()
    ensures { LayoutOfPatterns }
{}

/// A template is a tag and its parts, each with the number of ellipses behind it.
pub fn layout_of_templates()
    ensures { LayoutOfTemplates }
{}

/// A core expression is a tag and its parts.
pub fn layout_of_core()
    ensures { LayoutOfCore }
{}

/// A binding is a tag and its parts. A core form is its place among the keywords that expansion itself knows.
pub fn layout_of_bindings()
    ensures { LayoutOfBindings }
{}

/// A record is its path, name, version, exports, bindings, rows of frames, run lines and the libraries that these
/// refer to.
pub fn layout_of_records()
    ensures { LayoutOfRecords }
{}

/// Names compare as their spellings do, byte by byte.
pub fn names_rise_as_spelled()
    ensures { NamesRiseAsSpelled }
{}
