//! The libraries that this implementation gives, and the numbers of their names.

ghost use Rattle.std.specs.Prelude.{◌≡◌};
ghost use Rattle.load_builtin.specs.Libraries.{library_parts, library_runs, library_named, has_parts, first_with, now_parts};

use base_data::op::{NAME_COUNT, names};
use base_data::symbol::Symbol;

/// A library that this implementation gives.
#[derive(Clone, Copy, Debug, PartialEq, Eq)]
pub enum Library {
    /// `(rnrs)`: the names of all the others but the two on records.
    Rnrs,
    Base,
    Lists,
    Control,
    SyntaxCase,
    Exceptions,
    IoSimple,
    Hashtables,
    Sorting,
    Files,
    Programs,
    RecordsProcedural,
    RecordsSyntactic,
}

/// Names in a row, from one number up to before another.
#[derive(Clone, Copy, Debug)]
pub struct Run {
    pub from: u16,
    pub to: u16,
}

const RNRS: Run = Run {
    from: names::QUOTE,
    to: names::MAKE_RECORD_TYPE_DESCRIPTOR,
};

const BASE: Run = Run {
    from: names::QUOTE,
    to: names::FIND,
};

const LISTS: Run = Run {
    from: names::FIND,
    to: names::WHEN,
};

const CONTROL: Run = Run {
    from: names::WHEN,
    to: names::MAKE_VARIABLE_TRANSFORMER,
};

const SYNTAX_CASE: Run = Run {
    from: names::MAKE_VARIABLE_TRANSFORMER,
    to: names::WITH_EXCEPTION_HANDLER,
};

const ELLIPSIS_AND_UNDERSCORE: Run = Run {
    from: names::ELLIPSIS,
    to: names::UNQUOTE,
};

const EXCEPTIONS: Run = Run {
    from: names::WITH_EXCEPTION_HANDLER,
    to: names::CALL_WITH_INPUT_FILE,
};

const IO_SIMPLE: Run = Run {
    from: names::CALL_WITH_INPUT_FILE,
    to: names::MAKE_EQ_HASHTABLE,
};

const HASHTABLES: Run = Run {
    from: names::MAKE_EQ_HASHTABLE,
    to: names::LIST_SORT,
};

const SORTING: Run = Run {
    from: names::LIST_SORT,
    to: names::IS_FILE_EXISTS,
};

const FILES: Run = Run {
    from: names::IS_FILE_EXISTS,
    to: names::COMMAND_LINE,
};

const PROGRAMS: Run = Run {
    from: names::COMMAND_LINE,
    to: names::MAKE_RECORD_TYPE_DESCRIPTOR,
};

const RECORDS_PROCEDURAL: Run = Run {
    from: names::MAKE_RECORD_TYPE_DESCRIPTOR,
    to: names::DEFINE_RECORD_TYPE,
};

const RECORDS_SYNTACTIC: Run = Run {
    from: names::DEFINE_RECORD_TYPE,
    to: NAME_COUNT,
};

const LIBRARIES: [Library; 13] = [
    Library::Rnrs,
    Library::Base,
    Library::Lists,
    Library::Control,
    Library::SyntaxCase,
    Library::Exceptions,
    Library::IoSimple,
    Library::Hashtables,
    Library::Sorting,
    Library::Files,
    Library::Programs,
    Library::RecordsProcedural,
    Library::RecordsSyntactic,
];

impl Library {
    /// The library of a name, given by its parts.
    pub fn named(parts: &[Symbol]) -> Option<Library>
        ensures { result ≡ library_named parts.now }
    {
        first_with(&LIBRARIES, parts)
    }

    /// The parts of the library's name.
    pub fn parts(self) -> &'static [&'static str]
        ensures { now_parts result.now ≡ library_parts self }
    {
        match self {
            Library::Rnrs => &["rnrs"],
            Library::Base => &["rnrs", "base"],
            Library::Lists => &["rnrs", "lists"],
            Library::Control => &["rnrs", "control"],
            Library::SyntaxCase => &["rnrs", "syntax-case"],
            Library::Exceptions => &["rnrs", "exceptions"],
            Library::IoSimple => &["rnrs", "io", "simple"],
            Library::Hashtables => &["rnrs", "hashtables"],
            Library::Sorting => &["rnrs", "sorting"],
            Library::Files => &["rnrs", "files"],
            Library::Programs => &["rnrs", "programs"],
            Library::RecordsProcedural => &["rnrs", "records", "procedural"],
            Library::RecordsSyntactic => &["rnrs", "records", "syntactic"],
        }
    }

    /// The names that it exports, by their numbers, in order.
    pub fn runs(self) -> &'static [Run]
        ensures { result.now ≡ library_runs self }
    {
        match self {
            Library::Rnrs => &[RNRS],
            Library::Base => &[BASE],
            Library::Lists => &[LISTS],
            Library::Control => &[CONTROL],
            Library::SyntaxCase => &[SYNTAX_CASE, ELLIPSIS_AND_UNDERSCORE],
            Library::Exceptions => &[EXCEPTIONS],
            Library::IoSimple => &[IO_SIMPLE],
            Library::Hashtables => &[HASHTABLES],
            Library::Sorting => &[SORTING],
            Library::Files => &[FILES],
            Library::Programs => &[PROGRAMS],
            Library::RecordsProcedural => &[RECORDS_PROCEDURAL],
            Library::RecordsSyntactic => &[RECORDS_SYNTACTIC],
        }
    }
}

// The first of some libraries that has a name.
fn first_with(libraries: &[Library], parts: &[Symbol]) -> Option<Library>
    ensures { result ≡ first_with parts.now libraries.now }
{
    for library in libraries {
        if has_parts(library.parts(), parts) {
            return Some(*library);
        }
    }
    None
}

// Whether a name has just these parts.
fn has_parts(given: &[&'static str], parts: &[Symbol]) -> bool
    ensures { result ≡ has_parts (now_parts given.now) parts.now }
{
    let [text, texts @ ..] = given else {
        return parts.is_empty();
    };
    let [part, rest @ ..] = parts else {
        return false;
    };
    *text == part.as_str() && has_parts(texts, rest)
}
