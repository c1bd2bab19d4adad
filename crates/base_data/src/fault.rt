//! Faults: what is wrong with a program, and where.

ghost use Rattle.std.specs.Prelude.{◌≡◌, ◌≤◌, ◌<◌, ◌++◌, IfOk, OnOk, length, min};
ghost use Rattle.std.specs.String.{string_bytes};
ghost use Rattle.base_data.specs.FaultNames.{fault_number, fault_name};
ghost use Rattle.base_data.specs.declared.fault.Stop.TheVariants as stop;
ghost use Rattle.base_data.specs.declared.fault.BareStop.TheVariants as bare_stop;

use crate::items::Items;
use crate::memory::Memory;
use crate::span::Span;
use crate::symbol::Symbol;
use std::alloc::{AllocError, AllocFailed};

/// What is wrong. The discriminant is the number that a fault line gives.
#[derive(Clone, Copy, Debug, PartialEq, Eq)]
pub enum FaultKind {
    /// A byte begins no valid UTF-8 sequence.
    BadUtf8 = 1,
    /// A token is none of R6RS 4.2.
    BadToken = 2,
    /// A number token is outside the numbers taken here, or an element of a bytevector isn't 0 to 255.
    BadNumber = 3,
    /// A backslash begins no escape.
    BadEscape = 4,
    /// The end comes inside a list, vector, bytevector, string or block comment, or after an
    /// abbreviation or `#;` without its datum.
    Unclosed = 5,
    /// A close without an opening or of the other kind, or where a datum must stand.
    StrayClose = 6,
    /// A dot that isn't right before the last datum of a list.
    BadDot = 7,
    /// Data are nested too deep.
    TooNested = 8,
    /// A file, or all files of a run, are too long.
    TooLong = 9,
    /// A file isn't one library form, or a program doesn't begin with an import form.
    NotLibrary = 10,
    /// A file's library has another name than the one asked for.
    NameDiffers = 11,
    /// A library or program has no file.
    LibraryNotFound = 12,
    /// A library's version doesn't fit the reference.
    VersionRefused = 13,
    /// A reference to a library that is being loaded.
    ImportCycle = 14,
    /// A name in `only`, `except` or `rename` isn't there.
    ImportNameMissing = 15,
    /// A name would stand for two labels.
    ImportConflict = 16,
    /// An exported identifier stands for nothing.
    ExportUnbound = 17,
    /// One external name has two internal names.
    ExportTwice = 18,
    /// Too many file libraries.
    TooManyLibraries = 19,
    /// A form has no shape that its keyword knows, or an import or export spec is bad.
    BadForm = 20,
    /// A variable that stands for nothing.
    Unbound = 21,
    /// A frame has the binder already.
    Duplicate = 22,
    /// A definition in an expression, or after an expression.
    DefinitionPlace = 23,
    /// A body or sequence without an expression.
    NoExpression = 24,
    /// A keyword where none may stand.
    KeywordMisuse = 25,
    /// A variable outside its scope or its level.
    OutOfContext = 26,
    /// An assignment to an exported variable.
    AssignedExport = 27,
    /// An assignment to an imported variable or a primitive.
    AssignedImport = 28,
    /// A reference to a variable that its own library assigns.
    AssignedElsewhere = 29,
    /// Code that runs holds `syntax` or `syntax-case`.
    SyntaxInRunCode = 30,
    /// Too many uses of keywords.
    TooManyExpansions = 31,
    /// A tree too high or too large, or forms nested too deep.
    TooDeep = 32,
    /// A definition changes what an earlier head of its body stands for.
    LateDefinition = 33,
    /// A bad pattern.
    BadPattern = 34,
    /// A bad template.
    BadTemplate = 35,
    /// Lengths differ under one ellipsis.
    EllipsisLength = 36,
    /// No clause of `syntax-case` matches.
    NoClause = 37,
    /// An evaluation needs more fuel than it was given.
    FuelSpent = 38,
    /// A call with a wrong number of arguments.
    Arity = 39,
    /// A primitive refuses its arguments, or what is called is no procedure.
    PrimFault = 40,
    /// A variable before its value.
    UnsetVariable = 41,
    /// A primitive that isn't there during expansion.
    NoPrimitive = 42,
    /// An assignment during expansion.
    SetAtExpansion = 43,
    /// `error`, `assertion-violation`, `syntax-violation` or `raise`.
    Raised = 44,
    /// A transformer's output holds a plain symbol.
    RawSymbol = 45,
    /// A transformer's output holds a value that is no syntax.
    BadOutput = 46,
    /// A keyword's value is no transformer, or isn't there yet.
    NotTransformer = 47,
    /// Cells of an evaluation that don't fit, which no run meets.
    Stuck = 91,
}

impl FaultKind {
    /// The number that a fault line gives.
    pub fn number(self) -> u16
        ensures { result ≡ fault_number self }
    {
        self as u16
    }

    /// The name that a fault line gives.
    pub fn name(self) -> &'static str
        ensures { result.now ≡ fault_name self }
    {
        match self {
            FaultKind::BadUtf8 => "BadUtf8",
            FaultKind::BadToken => "BadToken",
            FaultKind::BadNumber => "BadNumber",
            FaultKind::BadEscape => "BadEscape",
            FaultKind::Unclosed => "Unclosed",
            FaultKind::StrayClose => "StrayClose",
            FaultKind::BadDot => "BadDot",
            FaultKind::TooNested => "TooNested",
            FaultKind::TooLong => "TooLong",
            FaultKind::NotLibrary => "NotLibrary",
            FaultKind::NameDiffers => "NameDiffers",
            FaultKind::LibraryNotFound => "LibraryNotFound",
            FaultKind::VersionRefused => "VersionRefused",
            FaultKind::ImportCycle => "ImportCycle",
            FaultKind::ImportNameMissing => "ImportNameMissing",
            FaultKind::ImportConflict => "ImportConflict",
            FaultKind::ExportUnbound => "ExportUnbound",
            FaultKind::ExportTwice => "ExportTwice",
            FaultKind::TooManyLibraries => "TooManyLibraries",
            FaultKind::BadForm => "BadForm",
            FaultKind::Unbound => "Unbound",
            FaultKind::Duplicate => "Duplicate",
            FaultKind::DefinitionPlace => "DefinitionPlace",
            FaultKind::NoExpression => "NoExpression",
            FaultKind::KeywordMisuse => "KeywordMisuse",
            FaultKind::OutOfContext => "OutOfContext",
            FaultKind::AssignedExport => "AssignedExport",
            FaultKind::AssignedImport => "AssignedImport",
            FaultKind::AssignedElsewhere => "AssignedElsewhere",
            FaultKind::SyntaxInRunCode => "SyntaxInRunCode",
            FaultKind::TooManyExpansions => "TooManyExpansions",
            FaultKind::TooDeep => "TooDeep",
            FaultKind::LateDefinition => "LateDefinition",
            FaultKind::BadPattern => "BadPattern",
            FaultKind::BadTemplate => "BadTemplate",
            FaultKind::EllipsisLength => "EllipsisLength",
            FaultKind::NoClause => "NoClause",
            FaultKind::FuelSpent => "FuelSpent",
            FaultKind::Arity => "Arity",
            FaultKind::PrimFault => "PrimFault",
            FaultKind::UnsetVariable => "UnsetVariable",
            FaultKind::NoPrimitive => "NoPrimitive",
            FaultKind::SetAtExpansion => "SetAtExpansion",
            FaultKind::Raised => "Raised",
            FaultKind::RawSymbol => "RawSymbol",
            FaultKind::BadOutput => "BadOutput",
            FaultKind::NotTransformer => "NotTransformer",
            FaultKind::Stuck => "Stuck",
        }
    }
}

/// What is wrong, the span of the form at fault, and words such as the symbol concerned.
#[derive(Drop)]
pub struct Fault {
    pub kind: FaultKind,
    pub span: Span,
    pub words: Items<Symbol>,
}

/// A fault whose place its caller knows.
#[derive(Drop)]
pub struct Bare {
    pub kind: FaultKind,
    pub words: Items<Symbol>,
}

/// Why a call gave nothing: a fault of the input, or want of memory.
#[derive(Drop)]
pub enum Stop {
    Fault(Fault),
    Memory,
}

/// As `Stop`, where the caller knows the place.
#[derive(Drop)]
pub enum BareStop {
    Fault(Bare),
    Memory,
}

impl From<Memory> for Stop {
    ghost from_gives = { λ _ e. e ≡ stop.Memory };

    fn from(_error: Memory) -> Stop {
        Stop::Memory
    }
}

impl From<AllocError> for Stop {
    ghost from_gives = { λ _ e. e ≡ stop.Memory };

    fn from(_error: AllocError) -> Stop {
        Stop::Memory
    }
}

impl<T: Drop> From<AllocFailed<T>> for Stop {
    ghost from_gives = { λ _ e. e ≡ stop.Memory };

    fn from(_error: AllocFailed<T>) -> Stop {
        Stop::Memory
    }
}

impl From<Memory> for BareStop {
    ghost from_gives = { λ _ e. e ≡ bare_stop.Memory };

    fn from(_error: Memory) -> BareStop {
        BareStop::Memory
    }
}

impl From<AllocError> for BareStop {
    ghost from_gives = { λ _ e. e ≡ bare_stop.Memory };

    fn from(_error: AllocError) -> BareStop {
        BareStop::Memory
    }
}

impl<T: Drop> From<AllocFailed<T>> for BareStop {
    ghost from_gives = { λ _ e. e ≡ bare_stop.Memory };

    fn from(_error: AllocFailed<T>) -> BareStop {
        BareStop::Memory
    }
}
