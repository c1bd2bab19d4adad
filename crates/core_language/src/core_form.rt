//! Core forms: the keywords that expansion itself knows.

ghost use Rattle.std.specs.Prelude.{◌≡◌, slice_get};
ghost use Rattle.core_language.specs.CoreForm.{place, number, at_place, at_number, first_numbered};

use base_data::op::{Op, names};

/// A keyword that expansion itself knows: the core forms, their auxiliary keywords, the forms of
/// records, and the auxiliary keywords of these.
#[derive(Clone, Copy, PartialEq, Eq)]
pub enum CoreForm {
    Quote,
    Lambda,
    CaseLambda,
    If,
    Set,
    Begin,
    Letrec,
    /// `letrec*`
    LetrecStar,
    Define,
    DefineSyntax,
    LetSyntax,
    LetrecSyntax,
    Quasiquote,
    Syntax,
    Quasisyntax,
    SyntaxCase,
    Else,
    /// `=>`
    Arrow,
    /// `...`
    Ellipsis,
    /// `_`
    Underscore,
    Unquote,
    UnquoteSplicing,
    Unsyntax,
    UnsyntaxSplicing,
    DefineRecordType,
    RecordTypeDescriptor,
    RecordConstructorDescriptor,
    Fields,
    Mutable,
    Immutable,
    Parent,
    Protocol,
    Sealed,
    Opaque,
    Nongenerative,
    /// `parent-rtd`
    ParentRtd,
}

/// All of them in order.
pub const CORE_FORMS: [CoreForm; 36] = [
    CoreForm::Quote,
    CoreForm::Lambda,
    CoreForm::CaseLambda,
    CoreForm::If,
    CoreForm::Set,
    CoreForm::Begin,
    CoreForm::Letrec,
    CoreForm::LetrecStar,
    CoreForm::Define,
    CoreForm::DefineSyntax,
    CoreForm::LetSyntax,
    CoreForm::LetrecSyntax,
    CoreForm::Quasiquote,
    CoreForm::Syntax,
    CoreForm::Quasisyntax,
    CoreForm::SyntaxCase,
    CoreForm::Else,
    CoreForm::Arrow,
    CoreForm::Ellipsis,
    CoreForm::Underscore,
    CoreForm::Unquote,
    CoreForm::UnquoteSplicing,
    CoreForm::Unsyntax,
    CoreForm::UnsyntaxSplicing,
    CoreForm::DefineRecordType,
    CoreForm::RecordTypeDescriptor,
    CoreForm::RecordConstructorDescriptor,
    CoreForm::Fields,
    CoreForm::Mutable,
    CoreForm::Immutable,
    CoreForm::Parent,
    CoreForm::Protocol,
    CoreForm::Sealed,
    CoreForm::Opaque,
    CoreForm::Nongenerative,
    CoreForm::ParentRtd,
];

impl CoreForm {
    /// The place of the keyword among those that expansion itself knows.
    pub fn place(self) -> u8
        ensures { result ≡ place self }
    {
        match self {
            CoreForm::Quote => 0,
            CoreForm::Lambda => 1,
            CoreForm::CaseLambda => 2,
            CoreForm::If => 3,
            CoreForm::Set => 4,
            CoreForm::Begin => 5,
            CoreForm::Letrec => 6,
            CoreForm::LetrecStar => 7,
            CoreForm::Define => 8,
            CoreForm::DefineSyntax => 9,
            CoreForm::LetSyntax => 10,
            CoreForm::LetrecSyntax => 11,
            CoreForm::Quasiquote => 12,
            CoreForm::Syntax => 13,
            CoreForm::Quasisyntax => 14,
            CoreForm::SyntaxCase => 15,
            CoreForm::Else => 16,
            CoreForm::Arrow => 17,
            CoreForm::Ellipsis => 18,
            CoreForm::Underscore => 19,
            CoreForm::Unquote => 20,
            CoreForm::UnquoteSplicing => 21,
            CoreForm::Unsyntax => 22,
            CoreForm::UnsyntaxSplicing => 23,
            CoreForm::DefineRecordType => 24,
            CoreForm::RecordTypeDescriptor => 25,
            CoreForm::RecordConstructorDescriptor => 26,
            CoreForm::Fields => 27,
            CoreForm::Mutable => 28,
            CoreForm::Immutable => 29,
            CoreForm::Parent => 30,
            CoreForm::Protocol => 31,
            CoreForm::Sealed => 32,
            CoreForm::Opaque => 33,
            CoreForm::Nongenerative => 34,
            CoreForm::ParentRtd => 35,
        }
    }

    /// Its number in the table of names: a keyword is bound to the label of the library `Core` with
    /// this number.
    pub fn number(self) -> u16
        ensures { result ≡ number self }
    {
        match self {
            CoreForm::Quote => names::QUOTE,
            CoreForm::Lambda => names::LAMBDA,
            CoreForm::CaseLambda => names::CASE_LAMBDA,
            CoreForm::If => names::IF,
            CoreForm::Set => names::SET_BANG,
            CoreForm::Begin => names::BEGIN,
            CoreForm::Letrec => names::LETREC,
            CoreForm::LetrecStar => names::LETREC_STAR,
            CoreForm::Define => names::DEFINE,
            CoreForm::DefineSyntax => names::DEFINE_SYNTAX,
            CoreForm::LetSyntax => names::LET_SYNTAX,
            CoreForm::LetrecSyntax => names::LETREC_SYNTAX,
            CoreForm::Quasiquote => names::QUASIQUOTE,
            CoreForm::Syntax => names::SYNTAX,
            CoreForm::Quasisyntax => names::QUASISYNTAX,
            CoreForm::SyntaxCase => names::SYNTAX_CASE,
            CoreForm::Else => names::ELSE,
            CoreForm::Arrow => names::ARROW,
            CoreForm::Ellipsis => names::ELLIPSIS,
            CoreForm::Underscore => names::UNDERSCORE,
            CoreForm::Unquote => names::UNQUOTE,
            CoreForm::UnquoteSplicing => names::UNQUOTE_SPLICING,
            CoreForm::Unsyntax => names::UNSYNTAX,
            CoreForm::UnsyntaxSplicing => names::UNSYNTAX_SPLICING,
            CoreForm::DefineRecordType => names::DEFINE_RECORD_TYPE,
            CoreForm::RecordTypeDescriptor => names::RECORD_TYPE_DESCRIPTOR,
            CoreForm::RecordConstructorDescriptor => names::RECORD_CONSTRUCTOR_DESCRIPTOR,
            CoreForm::Fields => names::FIELDS,
            CoreForm::Mutable => names::MUTABLE,
            CoreForm::Immutable => names::IMMUTABLE,
            CoreForm::Parent => names::PARENT,
            CoreForm::Protocol => names::PROTOCOL,
            CoreForm::Sealed => names::SEALED,
            CoreForm::Opaque => names::OPAQUE,
            CoreForm::Nongenerative => names::NONGENERATIVE,
            CoreForm::ParentRtd => names::PARENT_RTD,
        }
    }

    /// The keyword at a place among those that expansion itself knows.
    pub fn at_place(place: u8) -> Option<CoreForm>
        ensures { result ≡ at_place place }
    {
        form_at(&CORE_FORMS, place as usize)
    }

    /// The keyword of a number in the table of names, if expansion itself knows it.
    pub fn at_number(op: &Op) -> Option<CoreForm>
        ensures { result ≡ at_number op.now.0 }
    {
        first_numbered(&CORE_FORMS, op.0)
    }
}

fn form_at(forms: &[CoreForm], place: usize) -> Option<CoreForm>
    ensures { result ≡ slice_get forms.now place }
{
    if place < forms.len() {
        Some(forms[place])
    } else {
        None
    }
}

fn first_numbered(forms: &[CoreForm], number: u16) -> Option<CoreForm>
    ensures { result ≡ first_numbered forms.now number }
{
    for form in forms {
        if form.number() == number {
            return Some(*form);
        }
    }
    None
}
