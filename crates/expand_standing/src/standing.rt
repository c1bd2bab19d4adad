//! What identifiers stand for.

ghost use Rattle.std.specs.Prelude.{◌≡◌};
ghost use Rattle.expand_standing.specs.Standing.{role_of, is_keyword_standing};

use base_data::name::Label;
use base_data::op::Op;
use core_language::core_form::CoreForm;

/// A variable that an identifier stands for.
#[derive(Drop)]
pub struct Variable {
    pub label: Label,
    /// Whether the library that is expanded binds it.
    pub own: bool,
    pub level: u32,
    /// Whether a definition of a library or program binds it.
    pub top: bool,
    pub assigned: bool,
}

/// What an identifier stands for.
#[derive(Drop)]
pub enum Standing {
    Nothing,
    Variable(Variable),
    PatternVariable,
    Primitive(Op),
    Core(CoreForm),
    /// A keyword whose uses a transformer expands.
    Keyword(Label),
}

/// What forms of a core keyword do.
#[derive(Clone, Copy, PartialEq, Eq)]
pub enum Role {
    /// Their value is all that counts.
    Expression,
    Assignment,
    Sequence,
    Definition,
    /// They define keywords, for a body or for the forms in them.
    Keywords,
    /// They define a record type.
    Record,
    /// They give a record type.
    RecordValue,
    /// There are none: the keyword only stands in the forms of others.
    Auxiliary,
}

/// What forms of a keyword do.
#[tactic(auto, unfolding(crate::specs::Standing::role_of))]
pub fn role_of(form: CoreForm) -> Role
    ensures { result ≡ role_of form }
{
    match form {
        CoreForm::Quote => Role::Expression,
        CoreForm::Lambda => Role::Expression,
        CoreForm::CaseLambda => Role::Expression,
        CoreForm::If => Role::Expression,
        CoreForm::Set => Role::Assignment,
        CoreForm::Begin => Role::Sequence,
        CoreForm::Letrec => Role::Expression,
        CoreForm::LetrecStar => Role::Expression,
        CoreForm::Define => Role::Definition,
        CoreForm::DefineSyntax => Role::Keywords,
        CoreForm::LetSyntax => Role::Keywords,
        CoreForm::LetrecSyntax => Role::Keywords,
        CoreForm::Quasiquote => Role::Expression,
        CoreForm::Syntax => Role::Expression,
        CoreForm::Quasisyntax => Role::Expression,
        CoreForm::SyntaxCase => Role::Expression,
        CoreForm::Else => Role::Auxiliary,
        CoreForm::Arrow => Role::Auxiliary,
        CoreForm::Ellipsis => Role::Auxiliary,
        CoreForm::Underscore => Role::Auxiliary,
        CoreForm::Unquote => Role::Auxiliary,
        CoreForm::UnquoteSplicing => Role::Auxiliary,
        CoreForm::Unsyntax => Role::Auxiliary,
        CoreForm::UnsyntaxSplicing => Role::Auxiliary,
        CoreForm::DefineRecordType => Role::Record,
        CoreForm::RecordTypeDescriptor => Role::RecordValue,
        CoreForm::RecordConstructorDescriptor => Role::RecordValue,
        CoreForm::Fields => Role::Auxiliary,
        CoreForm::Mutable => Role::Auxiliary,
        CoreForm::Immutable => Role::Auxiliary,
        CoreForm::Parent => Role::Auxiliary,
        CoreForm::Protocol => Role::Auxiliary,
        CoreForm::Sealed => Role::Auxiliary,
        CoreForm::Opaque => Role::Auxiliary,
        CoreForm::Nongenerative => Role::Auxiliary,
        CoreForm::ParentRtd => Role::Auxiliary,
    }
}

/// Whether it is a keyword.
pub fn is_keyword(standing: &Standing) -> bool
    ensures { result ≡ is_keyword_standing standing.now }
{
    matches!(standing, Standing::Core(_) | Standing::Keyword(_))
}
