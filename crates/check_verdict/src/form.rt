//! Which form of core text a list is, by its head.

ghost use Rattle.std.specs.Prelude.{◌≡◌, option_map, IsTrue};
ghost use Rattle.check_verdict.specs.Walk.{form_of, form_named, name_in, is_itself, is_quoted};

use base_data::atom::Atom;
use base_data::datum::{Datum, Node};
use base_data::symbol::Symbol;
use check_grammar::names::is_name;

/// The forms of core text (R6RS 9.1 and 11.4).
#[derive(Clone, Copy, PartialEq, Eq)]
pub enum Form {
    Quote,
    If,
    Assignment,
    Sequence,
    Lambda,
    CaseLambda,
    /// `letrec` or `letrec*`.
    Letrec,
    Application,
}

/// The form that a list with this head is.
pub(crate) fn form_of(head: &Datum) -> Form
    ensures { result ≡ form_of head.now }
{
    match head.as_symbol() {
        Some(keyword) => form_named(keyword.as_str()),
        None => Form::Application,
    }
}

fn form_named(keyword: &str) -> Form
    ensures { result ≡ form_named keyword.now }
{
    if keyword == "quote" {
        Form::Quote
    } else if keyword == "if" {
        Form::If
    } else if keyword == "set!" {
        Form::Assignment
    } else if keyword == "begin" {
        Form::Sequence
    } else if keyword == "lambda" {
        Form::Lambda
    } else if keyword == "case-lambda" {
        Form::CaseLambda
    } else if keyword == "letrec" {
        Form::Letrec
    } else if keyword == "letrec*" {
        Form::Letrec
    } else {
        Form::Application
    }
}

/// The name that a datum is, where it is one.
pub(crate) fn name_in(datum: &Datum) -> Option<&Symbol>
    ensures { option_map (λ x. x.now) result ≡ name_in datum.now }
{
    let symbol = datum.as_symbol()?;
    if is_name(symbol.as_str()) {
        Some(symbol)
    } else {
        None
    }
}

/// Whether an atom evaluates to itself.
pub(crate) fn is_itself(atom: &Atom) -> bool
    ensures { result ≡ is_itself atom.now }
{
    match atom {
        Atom::Nil => false,
        Atom::Bool(_)
        | Atom::Int(_)
        | Atom::Spelt(_)
        | Atom::Char(_)
        | Atom::Str(_)
        | Atom::Bytes(_) => true,
    }
}

/// Whether a datum stands in a `quote`: the empty list, a symbol, a list or a vector.
pub(crate) fn is_quoted(datum: &Datum) -> bool
    ensures { result ≡ is_quoted datum.now }
{
    match datum.as_atom() {
        Some(_) => datum.is_nil(),
        None => true,
    }
}
