//! Data: what a reader gives and a printer takes.

ghost use Rattle.std.specs.Prelude.{◌≡◌, option_map};
ghost use Rattle.base_data.specs.Datum.{atom_of, first_of, symbol_text, proper_elements, span_of, is_nil};

use crate::atom::Atom;
use crate::span::Span;
use crate::symbol::Symbol;
use std::marker::Model;

/// A datum (R6RS 4.3), with the span of its spelling where it was read.
///
/// A list has one or more elements and a tail that is no list: a list in the place of the tail is
/// joined on. The empty list that ends a list has no span.
#[derive(Drop)]
#[cycle(datum)]
pub struct Datum {
    pub span: Option<Span>,
    pub node: Node,
}

/// What a datum is.
#[derive(Drop)]
#[cycle(datum)]
pub enum Node {
    Atom(Atom),
    Symbol(Symbol),
    /// The elements, and the tail.
    List(Vec<Datum>, Box<Datum>),
    Vector(Vec<Datum>),
}

impl Model for Datum {
    ghost use Rattle.std.specs.Prelude.{IsTrue};
    ghost use Rattle.base_data.specs.Datum.{PlainDatum, datum_size};
    ghost use Rattle.base_data.specs.DatumCode.{datum_code};

    ghost Value = { PlainDatum };

    ghost coded = { datum_code };

    ghost use Rattle.base_data.specs.DatumView.{seen, is_proper};

    ghost view = { λ d. seen d.span d.node };

    ghost invariant = { λ d. IsTrue (is_proper d.node) };

    ghost size = { datum_size };

    ghost use Rattle.base_data.specs.DatumFalls.{seen_falls};

    ghost size_decreases = { λ d h. seen_falls d.span d.node h };
}

impl Datum {
    /// The symbol, where the datum is one.
    pub fn as_symbol(&self) -> Option<&Symbol>
        ensures { option_map (λ x. x.now) result ≡ symbol_text self.now }
    {
        match &self.node {
            Node::Symbol(symbol) => Some(symbol),
            _ => None,
        }
    }

    /// The atom, where the datum is one.
    pub fn as_atom(&self) -> Option<&Atom>
        ensures { option_map (λ a. a.now) result ≡ atom_of self.now }
    {
        match &self.node {
            Node::Atom(atom) => Some(atom),
            _ => None,
        }
    }

    /// The first element of a list, whatever its tail.
    pub fn first(&self) -> Option<&Datum>
        ensures { option_map (λ d. d.now) result ≡ first_of self.now }
    {
        match &self.node {
            Node::List(items, _) => items.first(),
            _ => None,
        }
    }

    /// The elements of a list that ends in the empty list; none for the empty list.
    pub fn as_list(&self) -> Option<&[Datum]>
        ensures { option_map (λ xs. xs.now) result ≡ proper_elements self.now }
    {
        match &self.node {
            Node::Atom(Atom::Nil) => Some(&[]),
            Node::List(items, tail) => {
                if tail.is_nil() {
                    Some(items.as_slice())
                } else {
                    None
                }
            }
            _ => None,
        }
    }

    pub fn is_nil(&self) -> bool
        ensures { result ≡ is_nil self.now }
    {
        matches!(&self.node, Node::Atom(Atom::Nil))
    }

    pub fn span(&self) -> &Option<Span>
        ensures { result.now ≡ span_of self.now }
    {
        &self.span
    }
}
