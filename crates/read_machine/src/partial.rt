//! What is open: forms whose last token hasn't come.

ghost use Rattle.std.specs.Prelude.{◌≡◌, [], ◌∷◌, List, OnOk, MatchOption};
ghost use Rattle.read_machine.specs.Partial.{misplaced_in};

use crate::extent::{Extent, Misplaced};
use base_data::datum::Datum;
use base_data::fault::FaultKind;
use base_data::items::Items;
use base_data::memory::Memory;
use read_lexer::token::{Abbreviation, Bracket};
use std::alloc::Global;
use std::marker::Model;

/// What stands behind the elements of an open list: nothing, a dot, or a dot and the tail.
#[derive(Drop)]
pub enum OpenTail {
    Absent,
    Dotted(Extent),
    Given(Extent, Datum),
}

/// An open form's kind, and its parts so far.
#[derive(Drop)]
pub enum OpenParts {
    List(Bracket, Items<Datum>, OpenTail),
    Vector(Items<Datum>),
    /// The elements of a bytevector.
    Bytes(Items<u8>),
    Abbreviation(Abbreviation),
    /// `#;`, whose datum is a comment.
    Skipped,
}

/// An open form: its opening token, and how many more forms may be opened inside it.
#[derive(Drop)]
pub struct Partial {
    pub opening: Extent,
    pub room: u32,
    pub parts: OpenParts,
}

/// What is open, seen as a list with the innermost first.
#[derive(Drop)]
pub struct OpenForms {
    forms: Vec<Partial>,
}

impl Model for OpenForms {
    ghost use Rattle.std.specs.Prelude.{List, reverse};
    ghost use Rattle.std.specs.Coded.{coded_list};
    ghost use Rattle.read_machine.specs.declared.partial.Partial.{Partial};
    ghost use Rattle.read_machine.specs.contracts.partial.Partial as partial;

    ghost Value = { List Partial };

    ghost coded = { coded_list partial.the_row.coded };

    ghost view = { λ s. reverse s.forms.items };
}

impl OpenForms {
    /// Nothing open. It takes no memory.
    pub fn new(alloc: Global) -> OpenForms
        ensures { result ≡ [] }
    {
        let forms = Vec::new(alloc);
        OpenForms { forms }
    }

    pub fn push(&mut self, form: Partial) -> Result<(), Memory>
        ensures { OnOk result (self.new ≡ form ∷ self.old) }
    {
        self.forms.push(form)?;
        Ok(())
    }

    pub fn pop(&mut self) -> Option<Partial>
        ensures { MatchOption result ((self.old ≡ []) × (self.new ≡ [])) (λ f. self.old ≡ f ∷ self.new) }
    {
        self.forms.pop()
    }
}

impl OpenForms {
    ghost use Rattle.read_machine.specs.Partial.{IsFirst, room_in, misplaced};

    fn innermost(&self) -> Option<&Partial>
        ensures { MatchOption result (self.now ≡ []) (λ f. IsFirst f.now self.now) }
    {
        self.forms.last()
    }

    /// How many more forms may be opened, where so many may be at the top.
    pub(crate) fn room(&self, nesting: u32) -> u32
        ensures { result ≡ room_in nesting self.now }
    {
        match self.innermost() {
            None => nesting,
            Some(form) => form.room,
        }
    }

    /// What is wrong where a form other than a comment begins here: in a bytevector stands no form,
    /// and behind a dot stands one.
    pub(crate) fn misplaced(&self, at: Extent) -> Option<Misplaced>
        ensures { result ≡ misplaced self.now at }
    {
        match self.innermost() {
            None => None,
            Some(form) => misplaced_in(&form.parts, at),
        }
    }
}

fn misplaced_in(parts: &OpenParts, at: Extent) -> Option<Misplaced>
    ensures { result ≡ misplaced_in parts.now at }
{
    match parts {
        OpenParts::List(_, _, OpenTail::Given(dot, _)) => Some(Misplaced {
            kind: FaultKind::BadDot,
            at: *dot,
        }),
        OpenParts::Bytes(_) => Some(Misplaced {
            kind: FaultKind::BadNumber,
            at,
        }),
        _ => None,
    }
}

/// What the tokens so far have come to: what is open, and the data that stand in no other.
#[derive(Drop)]
pub struct ReaderState {
    pub stack: OpenForms,
    pub done: Items<Datum>,
}

impl ReaderState {
    /// Before the first token. It takes no memory.
    pub fn new(alloc: Global) -> ReaderState
        ensures { result ≡ record { stack = []; done = [] } }
    {
        let stack = OpenForms::new(alloc);
        let done = Items::new(alloc);
        ReaderState { stack, done }
    }
}
