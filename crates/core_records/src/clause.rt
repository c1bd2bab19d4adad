//! The clauses of a form that defines a record type.

use base_data::items::Items;
use stx_object::syn::Syn;

/// A field of a record type.
#[derive(Drop)]
pub struct Field {
    pub id: Syn,
    pub accessor: Syn,
    /// That of a mutable field.
    pub mutator: Option<Syn>,
}

/// What a record type extends.
#[derive(Drop)]
pub enum Parent {
    /// `parent`: another record type, by its name.
    Named(Syn),
    /// `parent-rtd`: an expression of a record-type descriptor, and one of a constructor descriptor.
    Descriptors(Syn, Syn),
}

/// What `nongenerative` says of the uid.
#[derive(Drop)]
pub enum Uid {
    /// The record type gets one.
    Generated,
    Given(Syn),
}

/// A clause.
#[derive(Drop)]
pub enum RecordClause {
    Fields(Items<Field>),
    Parent(Parent),
    /// The expression of a protocol.
    Protocol(Syn),
    Sealed(bool),
    Opaque(bool),
    Nongenerative(Uid),
}

/// All clauses of a form, each where it stands.
#[derive(Drop)]
pub struct Clauses {
    pub fields: Option<Items<Field>>,
    pub parent: Option<Parent>,
    pub protocol: Option<Syn>,
    pub sealed: Option<bool>,
    pub opaque: Option<bool>,
    pub nongenerative: Option<Uid>,
}
