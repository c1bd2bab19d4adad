//! What forms are expanded with.

use crate::site::Site;
use expand_heads::taken::BodyAt;
use stx_object::syn::Syn;

/// Where a form stands, and what it is expanded with.
#[derive(Drop)]
pub struct FormAt<'a, M> {
    pub site: &'a Site<'a>,
    /// How many forms inside one another are still taken. `expression` and `procedure` count the form that they
    /// get as one of them, and refuse it at 0. Depth refuses a form first, if expansion begins with `ROOM`.
    pub room: u16,
    /// What has the transformers of keywords evaluated and called.
    pub means: &'a M,
}

/// Where the forms of a body stand, and what they are expanded with.
#[derive(Drop)]
pub struct ItemAt<'a, M> {
    /// The frame, the place and the level of the body, and what has it.
    pub body: &'a BodyAt,
    /// How many core forms and applications stand round them.
    pub depth: u16,
    /// How many forms inside one another are still taken. `item` counts the form that it gets as one of them,
    /// and refuses it at 0.
    pub room: u16,
    /// What has the transformers of keywords evaluated and called.
    pub means: &'a M,
}

/// A form of a body, where it stands, and what has transformers evaluated. The steps of `expand_item_uses` go by it.
#[derive(Drop)]
pub struct ItemForm<'a, M> {
    pub form: &'a Syn,
    /// As in `ItemAt`. The place is that of the use that the form came of, where it came of one.
    pub body: &'a BodyAt,
    /// How many core forms and applications stand round it.
    pub depth: u16,
    /// What has the transformers of keywords evaluated and called.
    pub means: &'a M,
}
