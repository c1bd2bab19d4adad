//! What comes of a form of a body.

use crate::plan::KeywordUse;
use base_data::items::Items;
use base_data::name::Label;
use core_shapes::shape::BindingSpec;
use stx_object::syn::Syn;

/// What else is to be done with a form of a body that was taken.
#[derive(Drop)]
pub enum Item {
    Nothing,
    /// These are forms of the body.
    Forms(Items<Syn>),
    /// The definition of a keyword.
    Keyword(BindingSpec),
    /// `let-syntax`, or `letrec-syntax` where the flag is true: keywords, and forms of the body.
    Keywords(bool, Items<BindingSpec>, Items<Syn>),
}

/// What the head of a form of a body asks for.
#[derive(Drop)]
pub enum HeadItem {
    /// The form is no use of a keyword.
    Item(Item),
    /// A use of a keyword: the form is to be replaced by what comes of it.
    Use(KeywordUse),
    /// An assignment to a keyword: a use if that is a variable transformer, else it is to wait.
    SetUse(Label),
}
