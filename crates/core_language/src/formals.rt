//! Formals: the parameters of a procedure.

use base_data::items::Items;
use base_data::name::Label;

/// The parameters of one case of a procedure: those that are required, and the one that takes the
/// rest as a list.
#[derive(Drop)]
pub struct Formals {
    pub required: Items<Label>,
    pub rest: Option<Label>,
}
