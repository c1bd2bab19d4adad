//! What is known of a source whose data are read.

use crate::keywords::Keywords;
use base_data::symbol::Symbol;
use std::alloc::Global;

/// What the tokens of a source become data with.
#[derive(Drop)]
pub struct SourceContext<'a> {
    pub alloc: Global,
    /// The file that spans and faults name.
    pub file: &'a Symbol,
    /// The symbols that all its abbreviations share.
    pub keywords: &'a Keywords,
    /// How many forms may be nested.
    pub nesting: u32,
}
