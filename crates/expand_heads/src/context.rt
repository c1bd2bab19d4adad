//! What is known round a form.

use base_data::span::Span;
use stx_object::syn::Syn;

/// A form, and what is known round it.
#[derive(Drop)]
pub struct FormContext<'a> {
    pub form: &'a Syn,
    /// Where a form without a span stands.
    pub place: &'a Span,
    /// Its level (R6RS 7.2): 0 at run time, and one more in the expression of a keyword.
    pub level: u32,
}
