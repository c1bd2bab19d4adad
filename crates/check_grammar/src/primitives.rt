//! The names of primitives in core text.

ghost use Rattle.std.specs.Prelude.{◌≡◌};
ghost use Rattle.check_grammar.specs.Primitives.{is_primitive};

use base_data::op::op_named;

/// Whether the text is the name of a procedure or another value that R6RS gives, and no keyword.
pub fn is_primitive(text: &str) -> bool
    ensures { result ≡ is_primitive text.now }
{
    match op_named(text) {
        Some(op) => !op.is_keyword(),
        None => false,
    }
}
