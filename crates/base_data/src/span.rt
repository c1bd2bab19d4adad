//! Where a form stands in a file.

ghost use Rattle.std.specs.Prelude.{◌≡◌};
ghost use Rattle.std.specs.Prelude.{IfOk};

use crate::memory::Memory;
use crate::symbol::Symbol;

/// The bytes of a file from `from` up to `to`, counted from 0.
#[derive(PartialEq, Eq, Drop)]
pub struct Span {
    pub file: Symbol,
    pub from: u32,
    pub to: u32,
}

impl Span {
    /// Another owner of the same span.
    pub fn share(&self) -> Result<Span, Memory>
        ensures { IfOk result (λ s. s ≡ self.now) }
    {
        let file = self.file.share()?;
        Ok(Span {
            file,
            from: self.from,
            to: self.to,
        })
    }
}

/// Another owner of the same span, where there is one.
pub fn share_span(span: &Option<Span>) -> Result<Option<Span>, Memory>
    ensures { IfOk result (λ s. s ≡ span.now) }
{
    match span {
        None => Ok(None),
        Some(span) => Ok(Some(span.share()?)),
    }
}
