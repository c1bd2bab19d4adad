//! Names as libraries export and forms import them (R6RS 7.1).

ghost use Rattle.std.specs.Prelude.{◌≡◌, IfOk};

use crate::memory::Memory;
use crate::name::Label;
use crate::symbol::Symbol;

/// A name that a library exports or a form imports, and the label that it stands for.
#[derive(Drop)]
pub struct ImportedName {
    pub name: Symbol,
    pub label: Label,
}

impl ImportedName {
    /// Another owner of the same name.
    pub fn share(&self) -> Result<ImportedName, Memory>
        ensures { IfOk result (λ n. n ≡ self.now) }
    {
        let name = self.name.share()?;
        let label = self.label.share()?;
        Ok(ImportedName { name, label })
    }
}
