//! The name of a library once more.

ghost use Rattle.std.specs.Prelude.{◌≡◌, IfOk};

use base_data::items::Items;
use base_data::library::LibName;
use base_data::memory::Memory;
use base_data::symbol::Symbol;
use std::alloc::Global;

fn share_parts(alloc: Global, parts: &[Symbol]) -> Result<Items<Symbol>, Memory>
    ensures { IfOk result (λ xs. xs ≡ parts.now) }
{
    let mut all = Items::new(alloc);
    for part in parts {
        let part = part.share()?;
        all.push(part)?;
    }
    Ok(all)
}

/// The same name of a library.
pub fn share_library(alloc: Global, library: &LibName) -> Result<LibName, Memory>
    ensures { IfOk result (λ l. l ≡ library.now) }
{
    match library {
        LibName::Core => Ok(LibName::Core),
        LibName::Derived => Ok(LibName::Derived),
        LibName::Prelude => Ok(LibName::Prelude),
        LibName::Program => Ok(LibName::Program),
        LibName::User(parts) => {
            let parts = share_parts(alloc, parts.as_slice())?;
            Ok(LibName::User(parts))
        }
    }
}
