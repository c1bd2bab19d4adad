//! Names of libraries, as they are told.

ghost use Rattle.std.specs.Prelude.{◌≡◌, ◌++◌, OnOk};
ghost use Rattle.std.specs.String.{string_bytes};
ghost use Rattle.load_report.specs.Name.{name_text, parts_text, further_parts};

use base_data::library::LibName;
use base_data::symbol::Symbol;
use std::alloc::AllocError;

/// Adds the name of a library, as `(util stack)`: its parts as they are, with one space between them. A
/// library that no file gives has no parts.
pub fn put_library_name(out: &mut String, library: &LibName) -> Result<(), AllocError>
    ensures { OnOk result (string_bytes out.new ≡ string_bytes out.old ++ name_text library.now) }
{
    out.push_str("(")?;
    put_parts(out, library)?;
    out.push_str(")")
}

fn put_parts(out: &mut String, library: &LibName) -> Result<(), AllocError>
    ensures { OnOk result (string_bytes out.new ≡ string_bytes out.old ++ parts_text library.now) }
{
    match library {
        LibName::Core | LibName::Derived | LibName::Prelude | LibName::Program => Ok(()),
        LibName::User(parts) => match parts.as_slice() {
            [] => Ok(()),
            [first, others @ ..] => {
                out.push_str(first.as_str())?;
                put_further_parts(out, others)
            }
        },
    }
}

fn put_further_parts(out: &mut String, parts: &[Symbol]) -> Result<(), AllocError>
    ensures { OnOk result (string_bytes out.new ≡ string_bytes out.old ++ further_parts parts.now) }
{
    for part in parts {
        out.push_str(" ")?;
        out.push_str(part.as_str())?;
    }
    Ok(())
}
