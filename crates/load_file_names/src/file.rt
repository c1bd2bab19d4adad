//! Where the files of libraries stand.

ghost use Rattle.std.specs.Prelude.{◌≡◌, ◌++◌, IfOk, OnOk};
ghost use Rattle.std.specs.String.{string_bytes};
ghost use Rattle.load_file_names.specs.File.{below, parts_of, file_of};

use base_data::library::LibName;
use base_data::memory::Memory;
use base_data::symbol::Symbol;
use percent_encoding::{AsciiSet, NON_ALPHANUMERIC, ascii_set, percent_encode};
use std::alloc::{AllocError, Global};

/// What is percent-encoded in the name of a file, besides all that isn't ASCII.
pub const ESCAPED: AsciiSet = ascii_set!(
    NON_ALPHANUMERIC
        .remove(b'-')
        .remove(b'_')
        .remove(b'+')
        .remove(b'!')
        .remove(b'?')
        .remove(b'*')
);

/// The file of a library below a root.
#[tactic(auto, unfolding(crate::specs::File::file_of))]
pub fn file_of(alloc: Global, name: &LibName) -> Result<Symbol, Memory>
    ensures { IfOk result (λ file. file ≡ file_of name.now) }
{
    let mut text = String::new(alloc);
    put_parts(&mut text, parts_of(name))?;
    text.push_str(".sls")?;
    Symbol::from_string(text)
}

fn parts_of(name: &LibName) -> &[Symbol]
    ensures { result.now ≡ parts_of name.now }
{
    match name {
        LibName::User(parts) => parts.as_slice(),
        LibName::Core | LibName::Derived | LibName::Prelude | LibName::Program => &[],
    }
}

fn put_parts(text: &mut String, parts: &[Symbol]) -> Result<(), AllocError>
    ensures { OnOk result (string_bytes text.new ≡ string_bytes text.old ++ below parts.now) }
{
    for part in parts {
        text.push_str("/")?;
        percent_encode(part.as_str().as_bytes(), ESCAPED).append_to(text)?;
    }
    Ok(())
}

/// The path of a file below a root.
pub fn path_below(alloc: Global, root: &Symbol, file: &Symbol) -> Result<Symbol, Memory>
    ensures { IfOk result (λ path. path ≡ root.now ++ file.now) }
{
    let mut text = String::from_str(alloc, root.as_str())?;
    text.push_str(file.as_str())?;
    Symbol::from_string(text)
}
