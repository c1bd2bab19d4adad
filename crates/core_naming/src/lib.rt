//! Generated names: how core text names a variable.
//!
//! A variable keeps its symbol, and gets its library and a number in front and behind, so that no two
//! variables share a name: the second variable of the library `(util stack)`, with the symbol `push`,
//! is `%util.stack/push/1`, and the first of a program, with the symbol `a/b`, is `%/a~2F~b/0`. A
//! character other than ASCII letters, digits and `! $ % & * : < = > ? ^ _ + - @` is spelt `~HEX~`.
//!
//! The promise: what is added to a text is exactly the generated name. Core text names all variables by this
//! one definition; the checker of core text has its own, and `law_check` says that the two agree.
#![tactic(auto)]

ghost use Rattle.std.specs.Prelude.{◌≡◌, ◌++◌, OnOk};
ghost use Rattle.std.specs.String.{string_bytes};
ghost use Rattle.core_naming.specs.Generated.{generated_name, library_text, parts_text, further_parts, name_part, name_char, is_plain, is_plain_sign};

use base_data::hex::put_hex;
use base_data::library::LibName;
use base_data::memory::Memory;
use base_data::symbol::Symbol;
use std::alloc::AllocError;
use std::fmt::Write;

/// Adds the generated name of a variable: the library that binds it, its symbol, and its number among
/// the variables of that library.
pub fn put_generated_name(
    out: &mut String,
    library: &LibName,
    symbol: &str,
    number: u64,
) -> Result<(), Memory>
    ensures { OnOk result (string_bytes out.new ≡ string_bytes out.old ++ generated_name library.now symbol.now number) }
{
    out.push_str("%")?;
    put_library(out, library)?;
    out.push_str("/")?;
    put_name_part(out, symbol)?;
    write!(out, "/{number}")?;
    Ok(())
}

/// Adds the parts of a library's name joined by dots, spelt as in generated names.
pub fn put_library(out: &mut String, library: &LibName) -> Result<(), AllocError>
    ensures { OnOk result (string_bytes out.new ≡ string_bytes out.old ++ library_text library.now) }
{
    match library {
        LibName::Core | LibName::Derived | LibName::Prelude | LibName::Program => Ok(()),
        LibName::User(parts) => put_parts(out, parts.as_slice()),
    }
}

fn put_parts(out: &mut String, parts: &[Symbol]) -> Result<(), AllocError>
    ensures { OnOk result (string_bytes out.new ≡ string_bytes out.old ++ parts_text parts.now) }
{
    match parts {
        [] => Ok(()),
        [first, others @ ..] => {
            put_name_part(out, first.as_str())?;
            put_further_parts(out, others)
        }
    }
}

fn put_further_parts(out: &mut String, parts: &[Symbol]) -> Result<(), AllocError>
    ensures { OnOk result (string_bytes out.new ≡ string_bytes out.old ++ further_parts parts.now) }
{
    for part in parts {
        out.push_str(".")?;
        put_name_part(out, part.as_str())?;
    }
    Ok(())
}

/// Adds a symbol, or a part of a library's name, spelt as in generated names.
pub fn put_name_part(out: &mut String, text: &str) -> Result<(), AllocError>
    ensures { OnOk result (string_bytes out.new ≡ string_bytes out.old ++ name_part text.now) }
{
    for c in text.chars() {
        put_name_char(out, c)?;
    }
    Ok(())
}

fn put_name_char(out: &mut String, c: char) -> Result<(), AllocError>
    ensures { OnOk result (string_bytes out.new ≡ string_bytes out.old ++ name_char c) }
{
    if is_plain(c) {
        return out.push(c);
    }
    out.push_str("~")?;
    put_hex(out, c as u32)?;
    out.push_str("~")
}

// Whether a character stands for itself in a name.
fn is_plain(c: char) -> bool
    ensures { result ≡ is_plain c }
{
    c.is_ascii_alphanumeric() || is_plain_sign(c)
}

fn is_plain_sign(c: char) -> bool
    ensures { result ≡ is_plain_sign c }
{
    matches!(
        c,
        '!' | '$' | '%' | '&' | '*' | ':' | '<' | '=' | '>' | '?' | '^' | '_' | '+' | '-' | '@'
    )
}
