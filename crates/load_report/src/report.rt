//! The report.

ghost use Rattle.std.specs.Prelude.{◌≡◌, ◌++◌, [], IfOk, OnOk, codes};
ghost use Rattle.std.specs.String.{string_bytes};
ghost use Rattle.load_report.specs.Report.{fate_text, line, report_text};

use crate::name::put_library_name;
use base_data::library::LibName;
use base_data::memory::Memory;
use std::alloc::{AllocError, Global};

/// How the record of a library was come by.
#[derive(Clone, Copy, PartialEq, Eq)]
pub enum Fate {
    /// The library was expanded from its file.
    Expanded,
    /// Its stored record was taken.
    Reused,
}

/// A library of a file, and how its record was come by.
#[derive(Drop)]
pub struct Told {
    pub fate: Fate,
    pub library: LibName,
}

/// The report on these libraries: a line for each, in order.
pub fn report_text(alloc: Global, libraries: &[Told]) -> Result<String, Memory>
    ensures { IfOk result (λ text. string_bytes text ≡ report_text libraries.now) }
{
    let mut out = String::new(alloc);
    put_lines(&mut out, libraries)?;
    Ok(out)
}

fn put_lines(out: &mut String, libraries: &[Told]) -> Result<(), AllocError>
    ensures { OnOk result (string_bytes out.new ≡ string_bytes out.old ++ report_text libraries.now) }
{
    for told in libraries {
        put_line(out, told)?;
    }
    Ok(())
}

fn put_line(out: &mut String, told: &Told) -> Result<(), AllocError>
    ensures { OnOk result (string_bytes out.new ≡ string_bytes out.old ++ line told.now) }
{
    out.push_str(fate_text(told.fate))?;
    out.push_str(" ")?;
    put_library_name(out, &told.library)?;
    out.push_str("\n")
}

fn fate_text(fate: Fate) -> &'static str
    ensures { result.now ≡ fate_text fate }
{
    match fate {
        Fate::Expanded => "expanded",
        Fate::Reused => "reused",
    }
}
