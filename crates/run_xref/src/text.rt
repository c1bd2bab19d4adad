//! The text of a binding map.

ghost use Rattle.std.specs.Prelude.{◌≡◌, ◌++◌, IfOk, OnOk};
ghost use Rattle.std.specs.String.{string_bytes};
ghost use Rattle.run_xref.specs.Text.{AreLines, held_at, lines_at, or_held, name_of, place_shown, target_shown, line, lines, xref_text, or_none, place_in};

use crate::marks::MarkedSource;
use crate::pair::Pair;
use base_data::fault_line::put_text;
use base_data::memory::Memory;
use base_data::op::{NAME_COUNT, Op, op_text};
use base_data::span::Span;
use base_data::symbol::Symbol;
use core_language::link::Target;
use load_files::found::Source;
use load_import::table::NameTable;
use std::alloc::{AllocError, Global};
use std::fmt::Write;

/// A file with marks along it, if it was there; the first with its path stays.
fn put_file<'a>(
    alloc: Global,
    files: &mut NameTable<MarkedSource<'a>>,
    source: &'a Source,
) -> Result<(), Memory>
    ensures { OnOk result ((path : _) → lines_at files.new path ≡ or_held (lines_at files.old path) (held_at path source.now)) }
{
    let Some(bytes) = &source.held else {
        return Ok(());
    };
    let lines = MarkedSource::new(alloc, bytes.as_slice())?;
    let path = source.path.share()?;
    files.put_first(path, lines)?;
    Ok(())
}

fn files_of<'a>(alloc: Global, sources: &'a [Source]) -> Result<NameTable<MarkedSource<'a>>, Memory>
    ensures { IfOk result (λ files. AreLines sources.now files) }
{
    let mut files = NameTable::new(alloc);
    for source in sources {
        put_file(alloc, &mut files, source)?;
    }
    Ok(files)
}

fn place_in(files: &NameTable<MarkedSource>, span: &Span) -> Result<(u64, u64), Memory>
    ensures { IfOk result (λ at. at ≡ place_in (or_none (lines_at files.now span.now.file)) span.now.from) }
{
    match files.get(&span.file) {
        Some(lines) => lines.place(span.from),
        None => Ok((1, 1)),
    }
}

fn put_place(out: &mut String, files: &NameTable<MarkedSource>, span: &Span) -> Result<(), Memory>
    ensures { OnOk result (string_bytes out.new ≡ string_bytes out.old ++ place_shown (lines_at files.now) span.now) }
{
    let (row, column) = place_in(files, span)?;
    put_text(out, span.file.as_str())?;
    write!(out, ":{row}:{column}")?;
    Ok(())
}

/// The report name of an op; a number past the last has none.
fn name_of(op: Op) -> &'static str
    ensures { result.now ≡ name_of op.0 }
{
    if op.0 < NAME_COUNT { op_text(&op) } else { "" }
}

fn put_target(
    out: &mut String,
    files: &NameTable<MarkedSource>,
    target: &Target,
) -> Result<(), Memory>
    ensures { OnOk result (string_bytes out.new ≡ string_bytes out.old ++ target_shown (lines_at files.now) target.now) }
{
    match target {
        Target::Place(span) => put_place(out, files, span),
        Target::Nowhere => Ok(out.push_str("-")?),
        Target::Prim(op) => Ok(out.push_str(name_of(*op))?),
    }
}

fn put_line(out: &mut String, files: &NameTable<MarkedSource>, pair: &Pair) -> Result<(), Memory>
    ensures { OnOk result (string_bytes out.new ≡ string_bytes out.old ++ line (lines_at files.now) pair.now) }
{
    put_place(out, files, &pair.span)?;
    out.push_str(" ")?;
    put_target(out, files, &pair.target)?;
    out.push_str("\n")?;
    Ok(())
}

fn put_lines(out: &mut String, files: &NameTable<MarkedSource>, map: &[Pair]) -> Result<(), Memory>
    ensures { OnOk result (string_bytes out.new ≡ string_bytes out.old ++ lines (lines_at files.now) map.now) }
{
    for pair in map {
        put_line(out, files, pair)?;
    }
    Ok(())
}

/// The text of a map: for each pair a line `FILE:LINE:COLUMN TARGET`. The target is a place of this form, `-` for
/// nowhere, or the report name of a primitive. Control characters of a path are written as in the line of a fault. The
/// bytes of a file are those of the first source with its path that was there; if none was, the file counts as empty.
#[tactic(auto, unfolding(crate::specs::Text::xref_text))]
pub fn xref_text(alloc: Global, map: &[Pair], sources: &[Source]) -> Result<String, Memory>
    ensures { IfOk result (λ text. string_bytes text ≡ xref_text sources.now map.now) }
{
    let files = files_of(alloc, sources)?;
    let mut out = String::new(alloc);
    put_lines(&mut out, &files, map)?;
    Ok(out)
}
