//! Files by numbers, in the order of their first links.

ghost use Rattle.std.specs.Prelude.{◌≡◌, IfOk};
ghost use Rattle.run_xref.specs.Rows.{files_of, number_of, file_at, at_of, span_at};

use crate::rows::At;
use base_data::memory::Memory;
use base_data::span::Span;
use base_data::symbol::Symbol;
use core_language::link::Link;
use load_import::table::NameTable;
use std::alloc::Global;

/// The files of links, each once in the order of first links.
pub(crate) fn files_of(alloc: Global, links: &[Link]) -> Result<NameTable<()>, Memory>
    ensures { IfOk result (λ fs. fs ≡ files_of links.now) }
{
    let mut files = NameTable::new(alloc);
    for link in links {
        let file = link.span.file.share()?;
        files.put_first(file, ())?;
    }
    Ok(files)
}

fn number_of(files: &NameTable<()>, file: &Symbol) -> usize
    ensures { result ≡ number_of files.now file.now }
{
    match files.place_of(file) {
        Some(number) => number,
        None => 0,
    }
}

fn file_at(alloc: Global, files: &NameTable<()>, number: usize) -> Result<Symbol, Memory>
    ensures { IfOk result (λ f. f ≡ file_at files.now number) }
{
    match files.at(number) {
        Some((file, _)) => file.share(),
        None => Symbol::new(alloc, ""),
    }
}

/// A span, in a file by its number.
pub(crate) fn at_of(files: &NameTable<()>, span: &Span) -> At
    ensures { result ≡ at_of files.now span.now }
{
    At {
        file: number_of(files, &span.file),
        from: span.from,
        to: span.to,
    }
}

/// A span, in a file by its name.
pub(crate) fn span_at(alloc: Global, files: &NameTable<()>, at: At) -> Result<Span, Memory>
    ensures { IfOk result (λ s. s ≡ span_at files.now at) }
{
    let file = file_at(alloc, files, at.file)?;
    Ok(Span {
        file,
        from: at.from,
        to: at.to,
    })
}
