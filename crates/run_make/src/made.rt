//! The files of `--make N`.

ghost use Rattle.std.specs.Prelude.{◌≡◌, ◌+◌, ◌-◌, ◌++◌, [], ◌∷◌, IfOk, OnOk, decimal};
ghost use Rattle.std.specs.String.{string_bytes};
ghost use Rattle.run_make.specs.Made.{filled, each, library_pattern, library_path, library_file, libraries, program_path, program_text, made_files, paths_of, filled_byte};

use base_data::memory::Memory;
use itoa::Buffer;
use std::alloc::{AllocError, Global};

/// The path of the program.
pub const PROGRAM: &str = "./made.sps";

const FIRST: &[u8] =
    b"(library (make gI) (export vI mI) (import (rnrs)) (define vI 0) (define-syntax mI (syntax-rules () ((_ a ...) (list vI a ...)))))\n";

const FURTHER: &[u8] =
    b"(library (make gI) (export vI mI) (import (rnrs) (make gJ)) (define vI (+ vJ I)) (define-syntax mI (syntax-rules () ((_ a ...) (list vI a ...)))))\n";

fn put_number(out: &mut Vec<u8>, number: u32) -> Result<(), AllocError>
    ensures { OnOk result (out.new.items ≡ out.old.items ++ decimal number) }
{
    out.extend_from_slice(Buffer::new().format(number).as_bytes())
}

// One byte of a pattern: `I` stands for the number, and `J` for the one before it.
fn put_byte(out: &mut Vec<u8>, byte: u8, number: u32) -> Result<(), AllocError>
    ensures { OnOk result (out.new.items ≡ out.old.items ++ filled_byte number byte) }
{
    match byte {
        b'I' => put_number(out, number),
        b'J' => put_number(out, number.saturating_sub(1)),
        _ => Ok(out.push(byte)?),
    }
}

fn put_filled(out: &mut Vec<u8>, pattern: &[u8], number: u32) -> Result<(), AllocError>
    ensures { OnOk result (out.new.items ≡ out.old.items ++ filled number pattern.now) }
{
    for byte in pattern {
        put_byte(out, *byte, number)?;
    }
    Ok(())
}

// A pattern for each number below a count.
fn put_each(out: &mut Vec<u8>, pattern: &[u8], count: u32) -> Result<(), AllocError>
    ensures { OnOk result (out.new.items ≡ out.old.items ++ each pattern.now 0 count) }
{
    for number in 0..count {
        put_filled(out, pattern, number)?;
    }
    Ok(())
}

fn library_pattern(number: u32) -> &'static [u8]
    ensures { result.now ≡ library_pattern number }
{
    if number == 0 { FIRST } else { FURTHER }
}

fn library_path(alloc: Global, number: u32) -> Result<String, Memory>
    ensures { IfOk result (λ path. string_bytes path ≡ library_path number) }
{
    let mut path = String::from_str(alloc, "./make/g")?;
    path.push_str(Buffer::new().format(number))?;
    path.push_str(".sls")?;
    Ok(path)
}

fn library_text(alloc: Global, number: u32) -> Result<Vec<u8>, Memory>
    ensures { IfOk result (λ text. text.items ≡ filled number (library_pattern number)) }
{
    let mut text = Vec::new(alloc);
    put_filled(&mut text, library_pattern(number), number)?;
    Ok(text)
}

fn program_text(alloc: Global, count: u32) -> Result<Vec<u8>, Memory>
    ensures { IfOk result (λ text. text.items ≡ program_text count) }
{
    let mut text = Vec::from_slice(alloc, b"(import (rnrs)")?;
    put_each(&mut text, b" (make gI)", count)?;
    text.extend_from_slice(b")\n")?;
    put_each(&mut text, b"(mI I)\n", count)?;
    Ok(text)
}

fn add_library(alloc: Global, files: &mut Vec<(String, Vec<u8>)>, number: u32) -> Result<(), Memory>
    ensures { OnOk result (paths_of files.new.items ≡ paths_of files.old.items ++ library_file number ∷ []) }
{
    let path = library_path(alloc, number)?;
    let text = library_text(alloc, number)?;
    files.push((path, text))?;
    Ok(())
}

fn libraries(alloc: Global, count: u32) -> Result<Vec<(String, Vec<u8>)>, Memory>
    ensures { IfOk result (λ files. paths_of files.items ≡ libraries 0 count) }
{
    let mut files = Vec::new(alloc);
    for number in 0..count {
        add_library(alloc, &mut files, number)?;
    }
    Ok(files)
}

/// The paths and texts of so many libraries, and behind them those of the program that imports them all.
pub fn made_files(alloc: Global, count: u32) -> Result<Vec<(String, Vec<u8>)>, Memory>
    ensures { IfOk result (λ files. paths_of files.items ≡ made_files count) }
{
    let mut files = libraries(alloc, count)?;
    let path = String::from_str(alloc, PROGRAM)?;
    let text = program_text(alloc, count)?;
    files.push((path, text))?;
    Ok(files)
}
