//! Names of libraries and of what they have, spans and atoms.

ghost use Rattle.std.specs.Prelude.{◌≡◌, IfOk, option_map};
ghost use Rattle.base_bytes.specs.Codec as spec;
ghost use Rattle.base_bytes.specs.Codec.{listed, some_get};
ghost use Rattle.base_bytes.specs.Names as spell;
ghost use Rattle.base_bytes.specs.Puts.{Puts, PutsIf};

use crate::libraries::RecentLibraries;
use crate::numbers::{
    bool_at, int_at, put_bool, put_int, put_u16, put_u32, put_u64, u16_at, u32_at, u64_at,
};
use crate::spelled::{Spelled, put_all};
use crate::texts::{blob_at, char_at, put_blob, put_char, put_text, text_at};
use base_data::atom::Atom;
use base_data::bytes::Bytes;
use base_data::imported_name::ImportedName;
use base_data::items::Items;
use base_data::library::LibName;
use base_data::memory::Memory;
use base_data::name::{CodeNo, FrameNo, Label, Mark, Name};
use base_data::op::{NAME_COUNT, Op};
use base_data::span::Span;
use base_data::symbol::Symbol;
use std::alloc::Global;

impl Spelled for u64 {
    ghost codec = { spec.u64 };

    fn put(&self, out: &mut Vec<u8>) -> Result<(), Memory> {
        put_u64(out, *self)
    }

    fn at<'a>(
        _libraries: &mut RecentLibraries,
        bytes: &'a [u8],
    ) -> Result<Option<(u64, &'a [u8])>, Memory> {
        Ok(u64_at(bytes))
    }
}

/// A symbol is its text.
fn symbol_at(alloc: Global, bytes: &[u8]) -> Result<Option<(Symbol, &[u8])>, Memory>
    ensures { IfOk result (λ o. option_map (λ x. (x.0, x.1.now)) o ≡ spec.text.get bytes.now) }
{
    let Some((text, rest)) = text_at(bytes) else {
        return Ok(None);
    };
    let symbol = Symbol::new(alloc, text)?;
    Ok(Some((symbol, rest)))
}

impl Spelled for Symbol {
    ghost codec = { spec.text };

    fn put(&self, out: &mut Vec<u8>) -> Result<(), Memory> {
        put_text(out, self.as_str())
    }

    fn at<'a>(
        libraries: &mut RecentLibraries,
        bytes: &'a [u8],
    ) -> Result<Option<(Symbol, &'a [u8])>, Memory> {
        symbol_at(libraries.alloc(), bytes)
    }
}

fn symbols_at(alloc: Global, bytes: &[u8]) -> Result<Option<(Items<Symbol>, &[u8])>, Memory>
    ensures { IfOk result (λ o. option_map (λ x. (x.0, x.1.now)) o ≡ (listed spec.text).get bytes.now) }
{
    let Some((count, rest)) = u64_at(bytes) else {
        return Ok(None);
    };
    match some_symbols_at(alloc, count, rest)? {
        Some((list, rest)) => Ok(Some((Items::from_vec(list), rest))),
        None => Ok(None),
    }
}

fn some_symbols_at(
    alloc: Global,
    count: u64,
    bytes: &[u8],
) -> Result<Option<(Vec<Symbol>, &[u8])>, Memory>
    ensures { IfOk result (λ o. option_map (λ x. (x.0.items, x.1.now)) o ≡ some_get spec.text.get count bytes.now) }
{
    let mut list = Vec::new(alloc);
    let mut rest = bytes;
    for _ in 0..count {
        let Some((symbol, after)) = symbol_at(alloc, rest)? else {
            return Ok(None);
        };
        list.push(symbol)?;
        rest = after;
    }
    Ok(Some((list, rest)))
}

/// The name of a library that the bytes begin with, made anew.
#[tactic(auto, unfolding(crate::specs::Names::library))]
pub(crate) fn library_name_at(
    alloc: Global,
    bytes: &[u8],
) -> Result<Option<(LibName, &[u8])>, Memory>
    ensures { IfOk result (λ o. option_map (λ x. (x.0, x.1.now)) o ≡ spell.library.get bytes.now) }
{
    match bytes {
        [0, rest @ ..] => Ok(Some((LibName::Core, rest))),
        [1, rest @ ..] => Ok(Some((LibName::Derived, rest))),
        [2, rest @ ..] => Ok(Some((LibName::Prelude, rest))),
        [3, rest @ ..] => Ok(Some((LibName::Program, rest))),
        [4, rest @ ..] => match symbols_at(alloc, rest)? {
            Some((parts, rest)) => Ok(Some((LibName::User(parts), rest))),
            None => Ok(None),
        },
        _ => Ok(None),
    }
}

impl Spelled for LibName {
    ghost codec = { spell.library };

    #[tactic(auto, unfolding(crate::specs::Names::library))]
    fn put(&self, out: &mut Vec<u8>) -> Result<(), Memory> {
        match self {
            LibName::Core => {
                out.push(0)?;
                Ok(())
            }
            LibName::Derived => {
                out.push(1)?;
                Ok(())
            }
            LibName::Prelude => {
                out.push(2)?;
                Ok(())
            }
            LibName::Program => {
                out.push(3)?;
                Ok(())
            }
            LibName::User(parts) => {
                out.push(4)?;
                put_all(out, parts.as_slice())
            }
        }
    }

    fn at<'a>(
        libraries: &mut RecentLibraries,
        bytes: &'a [u8],
    ) -> Result<Option<(LibName, &'a [u8])>, Memory> {
        library_name_at(libraries.alloc(), bytes)
    }
}

impl Spelled for Name {
    ghost codec = { spell.name };

    #[tactic(auto, unfolding(crate::specs::Names::name))]
    fn put(&self, out: &mut Vec<u8>) -> Result<(), Memory> {
        self.library.put(out)?;
        put_u64(out, self.number)
    }

    #[tactic(auto, unfolding(crate::specs::Names::name))]
    fn at<'a>(
        libraries: &mut RecentLibraries,
        bytes: &'a [u8],
    ) -> Result<Option<(Name, &'a [u8])>, Memory> {
        let Some((library, rest)) = libraries.library_at(bytes)? else {
            return Ok(None);
        };
        match u64_at(rest) {
            Some((number, rest)) => Ok(Some((Name { library, number }, rest))),
            None => Ok(None),
        }
    }
}

impl Spelled for Label {
    ghost codec = { spell.label };

    #[tactic(auto, unfolding(crate::specs::Names::label))]
    fn put(&self, out: &mut Vec<u8>) -> Result<(), Memory> {
        self.0.put(out)
    }

    #[tactic(auto, unfolding(crate::specs::Names::label))]
    fn at<'a>(
        libraries: &mut RecentLibraries,
        bytes: &'a [u8],
    ) -> Result<Option<(Label, &'a [u8])>, Memory> {
        match Name::at(libraries, bytes)? {
            Some((name, rest)) => Ok(Some((Label(name), rest))),
            None => Ok(None),
        }
    }
}

impl Spelled for ImportedName {
    ghost codec = { spell.imported_name };

    #[tactic(auto, unfolding(crate::specs::Names::imported_name))]
    fn put(&self, out: &mut Vec<u8>) -> Result<(), Memory> {
        self.name.put(out)?;
        self.label.put(out)
    }

    #[tactic(auto, unfolding(crate::specs::Names::imported_name))]
    fn at<'a>(
        libraries: &mut RecentLibraries,
        bytes: &'a [u8],
    ) -> Result<Option<(ImportedName, &'a [u8])>, Memory> {
        let Some((name, rest)) = Symbol::at(libraries, bytes)? else {
            return Ok(None);
        };
        match Label::at(libraries, rest)? {
            Some((label, rest)) => Ok(Some((ImportedName { name, label }, rest))),
            None => Ok(None),
        }
    }
}

impl Spelled for Mark {
    ghost codec = { spell.mark };

    #[tactic(auto, unfolding(crate::specs::Names::mark))]
    fn put(&self, out: &mut Vec<u8>) -> Result<(), Memory> {
        self.0.put(out)
    }

    #[tactic(auto, unfolding(crate::specs::Names::mark))]
    fn at<'a>(
        libraries: &mut RecentLibraries,
        bytes: &'a [u8],
    ) -> Result<Option<(Mark, &'a [u8])>, Memory> {
        match Name::at(libraries, bytes)? {
            Some((name, rest)) => Ok(Some((Mark(name), rest))),
            None => Ok(None),
        }
    }
}

impl Spelled for FrameNo {
    ghost codec = { spell.frame };

    #[tactic(auto, unfolding(crate::specs::Names::frame))]
    fn put(&self, out: &mut Vec<u8>) -> Result<(), Memory> {
        self.0.put(out)
    }

    #[tactic(auto, unfolding(crate::specs::Names::frame))]
    fn at<'a>(
        libraries: &mut RecentLibraries,
        bytes: &'a [u8],
    ) -> Result<Option<(FrameNo, &'a [u8])>, Memory> {
        match Name::at(libraries, bytes)? {
            Some((name, rest)) => Ok(Some((FrameNo(name), rest))),
            None => Ok(None),
        }
    }
}

impl Spelled for CodeNo {
    ghost codec = { spell.code_number };

    #[tactic(auto, unfolding(crate::specs::Names::code_number))]
    fn put(&self, out: &mut Vec<u8>) -> Result<(), Memory> {
        self.0.put(out)
    }

    #[tactic(auto, unfolding(crate::specs::Names::code_number))]
    fn at<'a>(
        libraries: &mut RecentLibraries,
        bytes: &'a [u8],
    ) -> Result<Option<(CodeNo, &'a [u8])>, Memory> {
        match Name::at(libraries, bytes)? {
            Some((name, rest)) => Ok(Some((CodeNo(name), rest))),
            None => Ok(None),
        }
    }
}

impl Spelled for Span {
    ghost codec = { spell.span };

    #[tactic(auto, unfolding(crate::specs::Names::span))]
    fn put(&self, out: &mut Vec<u8>) -> Result<(), Memory> {
        put_text(out, self.file.as_str())?;
        put_u32(out, self.from)?;
        put_u32(out, self.to)
    }

    #[tactic(auto, unfolding(crate::specs::Names::span))]
    fn at<'a>(
        libraries: &mut RecentLibraries,
        bytes: &'a [u8],
    ) -> Result<Option<(Span, &'a [u8])>, Memory> {
        let Some((file, rest)) = text_at(bytes) else {
            return Ok(None);
        };
        let Some((from, rest)) = u32_at(rest) else {
            return Ok(None);
        };
        let Some((to, rest)) = u32_at(rest) else {
            return Ok(None);
        };
        let file = libraries.file(file)?;
        Ok(Some((Span { file, from, to }, rest)))
    }
}

/// A string or the spelling of a number, which both are texts.
impl Spelled for Atom {
    ghost codec = { spell.atom };

    #[tactic(auto, unfolding(crate::specs::Names::atom))]
    fn put(&self, out: &mut Vec<u8>) -> Result<(), Memory> {
        match self {
            Atom::Nil => {
                out.push(0)?;
                Ok(())
            }
            Atom::Bool(value) => {
                out.push(1)?;
                put_bool(out, *value)
            }
            Atom::Int(value) => {
                out.push(2)?;
                put_int(out, *value)
            }
            Atom::Spelt(text) => {
                out.push(3)?;
                put_text(out, text.as_str())
            }
            Atom::Char(c) => {
                out.push(4)?;
                put_char(out, *c)
            }
            Atom::Str(text) => {
                out.push(5)?;
                put_text(out, text.as_str())
            }
            Atom::Bytes(bytes) => {
                out.push(6)?;
                put_blob(out, bytes.as_slice())
            }
        }
    }

    #[tactic(auto, unfolding(crate::specs::Names::atom))]
    fn at<'a>(
        libraries: &mut RecentLibraries,
        bytes: &'a [u8],
    ) -> Result<Option<(Atom, &'a [u8])>, Memory> {
        let alloc = libraries.alloc();
        match bytes {
            [0, rest @ ..] => Ok(Some((Atom::Nil, rest))),
            [1, rest @ ..] => match bool_at(rest) {
                Some((value, rest)) => Ok(Some((Atom::Bool(value), rest))),
                None => Ok(None),
            },
            [2, rest @ ..] => match int_at(rest) {
                Some((value, rest)) => Ok(Some((Atom::Int(value), rest))),
                None => Ok(None),
            },
            [3, rest @ ..] => match symbol_at(alloc, rest)? {
                Some((text, rest)) => Ok(Some((Atom::Spelt(text), rest))),
                None => Ok(None),
            },
            [4, rest @ ..] => match char_at(rest) {
                Some((c, rest)) => Ok(Some((Atom::Char(c), rest))),
                None => Ok(None),
            },
            [5, rest @ ..] => match symbol_at(alloc, rest)? {
                Some((text, rest)) => Ok(Some((Atom::Str(text), rest))),
                None => Ok(None),
            },
            [6, rest @ ..] => match bytes_at(alloc, rest)? {
                Some((bytes, rest)) => Ok(Some((Atom::Bytes(bytes), rest))),
                None => Ok(None),
            },
            _ => Ok(None),
        }
    }
}

fn bytes_at(alloc: Global, bytes: &[u8]) -> Result<Option<(Bytes, &[u8])>, Memory>
    ensures { IfOk result (λ o. option_map (λ x. (x.0, x.1.now)) o ≡ spec.blob.get bytes.now) }
{
    let Some((blob, rest)) = blob_at(bytes) else {
        return Ok(None);
    };
    let mut list = Vec::new(alloc);
    list.extend_from_slice(blob)?;
    let blob = Bytes::from_vec(list)?;
    Ok(Some((blob, rest)))
}

/// Adds the number of a primitive or a keyword, where it is one.
#[tactic(auto, unfolding(crate::specs::Names::op))]
pub fn put_op(out: &mut Vec<u8>, op: &Op) -> Result<bool, Memory>
    ensures { IfOk result (λ b. PutsIf spell.op op.now out.old.items out.new.items b) }
{
    if op.0 >= NAME_COUNT {
        return Ok(false);
    }
    put_u16(out, op.0)?;
    Ok(true)
}

#[tactic(auto, unfolding(crate::specs::Names::op))]
pub fn op_at(bytes: &[u8]) -> Option<(Op, &[u8])>
    ensures { option_map (λ x. (x.0, x.1.now)) result ≡ spell.op.get bytes.now }
{
    let (number, rest) = u16_at(bytes)?;
    if number >= NAME_COUNT {
        return None;
    }
    Some((Op(number), rest))
}
