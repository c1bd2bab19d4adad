//! Names of libraries that were read a short while ago.

ghost use Rattle.std.specs.Prelude.{◌≡◌, IfOk, IfSome, Some, option_map};
ghost use Rattle.base_bytes.specs.Names.{library};

use crate::names::library_name_at;
use crate::spelled::Spelled;
use base_data::library::LibName;
use base_data::memory::Memory;
use base_data::symbol::Symbol;
use std::alloc::Global;
use std::marker::Model;
use std::rc::Rc;

/// A name of a library, and its spelling.
#[derive(Drop)]
struct KeptName {
    spelling: Vec<u8>,
    named: Rc<LibName>,
}

impl Model for KeptName {
    ghost use Rattle.base_data.specs.declared.library.LibName.{LibName};
    ghost use Rattle.base_bytes.specs.Puts.{Puts};
    ghost use Rattle.base_bytes.specs.Names.{library};
    ghost use Rattle.std.specs.Prelude.{[]};

    ghost Value = { LibName };

    ghost view = { λ k. k.named.value };

    ghost invariant = { λ k. Puts library k.named.value [] k.spelling.items };
}

/// The names of libraries that were read a short while ago, and the last file. A row of an entry names two libraries, most
/// rows the same two, and most spans of an entry are in one file: what is read again is shared.
#[derive(Drop)]
pub struct RecentLibraries {
    alloc: Global,
    kept: Vec<KeptName>,
    /// The file of the span that was read last.
    file: Option<Symbol>,
}

/// How many are kept.
const KEPT: usize = 8;

/// The one that the bytes begin with, and the bytes behind it.
fn kept_at<'a>(
    kept: &[KeptName],
    bytes: &'a [u8],
) -> Result<Option<(Rc<LibName>, &'a [u8])>, Memory>
    ensures { IfOk result (λ o. IfSome o (λ x. library.get bytes.now ≡ Some (x.0.value, x.1.now))) }
{
    for one in kept {
        if let Some(rest) = bytes.strip_prefix(one.spelling.as_slice()) {
            let library = one.named.clone()?;
            return Ok(Some((library, rest)));
        }
    }
    Ok(None)
}

impl KeptName {
    fn new(alloc: Global, library: &Rc<LibName>) -> Result<KeptName, Memory>
        ensures { IfOk result (λ k. k ≡ library.now.value) }
    {
        let mut spelling = Vec::new(alloc);
        library.put(&mut spelling)?;
        let named = library.clone()?;
        Ok(KeptName { spelling, named })
    }
}

impl RecentLibraries {
    /// None so far. It takes no memory.
    pub fn new(alloc: Global) -> RecentLibraries {
        let kept = Vec::new(alloc);
        RecentLibraries {
            alloc,
            kept,
            file: None,
        }
    }

    /// Where memory is taken from.
    pub fn alloc(&self) -> Global {
        self.alloc
    }

    /// The name of a library that the bytes begin with, and the bytes behind it.
    pub(crate) fn library_at<'a>(
        &mut self,
        bytes: &'a [u8],
    ) -> Result<Option<(Rc<LibName>, &'a [u8])>, Memory>
        ensures { IfOk result (λ o. option_map (λ x. (x.0.value, x.1.now)) o ≡ library.get bytes.now) }
    {
        if let Some((library, rest)) = kept_at(&self.kept, bytes)? {
            return Ok(Some((library, rest)));
        }
        let Some((library, rest)) = library_name_at(self.alloc, bytes)? else {
            return Ok(None);
        };
        let library = Rc::new(self.alloc, library)?;
        self.keep(&library)?;
        Ok(Some((library, rest)))
    }

    // The file of the span that was read last, where it has this name.
    fn same_file(&self, name: &str) -> Option<&Symbol>
        ensures { IfSome result (λ file. file.now ≡ name.now) }
    {
        match &self.file {
            Some(file) if file.as_str().as_bytes() == name.as_bytes() => Some(file),
            _ => None,
        }
    }

    /// The symbol of a file's name, which the spans share that are read one after another.
    pub(crate) fn file(&mut self, name: &str) -> Result<Symbol, Memory>
        ensures { IfOk result (λ s. s ≡ name.now) }
    {
        if let Some(file) = self.same_file(name) {
            return file.share();
        }
        let file = Symbol::new(self.alloc, name)?;
        let kept = file.share()?;
        self.file = Some(kept);
        Ok(file)
    }

    fn keep(&mut self, library: &Rc<LibName>) -> Result<(), Memory> {
        if self.kept.len() >= KEPT {
            self.kept.clear();
        }
        let kept = KeptName::new(self.alloc, library)?;
        self.kept.push(kept)?;
        Ok(())
    }
}
