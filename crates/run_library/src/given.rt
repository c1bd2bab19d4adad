//! The names of the libraries that are given with the implementation, listed once for all forms that share the list.
//!
//! The libraries of a program mostly import the same given libraries. What `(rnrs)` exports, nearly 300 names, depends on
//! the derived library alone: a derived name refers to what the derived library exports under it. So the list is stored
//! with the exports of that library, and is made anew only behind another one.

ghost use Rattle.std.specs.Prelude.{◌≡◌, [], true, None, IfOk, OnOk, option_map};
ghost use Rattle.base_data.specs.Gives.{Gives};
ghost use Rattle.load_import.specs.Names.{joined};
ghost use Rattle.run_library.specs.Given.{exports_of, given_of};
ghost use Rattle.run_library.specs.Imports.{given_names};

use crate::imports::{given_names, share_names};
use base_data::fault::Stop;
use base_data::imported_name::ImportedName;
use base_data::items::Items;
use base_data::library::LibName;
use base_data::map::new_map;
use base_data::memory::Memory;
use base_data::span::Span;
use core_language::record::CompiledLibrary;
use core_language::share::share_library;
use load_builtin::exports::exports;
use load_import::shared::Exports;
use load_import::sources::{Sources, add_source, names_in};
use std::alloc::Global;
use std::marker::Model;

/// The names of given libraries that forms imported. It is seen as what the derived library exports, if it is there:
/// the names are listed behind it.
#[derive(Drop)]
pub struct GivenNames {
    alloc: Global,
    derived: Option<Items<ImportedName>>,
    listed: Sources,
}

impl Model for GivenNames {
    ghost use Rattle.std.specs.Prelude.{Option};
    ghost use Rattle.load_import.specs.Names.{Labelled};
    ghost use Rattle.run_library.specs.Given.{AreGiven};

    ghost Value = { Option Labelled };

    ghost view = { λ g. g.derived };

    ghost invariant = { λ g. AreGiven g.derived g.listed.entries };
}

fn same_name(one: &ImportedName, other: &ImportedName) -> bool
    ensures { result ≡ true → one.now ≡ other.now }
{
    if !one.name.same(&other.name) {
        return false;
    }
    one.label.same(&other.label)
}

/// Whether two lists of names are the same.
#[tactic(auto, using(crate::proofs::GivenLemmas::cons_same))]
fn same_names(one: &[ImportedName], other: &[ImportedName]) -> bool
    ensures { result ≡ true → one.now ≡ other.now }
{
    let mut left = one;
    let mut right = other;
    while let [name, more @ ..] = left {
        let [second, others @ ..] = right else {
            return false;
        };
        if !same_name(name, second) {
            return false;
        }
        left = more;
        right = others;
    }
    right.is_empty()
}

/// What a record exports, where it is there.
fn share_exports(
    alloc: Global,
    record: Option<&CompiledLibrary>,
) -> Result<Option<Items<ImportedName>>, Memory>
    ensures { IfOk result (λ names. names ≡ exports_of (option_map (λ r. r.now) record.entry)) }
{
    let Some(record) = record else {
        return Ok(None);
    };
    let names = share_names(alloc, record.exports.as_slice())?;
    Ok(Some(names))
}

/// The names of a library that is given with the implementation; of another there are none.
fn given_of(alloc: Global, library: &LibName) -> Result<Items<ImportedName>, Memory>
    ensures { IfOk result (λ names. names ≡ given_of library.now) }
{
    match exports(alloc, library)? {
        Some(names) => Ok(names),
        None => Ok(Items::new(alloc)),
    }
}

impl GivenNames {
    /// No names. It takes no memory.
    #[tactic(auto, using(crate::proofs::GivenLemmas::none_given))]
    pub fn new(alloc: Global) -> GivenNames
        ensures { result ≡ None }
    {
        GivenNames {
            alloc,
            derived: None,
            listed: new_map(alloc),
        }
    }

    pub(crate) fn alloc(&self) -> Global {
        self.alloc
    }

    #[tactic(auto, using(crate::proofs::GivenLemmas::none_given))]
    fn behind(alloc: Global, derived: Option<&CompiledLibrary>) -> Result<GivenNames, Memory>
        ensures { IfOk result (λ g. g ≡ exports_of (option_map (λ r. r.now) derived.entry)) }
    {
        let derived = share_exports(alloc, derived)?;
        Ok(GivenNames {
            alloc,
            derived,
            listed: new_map(alloc),
        })
    }

    /// Whether these names are listed behind what this record exports.
    fn is_behind(&self, derived: Option<&CompiledLibrary>) -> bool
        ensures { result ≡ true → self.now ≡ exports_of (option_map (λ r. r.now) derived.entry) }
    {
        let Some(record) = derived else {
            return self.derived.is_none();
        };
        match &self.derived {
            None => false,
            Some(names) => same_names(names.as_slice(), record.exports.as_slice()),
        }
    }

    // From now on names are listed behind what this record exports.
    fn go_behind(&mut self, derived: Option<&CompiledLibrary>) -> Result<(), Memory>
        ensures { OnOk result (self.new ≡ exports_of (option_map (λ r. r.now) derived.entry)) }
    {
        if self.is_behind(derived) {
            return Ok(());
        }
        *self = GivenNames::behind(self.alloc, derived)?;
        Ok(())
    }

    // Lists a library.
    #[tactic(auto, using(crate::proofs::GivenLemmas::given_more, crate::proofs::GivenLemmas::given_same))]
    fn list(
        &mut self,
        derived: Option<&CompiledLibrary>,
        library: &LibName,
        span: &Span,
    ) -> Result<Exports, Stop>
        requires { self.old ≡ exports_of (option_map (λ r. r.now) derived) }
        ensures { Gives (λ e. e) result (joined span.now [] (given_names (option_map (λ r. r.now) derived.entry) (given_of library.now))) }
    {
        let alloc = self.alloc;
        let names = given_of(alloc, library)?;
        let names = given_names(alloc, derived, names)?;
        let exports = Exports::new(alloc, names.as_slice(), span)?;
        let kept = exports.share()?;
        let name = share_library(alloc, library)?;
        add_source(alloc, &mut self.listed, name, kept)?;
        Ok(exports)
    }

    /// What a given library exports, each name once, behind a record of the derived library. One that stands for two labels is
    /// `ImportConflict` at a set.
    #[tactic(auto, using(crate::proofs::GivenLemmas::given_there))]
    pub(crate) fn exported(
        &mut self,
        derived: Option<&CompiledLibrary>,
        library: &LibName,
        span: &Span,
    ) -> Result<Exports, Stop>
        ensures { Gives (λ e. e) result (joined span.now [] (given_names (option_map (λ r. r.now) derived.entry) (given_of library.now))) }
    {
        self.go_behind(derived)?;
        if let Some(exports) = names_in(&self.listed, library) {
            return Ok(exports.share()?);
        }
        self.list(derived, library, span)
    }
}
