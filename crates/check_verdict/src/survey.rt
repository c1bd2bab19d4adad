//! What is known of a text up to a place in it.

ghost use Rattle.std.specs.Prelude.{◌≡◌, OnOk};
ghost use Rattle.check_verdict.specs.Survey.{nothing_known, Takes, refused, entered, bound_by, mentioned, defined_by, or_first};
ghost use Rattle.check_verdict.specs.Walk.{variable, formal};
ghost use Rattle.check_verdict.specs.declared.survey.WalkHalt.TheVariants as halt;

use crate::names::NameSet;
use crate::primitives::Primitives;
use base_data::memory::Memory;
use base_data::symbol::Symbol;
use check_grammar::names::is_name;
use std::alloc::Global;

/// Why a walk doesn't go on.
#[derive(Clone, Copy, Debug, PartialEq, Eq)]
pub enum WalkHalt {
    /// Here stands no form of core text.
    Refused,
    Memory,
}

impl From<Memory> for WalkHalt {
    ghost from_gives = { λ _ e. e ≡ halt.Memory };

    fn from(_error: Memory) -> WalkHalt {
        WalkHalt::Memory
    }
}

/// What is known of the lines so far, and of a line up to a place in it.
#[derive(Drop)]
pub struct Survey {
    /// The names that are in scope at this place, by binders in its line.
    pub scope: NameSet,
    /// The names that have a binder.
    pub bound: NameSet,
    /// The first name that had a second binder.
    pub second: Option<Symbol>,
    /// The names that lines define.
    pub defined: NameSet,
    /// The names that are mentioned where no binder in the line has them in scope.
    pub free: NameSet,
}

// Keeps the first of two names.
fn keep_first(first: &mut Option<Symbol>, name: &Symbol) -> Result<(), Memory>
    ensures { OnOk result (first.new ≡ or_first first.old name.now) }
{
    if first.is_none() {
        *first = Some(name.share()?);
    }
    Ok(())
}

impl Survey {
    /// What is known before the first line. It takes no memory.
    pub fn new(alloc: Global) -> Survey
        ensures { result ≡ nothing_known }
    {
        Survey {
            scope: NameSet::new(alloc),
            bound: NameSet::new(alloc),
            second: None,
            defined: NameSet::new(alloc),
            free: NameSet::new(alloc),
        }
    }

    /// The name is in scope from here.
    pub(crate) fn enter(&mut self, name: &Symbol) -> Result<(), Memory>
        ensures { OnOk result (self.new ≡ entered self.old name.now) }
    {
        self.scope.add(name)
    }

    /// The name has a binder here.
    pub(crate) fn bind(&mut self, name: &Symbol) -> Result<(), Memory>
        ensures { OnOk result (self.new ≡ bound_by self.old name.now) }
    {
        if self.bound.put(name)? {
            return Ok(());
        }
        keep_first(&mut self.second, name)
    }

    /// The variable is mentioned here.
    pub(crate) fn mention(&mut self, name: &Symbol) -> Result<(), Memory>
        ensures { OnOk result (self.new ≡ mentioned self.old name.now) }
    {
        if self.scope.has(name) {
            return Ok(());
        }
        self.free.add(name)
    }

    /// A line defines the name.
    pub fn define(&mut self, name: &Symbol) -> Result<(), Memory>
        ensures { OnOk result (self.new ≡ defined_by self.old name.now) }
    {
        self.defined.add(name)?;
        self.bind(name)
    }

    /// A formal is bound, and in scope from here.
    pub(crate) fn take_formal(&mut self, name: &Symbol) -> Result<(), Memory>
        ensures { OnOk result (self.new ≡ formal self.old name.now) }
    {
        self.enter(name)?;
        self.bind(name)
    }

    /// An identifier that is an expression.
    pub(crate) fn identifier(
        &mut self,
        primitives: &Primitives,
        identifier: &Symbol,
    ) -> Result<(), WalkHalt>
        ensures { Takes result self.new (variable identifier.now self.old) }
    {
        if is_name(identifier.as_str()) {
            self.mention(identifier)?;
            return Ok(());
        }
        if primitives.has(identifier) {
            Ok(())
        } else {
            Err(WalkHalt::Refused)
        }
    }
}
