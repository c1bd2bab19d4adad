//! Names: a library, and a number of its own.

ghost use Rattle.std.specs.Cmp.{po};
ghost use Rattle.std.specs.Ordering.{as_partial_cmp};
ghost use Rattle.std.specs.Prelude.{◌≡◌, ◌+◌, IfOk, OnErr, OnOk, IsTrue, ◌↔◌};
ghost use Rattle.std.proofs.Common.{refl};
ghost use Rattle.base_data.specs.NameOrder.{name_cmp, name_cmp_total, name_ties};
ghost use Rattle.base_data.specs.Same.{same_name, same_name_equiv, same_name_per, name_fed, name_alike};

use crate::library::LibName;
use crate::memory::Memory;
use std::cmp::Ordering;
use std::hash::{Hash, Hasher};
use std::marker::Model;
use std::rc::Rc;

/// A library, and a number of its own. It is compared by value, and shared at no cost in memory.
#[derive(Drop)]
pub struct Name {
    pub library: Rc<LibName>,
    pub number: u64,
}

impl Model for Name {
    ghost use Rattle.base_data.specs.Named.{Named, named_code};

    ghost Value = { Named };

    ghost coded = { named_code };

    ghost view = { λ n. record { library = n.library.value; number = n.number } };
}

impl PartialEq for Name {
    ghost eq = { same_name };

    ghost laws = { same_name_per };

    fn eq(&self, other: &Name) -> bool {
        self.number == other.number && *self.library == *other.library
    }
}

impl Eq for Name {
    ghost laws = { same_name_equiv };
}

/// By library, then by number.
impl Ord for Name {
    ghost cmp = { name_cmp };

    ghost total = { name_cmp_total };

    ghost matches_partial_cmp = { λ a b. refl };

    ghost matches_eq = { name_ties };

    fn cmp(&self, other: &Name) -> Ordering {
        (*self.library)
            .cmp(&*other.library)
            .then(self.number.cmp(&other.number))
    }
}

impl PartialOrd for Name {
    ghost partial_cmp = { as_partial_cmp name_cmp };

    ghost laws = { po name_cmp_total name_ties };

    fn partial_cmp(&self, other: &Name) -> Option<Ordering> {
        Some(self.cmp(other))
    }
}

/// Both are hashed: each library numbers its names from 0.
impl Hash for Name {
    ghost hash_input = { name_fed };

    ghost respects_eq = { name_alike };

    fn hash<H: Hasher>(&self, state: &mut H) {
        (*self.library).hash(state);
        self.number.hash(state);
    }
}

impl Name {
    /// Another owner of the same name.
    pub fn share(&self) -> Result<Name, Memory>
        ensures { IfOk result (λ n. n ≡ self.now) }
    {
        let library = self.library.clone()?;
        Ok(Name {
            library,
            number: self.number,
        })
    }

    #[tactic(auto, using(crate::specs::Same::same_name_decides))]
    pub fn same(&self, other: &Name) -> bool
        ensures { IsTrue result ↔ self.now ≡ other.now }
    {
        *self == *other
    }
}

/// A mark, by which hygiene tells apart the leaves that two uses of a keyword introduce
/// (Dybvig, Hieb and Bruggeman 1992).
#[derive(PartialEq, Eq, PartialOrd, Ord, Hash, Drop)]
pub struct Mark(pub Name);

impl Mark {
    /// Another owner of the same name.
    pub fn share(&self) -> Result<Mark, Memory>
        ensures { IfOk result (λ n. n ≡ self.now) }
    {
        let name = self.0.share()?;
        Ok(Mark(name))
    }

    pub fn same(&self, other: &Mark) -> bool
        ensures { IsTrue result ↔ self.now ≡ other.now }
    {
        self.0.same(&other.0)
    }
}

/// A label: what a binding is known by, whatever its symbol.
#[derive(PartialEq, Eq, PartialOrd, Ord, Hash, Drop)]
pub struct Label(pub Name);

impl Label {
    /// Another owner of the same name.
    pub fn share(&self) -> Result<Label, Memory>
        ensures { IfOk result (λ n. n ≡ self.now) }
    {
        let name = self.0.share()?;
        Ok(Label(name))
    }

    pub fn same(&self, other: &Label) -> bool
        ensures { IsTrue result ↔ self.now ≡ other.now }
    {
        self.0.same(&other.0)
    }
}

/// A frame, in which symbols with marks have labels. Others call it a rib.
#[derive(PartialEq, Eq, PartialOrd, Ord, Hash, Drop)]
pub struct FrameNo(pub Name);

impl FrameNo {
    /// Another owner of the same name.
    pub fn share(&self) -> Result<FrameNo, Memory>
        ensures { IfOk result (λ n. n ≡ self.now) }
    {
        let name = self.0.share()?;
        Ok(FrameNo(name))
    }

    pub fn same(&self, other: &FrameNo) -> bool
        ensures { IsTrue result ↔ self.now ≡ other.now }
    {
        self.0.same(&other.0)
    }
}

/// The code of a procedure that is made during expansion.
#[derive(PartialEq, Eq, PartialOrd, Ord, Hash, Drop)]
pub struct CodeNo(pub Name);

impl CodeNo {
    /// Another owner of the same name.
    pub fn share(&self) -> Result<CodeNo, Memory>
        ensures { IfOk result (λ n. n ≡ self.now) }
    {
        let name = self.0.share()?;
        Ok(CodeNo(name))
    }

    pub fn same(&self, other: &CodeNo) -> bool
        ensures { IsTrue result ↔ self.now ≡ other.now }
    {
        self.0.same(&other.0)
    }
}

/// The names of a library that are still free, seen as the next one.
#[derive(Drop)]
pub struct FreeNames {
    library: Rc<LibName>,
    next: u64,
}

impl Model for FreeNames {
    ghost use Rattle.base_data.specs.Named.{Named, named_code};

    ghost Value = { Named };

    ghost coded = { named_code };

    ghost view = { λ n. record { library = n.library.value; number = n.next } };
}

impl FreeNames {
    /// All names of a library. It takes no memory.
    pub fn new(library: Rc<LibName>) -> FreeNames
        ensures { result ≡ record { library = library.value; number = 0 } }
    {
        FreeNames { library, next: 0 }
    }

    /// The next name. After a refusal it is still the next one.
    /// At 2^64 - 1 names it answers `Memory`; no run gets there.
    pub fn next(&mut self) -> Result<Name, Memory>
        ensures ok { IfOk result (λ n. n ≡ self.old) }
        ensures after { OnOk result (self.new ≡ record { library = self.old.library; number = self.old.number + 1 }) }
        ensures err { OnErr result (self.new ≡ self.old) }
    {
        let Some(next) = self.next.checked_add(1) else {
            return Err(Memory);
        };
        let library = self.library.clone()?;
        let number = self.next;
        self.next = next;
        Ok(Name { library, number })
    }
}
