//! A list that contracts see as its elements alone.

ghost use Rattle.std.specs.Cmp.{po};
ghost use Rattle.std.specs.Cmp.Lexicographic.{pointwise, slice_cmp, lists_per, lists_equiv};
ghost use Rattle.std.specs.Hash as fed;
ghost use Rattle.std.specs.Hash.{items_Alike};
ghost use Rattle.std.specs.Ordering.{nat_cmp, on, then_cmp, as_partial_cmp};
ghost use Rattle.std.specs.Prelude.{◌≡◌, [], ◌∷◌, ◌++◌, length, OnOk, OnErr};
ghost use Rattle.std.proofs.Common.{refl};
ghost use Rattle.base_data.specs.Order.{short_total, short_ties};

use crate::memory::Memory;
use std::alloc::Global;
use std::cmp::Ordering;
use std::hash::{Hash, Hasher};
use std::marker::Model;

/// A list, seen as its elements: neither its place in memory nor its capacity is part of its meaning.
/// It is a `Vec` for values that contracts compare.
#[derive(Drop)]
pub struct Items<T> {
    list: Vec<T>,
}

impl<T> Model for Items<T> {
    ghost use Rattle.std.specs.Prelude.{List};

    ghost Value = { List T };

    ghost view = { λ a. a.list.items };
}

impl<T> Items<T> {
    /// The empty list. It takes no memory.
    pub fn new(alloc: Global) -> Items<T>
        ensures { result ≡ [] }
    {
        let list = Vec::new(alloc);
        Items { list }
    }

    pub fn from_vec(list: Vec<T>) -> Items<T>
        ensures { result ≡ list.items }
    {
        Items { list }
    }

    pub fn into_vec(self) -> Vec<T>
        ensures { result.items ≡ self }
    {
        self.list
    }

    pub fn as_slice(&self) -> &[T]
        ensures { result.now ≡ self.now }
    {
        self.list.as_slice()
    }

    /// Adds an element at the end. A refusal changes nothing.
    pub fn push(&mut self, item: T) -> Result<(), Memory>
    where
        T: Drop,
        ensures ok { OnOk result (self.new ≡ self.old ++ item ∷ []) }
        ensures err { OnErr result (self.new ≡ self.old) }
    {
        self.list.push(item)?;
        Ok(())
    }
}

impl<T: PartialEq> PartialEq for Items<T> {
    ghost eq = { λ a b. pointwise T.eq a b };

    ghost laws = { lists_per T.laws };

    fn eq(&self, other: &Items<T>) -> bool {
        self.list.as_slice() == other.list.as_slice()
    }
}

impl<T: Eq> Eq for Items<T> {
    ghost laws = { lists_equiv T.Eq.laws };
}

impl<T: Hash> Hash for Items<T> {
    ghost hash_input = { λ a. fed.slice T.hash_input a };

    ghost respects_eq = { (items_Alike (record { fed = T.respects_eq })).fed };

    fn hash<H: Hasher>(&self, state: &mut H) {
        self.list.as_slice().hash(state);
    }
}

/// The shorter list comes first, and lists of one length compare element by element.
impl<T: Ord> Ord for Items<T> {
    ghost cmp = { then_cmp (on length nat_cmp) (slice_cmp T.cmp) };

    ghost total = { short_total T.total };

    ghost matches_partial_cmp = { λ a b. refl };

    ghost matches_eq = { short_ties T.cmp T.matches_eq };

    fn cmp(&self, other: &Items<T>) -> Ordering {
        let a = self.list.as_slice();
        let b = other.list.as_slice();
        a.len().cmp(&b.len()).then(a.cmp(&b))
    }
}

impl<T: Ord> PartialOrd for Items<T> {
    ghost partial_cmp = { as_partial_cmp (then_cmp (on length nat_cmp) (slice_cmp T.cmp)) };

    ghost laws = { po (short_total T.total) (short_ties T.cmp T.matches_eq) };

    fn partial_cmp(&self, other: &Items<T>) -> Option<Ordering> {
        Some(self.cmp(other))
    }
}
