//! Symbols: shared texts.

ghost use Rattle.std.specs.Cmp;
ghost use Rattle.std.specs.Cmp.{po};
ghost use Rattle.std.specs.Cmp.Lexicographic.{pointwise, slice_cmp, nat_list_eq_equiv};
ghost use Rattle.std.specs.Ordering.{nat_cmp, on, then_cmp, as_partial_cmp};
ghost use Rattle.std.specs.Prelude.{◌≡◌, length, nat_eq, IfOk, IsTrue, ◌↔◌};
ghost use Rattle.std.specs.String.{string_bytes};
ghost use Rattle.std.proofs.Common.{refl};
ghost use Rattle.base_data.specs.Head.{symbol_fed, symbol_alike};
ghost use Rattle.base_data.specs.Order.{text_cmp_total, text_ties};

use crate::head::head_of;
use crate::memory::Memory;
use std::alloc::Global;
use std::cmp::Ordering;
use std::hash::{Hash, Hasher};
use std::marker::Model;
use std::rc::RcStr;

/// A shared text, seen as the UTF-8 bytes of its characters. It is the symbols and strings of data,
/// and the names of files.
#[derive(Drop)]
pub struct Symbol {
    text: RcStr,
    /// What `head_of` gives for the text.
    head: u64,
}

impl Model for Symbol {
    ghost use Rattle.std.specs.Prelude.{List, ℕ};
    ghost use Rattle.std.specs.Rc.{rc_str_bytes};

    ghost Value = { List ℕ };

    ghost view = { λ s. rc_str_bytes s.text };

    ghost use Rattle.std.specs.Prelude.{◌≡◌};
    ghost use Rattle.base_data.specs.Head.{head_of};

    ghost invariant = { λ s. s.head ≡ head_of (rc_str_bytes s.text) };
}

impl Symbol {
    pub fn new(alloc: Global, text: &str) -> Result<Symbol, Memory>
        ensures { IfOk result (λ s. s ≡ text.now) }
    {
        let head = head_of(text);
        let text = RcStr::from_str(alloc, text)?;
        Ok(Symbol { text, head })
    }

    /// The symbol of a text that was made, without a copy of it.
    pub fn from_string(text: String) -> Result<Symbol, Memory>
        ensures { IfOk result (λ s. s ≡ string_bytes text) }
    {
        let head = head_of(text.as_str());
        let text = RcStr::from_string(text)?;
        Ok(Symbol { text, head })
    }

    /// Another owner of the same text.
    pub fn share(&self) -> Result<Symbol, Memory>
        ensures { IfOk result (λ s. s ≡ self.now) }
    {
        let text = self.text.clone()?;
        Ok(Symbol {
            text,
            head: self.head,
        })
    }

    pub fn as_str(&self) -> &str
        ensures { result.now ≡ self.now }
    {
        self.text.as_str()
    }

    /// Whether two symbols have the same text.
    pub fn same(&self, other: &Symbol) -> bool
        ensures { IsTrue result ↔ self.now ≡ other.now }
    {
        *self == *other
    }
}

impl PartialEq for Symbol {
    ghost eq = { λ a b. pointwise nat_eq a b };

    ghost laws = { Cmp.partial_equiv_from_equiv nat_list_eq_equiv };

    #[tactic(auto, using(crate::proofs::Heads::others_differ))]
    #[inline(always)]
    fn eq(&self, other: &Symbol) -> bool {
        if self.head != other.head {
            return false;
        }
        // A short text is told by its number.
        if self.head / 0x0100_0000_0000_0000 < 8 {
            return true;
        }
        self.text == other.text
    }
}

impl Eq for Symbol {
    ghost laws = { nat_list_eq_equiv };
}

impl Hash for Symbol {
    ghost hash_input = { symbol_fed };

    ghost respects_eq = { symbol_alike };

    #[inline(always)]
    fn hash<H: Hasher>(&self, state: &mut H) {
        self.head.hash(state);
    }
}

/// The shorter text comes first, and texts of one length compare by bytes: the order of their
/// spellings, each a length and then the bytes.
impl Ord for Symbol {
    ghost cmp = { then_cmp (on length nat_cmp) (slice_cmp nat_cmp) };

    ghost total = { text_cmp_total };

    ghost matches_partial_cmp = { λ a b. refl };

    ghost matches_eq = { text_ties };

    fn cmp(&self, other: &Symbol) -> Ordering {
        let a = self.text.as_str();
        let b = other.text.as_str();
        a.len().cmp(&b.len()).then(a.cmp(&b))
    }
}

impl PartialOrd for Symbol {
    ghost partial_cmp = { as_partial_cmp (then_cmp (on length nat_cmp) (slice_cmp nat_cmp)) };

    ghost laws = { po text_cmp_total text_ties };

    fn partial_cmp(&self, other: &Symbol) -> Option<Ordering> {
        Some(self.cmp(other))
    }
}
