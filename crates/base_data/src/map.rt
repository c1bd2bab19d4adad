//! Tables by names and symbols, and sets of them, whose hasher takes a number whole.

ghost use Rattle.indexmap.specs.IndexMap.{index_map_len, IsEmpty, IsUnique};
ghost use Rattle.indexmap.specs.IndexSet as sets;
ghost use Rattle.std.specs.Prelude.{◌≡◌, IfOk};
ghost use Rattle.base_data.specs.Hasher.{mixed, number, write, finish};

use crate::memory::Memory;
use indexmap::{IndexMap, IndexSet};
use std::alloc::Global;
use std::hash::{BuildHasherDefault, Hash, Hasher};

const TIMES: u64 = 0x9e37_79b9_7f4a_7c15;

const LAST: u64 = 0xd6e8_feb8_6659_fd93;

/// A hasher that takes a number in one multiplication. It is quick and not cryptographic.
#[derive(Clone, Copy)]
pub struct NameHasher {
    state: u64,
}

#[tactic(auto, unfolding(crate::specs::Hasher::mixed))]
#[inline(always)]
pub(crate) fn mixed(state: u64, n: u64) -> u64
    ensures { result ≡ mixed state n }
{
    (state.rotate_left(5) ^ n).wrapping_mul(TIMES)
}

// The number that bytes spell, the lowest first.
#[cycle(number)]
#[tactic(auto, unfolding(crate::specs::Hasher::number))]
fn number(bytes: &[u8]) -> u64
    ensures { result ≡ number bytes.now }
{
    match bytes.split_first() {
        None => 0,
        Some((b, rest)) => number(rest).wrapping_mul(256).wrapping_add(u64::from(*b)),
    }
}

impl Default for NameHasher {
    ghost is_default = { λ s. s.state ≡ 0 };

    #[inline(always)]
    fn default() -> NameHasher {
        NameHasher { state: 0 }
    }
}

impl Hasher for NameHasher {
    ghost write = { write };

    ghost finish = { finish };

    #[tactic(auto, unfolding(crate::specs::Hasher::last))]
    #[inline(always)]
    fn finish(&self) -> u64 {
        let last = (self.state ^ (self.state >> 32)).wrapping_mul(LAST);
        last ^ (last >> 32)
    }

    /// Up to eight bytes are one number; of more, each byte is one.
    #[tactic(auto, unfolding(crate::specs::Hasher::taken))]
    fn write(&mut self, bytes: &[u8]) {
        if bytes.len() <= 8 {
            self.state = mixed(self.state, number(bytes));
            return;
        }
        let mut state = self.state;
        for b in bytes {
            state = mixed(state, u64::from(*b));
        }
        self.state = state;
    }

    #[tactic(auto, using(crate::proofs::HasherLemmas::taken_byte))]
    #[inline(always)]
    fn write_u8(&mut self, i: u8) {
        self.state = mixed(self.state, u64::from(i));
    }

    #[tactic(auto, using(crate::proofs::HasherLemmas::taken_word))]
    #[inline(always)]
    fn write_u64(&mut self, i: u64) {
        self.state = mixed(self.state, i);
    }

    #[inline(always)]
    fn write_usize(&mut self, i: usize) {
        self.write_u64(i as u64);
    }
}

/// A table whose keys are names or symbols, in the order of their coming.
pub type NameMap<K, V> = IndexMap<K, V, BuildHasherDefault<NameHasher>>;

/// A table without rows. It takes no memory.
#[inline(always)]
pub fn new_map<K: Eq + Hash, V>(alloc: Global) -> NameMap<K, V>
    ensures empty { IsEmpty result }
    ensures len { index_map_len result ≡ 0 }
    ensures unique { IsUnique K.eq result }
{
    IndexMap::with_hasher(alloc, BuildHasherDefault::new())
}

/// A set of names or symbols, in the order of their coming.
pub type NameSet<K> = IndexSet<K, BuildHasherDefault<NameHasher>>;

/// An empty set. It takes no memory.
#[inline(always)]
pub fn new_set<K: Eq + Hash>(alloc: Global) -> NameSet<K>
    ensures empty { sets.IsEmpty result }
    ensures len { sets.index_set_len result ≡ 0 }
    ensures unique { sets.IsUnique K.eq result }
{
    IndexSet::with_hasher(alloc, BuildHasherDefault::new())
}

/// An empty set with room for so many.
pub fn set_for<K: Eq + Hash>(alloc: Global, count: usize) -> Result<NameSet<K>, Memory>
    ensures empty { IfOk result sets.IsEmpty }
    ensures len { IfOk result (λ s. sets.index_set_len s ≡ 0) }
    ensures unique { IfOk result (sets.IsUnique K.eq) }
{
    let set = IndexSet::with_capacity_and_hasher(alloc, count, BuildHasherDefault::new())?;
    Ok(set)
}
