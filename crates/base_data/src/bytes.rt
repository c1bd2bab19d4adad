//! Bytevectors.

ghost use Rattle.std.specs.Cmp;
ghost use Rattle.std.specs.Cmp.Lexicographic.{pointwise, nat_list_eq_equiv};
ghost use Rattle.std.specs.Prelude.{◌≡◌, nat_eq, IfOk};

use crate::memory::Memory;
use std::alloc::Global;
use std::marker::Model;
use std::rc::RcSlice;

/// A shared list of bytes, the contents of a bytevector (R6RS 4.3.4).
#[derive(Drop)]
pub struct Bytes {
    bytes: RcSlice<u8>,
}

impl Model for Bytes {
    ghost use Rattle.std.specs.Prelude.{List, ℕ};
    ghost use Rattle.std.specs.Rc.{rc_slice_items};

    ghost Value = { List ℕ };

    ghost view = { λ b. rc_slice_items b.bytes };
}

impl Bytes {
    pub fn from_vec(bytes: Vec<u8>) -> Result<Bytes, Memory>
        ensures { IfOk result (λ b. b ≡ bytes.items) }
    {
        let bytes = RcSlice::from_vec(bytes)?;
        Ok(Bytes { bytes })
    }

    /// Another owner of the same bytes.
    pub fn share(&self) -> Result<Bytes, Memory>
        ensures { IfOk result (λ b. b ≡ self.now) }
    {
        let bytes = self.bytes.clone()?;
        Ok(Bytes { bytes })
    }

    pub fn as_slice(&self) -> &[u8]
        ensures { result.now ≡ self.now }
    {
        self.bytes.as_slice()
    }
}

impl PartialEq for Bytes {
    ghost eq = { λ a b. pointwise nat_eq a b };

    ghost laws = { Cmp.partial_equiv_from_equiv nat_list_eq_equiv };

    fn eq(&self, other: &Bytes) -> bool {
        self.bytes.as_slice() == other.bytes.as_slice()
    }
}

impl Eq for Bytes {
    ghost laws = { nat_list_eq_equiv };
}
