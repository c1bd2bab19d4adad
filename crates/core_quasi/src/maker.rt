//! The procedures that plans call.

ghost use Rattle.std.specs.Prelude.{◌≡◌};
ghost use Rattle.core_quasi.specs.Plan.{maker_op};

use base_data::op::{Op, names};

/// A procedure that makes lists or vectors (R6RS 11.9 and 11.13; libraries 3).
#[derive(Clone, Copy, PartialEq, Eq)]
pub enum Maker {
    List,
    /// `cons*`
    ConsStar,
    Append,
    /// `list->vector`
    ListToVector,
}

impl Maker {
    /// The procedure's number in the table of names.
    pub fn op(self) -> Op
        ensures { result.0 ≡ maker_op self }
    {
        match self {
            Maker::List => Op(names::LIST),
            Maker::ConsStar => Op(names::CONS_STAR),
            Maker::Append => Op(names::APPEND),
            Maker::ListToVector => Op(names::LIST_TO_VECTOR),
        }
    }
}
