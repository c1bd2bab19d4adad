//! Laws of what primitives make. Each function here computes nothing: what it promises is the law.

ghost use Rattle.std.specs.Prelude.{◌≡◌, List, [], ◌∷◌};
ghost use Rattle.base_data.specs.Named.{Named};
ghost use Rattle.eval_value.specs.declared.cell.Cell.{Cell};
ghost use Rattle.eval_value.specs.Cells.{WholeCells, FitsIn};
ghost use Rattle.eval_value.specs.FromDatum.{Keeps};
ghost use Rattle.eval_prims.specs.declared.made.PrimResult.{PrimResult};
ghost use Rattle.eval_prims.specs.Perform.{performed, MadeFits};
ghost use Rattle.eval_prims.specs.Table.{misplaced};
ghost use Rattle.eval_prims.specs.declared.primitive.TheConstants.{ROWS};
ghost use Rattle.eval_prims.specs.declared.rows.TheConstants as rows;

/// To store what a primitive made of values that fit leaves whole cells whole, and the value that
/// results fits in them.
pub fn what_is_made_keeps_cells_whole()
    ensures cells { (m : PrimResult) (name : Named) (cells : List Cell) → WholeCells cells → MadeFits cells m → WholeCells (performed m name cells).1 }
    ensures value { (m : PrimResult) (name : Named) (cells : List Cell) → WholeCells cells → MadeFits cells m →
        FitsIn (performed m name cells).1 (performed m name cells).0 }
{}

/// The rows of primitives are numbered from 0, and each has a number of its own.
#[tactic(auto, unfolding(crate::specs::Table::misplaced))]
pub fn rows_are_numbered_in_order()
    ensures { misplaced 0 (rows.BASICS ∷ rows.NUMBERS ∷ rows.CHARACTERS ∷ rows.PARTS ∷ rows.GATHERED ∷ rows.LISTS ∷ rows.APPENDED
        ∷ rows.INDEXED ∷ rows.UNPACKED ∷ rows.STRINGS ∷ rows.NUMBER_STRINGS ∷ rows.STRING_COMPARISONS ∷ rows.EQUALITY ∷ rows.IDENTIFIERS
        ∷ rows.DATA ∷ rows.TREES ∷ rows.TEMPORARIES ∷ rows.RAISING ∷ []) ≡ ROWS }
{}
