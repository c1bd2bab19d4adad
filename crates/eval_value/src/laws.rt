//! Laws of cells and of reading them. Each function here computes nothing: what it promises is the law.

ghost use Rattle.std.specs.Prelude.{◌≡◌, ℕ, List, []};
ghost use Rattle.base_data.specs.Datum.{PlainDatum};
ghost use Rattle.eval_value.specs.declared.cell.Cell.{Cell};
ghost use Rattle.eval_value.specs.declared.value.Value.{Value};
ghost use Rattle.eval_value.specs.Cells.{WholeCells, FitsIn};
ghost use Rattle.eval_value.specs.FromDatum.{stored, Keeps};
ghost use Rattle.eval_value.specs.ToSyntax.{to_syntax, level, shown};

/// An empty list of cells is whole; to add the cells of a datum to whole cells leaves them whole, and
/// the datum's value fits in them.
pub fn data_keep_cells_whole()
    ensures none { WholeCells [] }
    ensures cells { (d : PlainDatum) (cells : List Cell) → WholeCells cells → WholeCells (stored d cells).1 }
    ensures value { (d : PlainDatum) (cells : List Cell) → WholeCells cells → FitsIn (stored d cells).1 (stored d cells).0 }
{}

/// The cells of a datum come after those that are there, which keep their places.
pub fn data_keep_older_cells()
    ensures { (d : PlainDatum) (cells : List Cell) → Keeps cells (stored d cells).1 }
{}

/// How a value is read as syntax is determined by one level of it and by how its parts are read; that
/// fuel bounds the levels in the definition doesn't show.
pub fn a_value_is_read_by_its_parts()
    ensures { (cells : List Cell) (x : Value) (fuel : ℕ) →
        to_syntax cells x fuel ≡ level (to_syntax cells) (shown cells x) fuel }
{}
