//! The laws of what calls make. The functions here compute nothing: what they promise is the laws.

ghost use Rattle.std.specs.Prelude.{◌≡◌, ℕ, Bool, List, Some, Ok, map};
ghost use Rattle.base_data.specs.Elements.{Each};
ghost use Rattle.stx_frames.specs.Scope.{Scope};
ghost use Rattle.eval_value.specs.Cells.{FitsIn, WholeCells};
ghost use Rattle.eval_value.specs.declared.cell.Cell.{Cell};
ghost use Rattle.eval_value.specs.declared.value.Value.{Value};
ghost use Rattle.eval_prims.specs.Delta.{delta};
ghost use Rattle.eval_prims.specs.Perform.{MadeFits};
ghost use Rattle.eval_prims.specs.declared.made.PrimResult.{PrimResult};
ghost use Rattle.eval_prims.specs.declared.primitive.lists.TheConstants.{LISTS};
ghost use Rattle.eval_prims.specs.declared.primitive.numbers.TheConstants.{NUMBERS};
ghost use Rattle.eval_prims.specs.declared.primitive.texts.TheConstants.{TEXTS};
ghost use Rattle.law_prims.specs.ByName as by_name;
ghost use Rattle.law_prims.specs.Holds.{Passes, HoldsIn, MadeHolds};

/// A test that all arguments, all values in the cells and all values without a place pass is passed by
/// each value in what a primitive makes: so a call makes no procedure and no place that wasn't there.
pub fn what_a_call_makes_was_there()
    ensures { (test : Value → Bool) (op : ℕ) (args : List Value) (cells : List Cell) (fs : Scope) (m : PrimResult) → HoldsIn (Passes test) cells →
        Each (Passes test) args → delta op args cells fs ≡ Ok m → MadeHolds (Passes test) m }
{}

/// What a primitive makes of values that fit in whole cells fits in them, so that storing it keeps cells whole.
pub fn what_a_call_makes_fits()
    ensures { (op : ℕ) (args : List Value) (cells : List Cell) (fs : Scope) (m : PrimResult) → WholeCells cells → Each (FitsIn cells) args →
        delta op args cells fs ≡ Ok m → MadeFits cells m }
{}

/// The primitives are those of these report names, each in its row and with its numbers of arguments, and no
/// others: the table of `primitive_of` holds them in this order.
pub fn primitives_are_by_name()
    ensures lists { map (λ p. Some p) LISTS ≡ by_name.lists }
    ensures numbers { map (λ p. Some p) NUMBERS ≡ by_name.numbers }
    ensures texts { map (λ p. Some p) TEXTS ≡ by_name.texts }
{}
