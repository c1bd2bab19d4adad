//! The laws of matching. Each function here computes nothing: what it promises is the law.

ghost use Rattle.std.specs.Prelude.{◌≡◌, ℕ, List, map, option_map};
ghost use Rattle.stx_frames.specs.Scope.{Scope};
ghost use Rattle.core_language.specs.Pattern.{PlainPattern};
ghost use Rattle.eval_value.specs.Cells.{FitsIn, WholeCells};
ghost use Rattle.eval_value.specs.declared.cell.Cell.{Cell};
ghost use Rattle.eval_value.specs.declared.value.Value.{Value};
ghost use Rattle.eval_pattern.specs.Matched.{matched, nothing};
ghost use Rattle.base_data.specs.declared.name.Mark.{Mark};
ghost use Rattle.stx_tree.specs.Renaming.{IsOneToOne};
ghost use Rattle.stx_frames.specs.Renaming.{renamed_scope};
ghost use Rattle.eval_pattern.specs.declared.columns.PatternBinds.{PatternBinds};
ghost use Rattle.law_matches.specs.Matches.{MatchBinds, Matches, IsRight};
ghost use Rattle.law_matches.specs.Renaming.{renamed_value, renamed_cell, renamed_pattern, renamed_found};

/// A match is found exactly if the cases of libraries report 12.4 have one, and it is that one.
pub fn a_match_is_that_of_the_report()
    ensures { (fs : Scope) (cells : List Cell) → WholeCells cells → (p : PlainPattern) (v : Value) → FitsIn cells v →
        IsRight fs cells p v (matched fs cells p v (nothing 0)) }
{}

/// By the cases of libraries report 12.4 a pattern matches a value in one way at most.
pub fn a_pattern_matches_in_one_way()
    ensures { (fs : Scope) (cells : List Cell) → WholeCells cells → (p : PlainPattern) (v : Value) → FitsIn cells v →
        (bs cs : MatchBinds) (m n : ℕ) → Matches fs cells p v bs m → Matches fs cells p v cs n → (bs ≡ cs) × (m ≡ n) }
{}

/// To give the marks of frames, cells, pattern and value other names, one to one, gives the binds of
/// the match these names, and changes nothing else.
pub fn names_of_marks_are_free()
    ensures { (r : Mark → Mark) → IsOneToOne r → (fs : Scope) (cells : List Cell) (p : PlainPattern) (v : Value) (s : PatternBinds) →
        matched (renamed_scope r fs) (map (renamed_cell r) cells) (renamed_pattern r p) (renamed_value r v) (renamed_found r s)
        ≡ option_map (renamed_found r) (matched fs cells p v s) }
{}
