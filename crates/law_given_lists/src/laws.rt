//! The laws of the procedures that are given in Scheme, on several lists. The functions here compute nothing: what they promise is
//! the laws.

ghost use Rattle.std.specs.Prelude.{ℕ, List, [], ◌∷◌, map, Ok};
ghost use Rattle.base_data.specs.declared.op.names.TheConstants as names;
ghost use Rattle.eval_code.specs.Setting.{PlainSetting};
ghost use Rattle.eval_code.specs.State.{WorldState};
ghost use Rattle.law_lists.specs.Runs.{IsList, AreLists};
ghost use Rattle.eval_value.specs.declared.cell.Cell.{Cell};
ghost use Rattle.eval_value.specs.declared.value.Value.{Value};
ghost use Rattle.law_given.specs.Calls.{CallEnd, call_to, CallEnds, Calls};
ghost use Rattle.law_given.specs.InTurn as given;
ghost use Rattle.law_given.specs.Given.{built_in, ForAlls, Existences, FoldsLeft, FoldsRight};
ghost use Rattle.law_given.specs.Texts.{HasTexts};
ghost use Rattle.law_given_lists.specs.Done.{MapDid, VisitDid};
ghost use Rattle.law_given_lists.specs.RowCalls.{AllEnd, AllGive, ForAllByRows, ForAllEnds, ForAllGives, ExistsByRows, ExistsEnds, ExistsGives, FoldLeftByRows, FoldLeftEnds, FoldLeftGives, FoldRightByRows, FoldRightEnds, FoldRightGives};
ghost use Rattle.law_given_lists.specs.Rows.{InRows, AllLong, rows_of};

/// Lists of one length form rows, the first of their first elements, and so on; the rows of one list
/// are its elements.
pub fn lists_stand_in_rows()
    ensures all { (cells : List Cell) (n : ℕ) (columns : List (List Value)) (ls : List Value) → AreLists cells columns ls
        → AllLong n columns → InRows cells (rows_of n columns) ls }
    ensures one { (cells : List Cell) (xs : List Value) (l : Value) → IsList cells xs l → InRows cells (map (λ x. x ∷ []) xs) (l ∷ []) }
{}

/// `map` calls its procedure on each row of two lists and more, from the first to the last, and gives the list of the answers; where
/// a call faults, it is the last, and its fault is that of `map` (R6RS 11.9). And whatever it comes to, it has done so.
pub fn map_gives_the_answers()
    ensures gives { (w : PlainSetting) (f l m : Value) (more : List Value) (rows : List (List Value)) (s : WorldState) → HasTexts w
        → InRows s.cells rows (l ∷ m ∷ more) → AllGive w f rows s →
        (v : Value) × (t : WorldState) × Calls w (call_to (built_in names.MAP) (f ∷ l ∷ m ∷ more)) s v t × MapDid w f rows s (Ok v) t }
    ensures ends { (w : PlainSetting) (f l m : Value) (more : List Value) (rows : List (List Value)) (s : WorldState) → HasTexts w
        → InRows s.cells rows (l ∷ m ∷ more) → AllEnd w f rows s →
        (r : CallEnd) × (t : WorldState) × CallEnds w (call_to (built_in names.MAP) (f ∷ l ∷ m ∷ more)) s r t × MapDid w f rows s r t }
    ensures only { (w : PlainSetting) (f l m : Value) (more : List Value) (rows : List (List Value)) (s t : WorldState) (r : CallEnd)
        → HasTexts w → InRows s.cells rows (l ∷ m ∷ more) →
        CallEnds w (call_to (built_in names.MAP) (f ∷ l ∷ m ∷ more)) s r t → MapDid w f rows s r t }
{}

/// `for-each` calls its procedure on each row of two lists and more, from the first to the last, and gives nothing of it; where a
/// call faults, it is the last, and its fault is that of `for-each` (R6RS 11.9). And whatever it comes to, it has done so.
pub fn for_each_calls_in_order()
    ensures gives { (w : PlainSetting) (f l m : Value) (more : List Value) (rows : List (List Value)) (s : WorldState) → HasTexts w
        → InRows s.cells rows (l ∷ m ∷ more) → AllGive w f rows s →
        (v : Value) × (t : WorldState) × Calls w (call_to (built_in names.FOR_EACH) (f ∷ l ∷ m ∷ more)) s v t × VisitDid w f rows s (Ok v) t }
    ensures ends { (w : PlainSetting) (f l m : Value) (more : List Value) (rows : List (List Value)) (s : WorldState) → HasTexts w
        → InRows s.cells rows (l ∷ m ∷ more) → AllEnd w f rows s →
        (r : CallEnd) × (t : WorldState) × CallEnds w (call_to (built_in names.FOR_EACH) (f ∷ l ∷ m ∷ more)) s r t × VisitDid w f rows s r t }
    ensures only { (w : PlainSetting) (f l m : Value) (more : List Value) (rows : List (List Value)) (s t : WorldState) (r : CallEnd)
        → HasTexts w → InRows s.cells rows (l ∷ m ∷ more) →
        CallEnds w (call_to (built_in names.FOR_EACH) (f ∷ l ∷ m ∷ more)) s r t → VisitDid w f rows s r t }
{}

/// `for-all` calls its procedure on each row, until an answer is `#f` or a call faults; it ends as the last call does, with
/// `#f` at an answer `#f` before it, and with `#t` where there is no row (R6RS libraries 3). And whatever it comes to, it has done so.
pub fn for_all_asks_in_order()
    ensures gives { (w : PlainSetting) (f l : Value) (more : List Value) (rows : List (List Value)) (s : WorldState) → HasTexts w
        → InRows s.cells rows (l ∷ more) → ForAllGives w f rows s →
        (v : Value) × (t : WorldState) × Calls w (call_to (built_in names.FOR_ALL) (f ∷ l ∷ more)) s v t × ForAllByRows w f rows s (Ok v) t }
    ensures ends { (w : PlainSetting) (f l : Value) (more : List Value) (rows : List (List Value)) (s : WorldState) → HasTexts w
        → InRows s.cells rows (l ∷ more) → ForAllEnds w f rows s →
        (r : CallEnd) × (t : WorldState) × CallEnds w (call_to (built_in names.FOR_ALL) (f ∷ l ∷ more)) s r t × ForAllByRows w f rows s r t }
    ensures only { (w : PlainSetting) (f l : Value) (more : List Value) (rows : List (List Value)) (s t : WorldState) (r : CallEnd)
        → HasTexts w → InRows s.cells rows (l ∷ more) →
        CallEnds w (call_to (built_in names.FOR_ALL) (f ∷ l ∷ more)) s r t → ForAllByRows w f rows s r t }
{}

/// `exists` calls its procedure on each row, until an answer is not `#f` or a call faults; it gives that answer, ends as the last
/// call does, and gives `#f` where there is no row (R6RS libraries 3). And whatever it comes to, it has done so.
pub fn exists_asks_in_order()
    ensures gives { (w : PlainSetting) (f l : Value) (more : List Value) (rows : List (List Value)) (s : WorldState) → HasTexts w
        → InRows s.cells rows (l ∷ more) → ExistsGives w f rows s →
        (v : Value) × (t : WorldState) × Calls w (call_to (built_in names.EXISTS) (f ∷ l ∷ more)) s v t × ExistsByRows w f rows s (Ok v) t }
    ensures ends { (w : PlainSetting) (f l : Value) (more : List Value) (rows : List (List Value)) (s : WorldState) → HasTexts w
        → InRows s.cells rows (l ∷ more) → ExistsEnds w f rows s →
        (r : CallEnd) × (t : WorldState) × CallEnds w (call_to (built_in names.EXISTS) (f ∷ l ∷ more)) s r t × ExistsByRows w f rows s r t }
    ensures only { (w : PlainSetting) (f l : Value) (more : List Value) (rows : List (List Value)) (s t : WorldState) (r : CallEnd)
        → HasTexts w → InRows s.cells rows (l ∷ more) →
        CallEnds w (call_to (built_in names.EXISTS) (f ∷ l ∷ more)) s r t → ExistsByRows w f rows s r t }
{}

/// `fold-left` calls its procedure on a value and the first row, then on what that gave and the second, and so on, and ends as
/// the last call does (R6RS libraries 3). And whatever it comes to, it has done so.
pub fn fold_left_goes_from_the_left()
    ensures gives { (w : PlainSetting) (f z l : Value) (more : List Value) (rows : List (List Value)) (s : WorldState) → HasTexts w
        → InRows s.cells rows (l ∷ more) → FoldLeftGives w f z rows s →
        (v : Value) × (t : WorldState) × Calls w (call_to (built_in names.FOLD_LEFT) (f ∷ z ∷ l ∷ more)) s v t × FoldLeftByRows w f z rows s (Ok v) t }
    ensures ends { (w : PlainSetting) (f z l : Value) (more : List Value) (rows : List (List Value)) (s : WorldState) → HasTexts w
        → InRows s.cells rows (l ∷ more) → FoldLeftEnds w f z rows s →
        (r : CallEnd) × (t : WorldState) × CallEnds w (call_to (built_in names.FOLD_LEFT) (f ∷ z ∷ l ∷ more)) s r t × FoldLeftByRows w f z rows s r t }
    ensures only { (w : PlainSetting) (f z l : Value) (more : List Value) (rows : List (List Value)) (s t : WorldState) (r : CallEnd)
        → HasTexts w → InRows s.cells rows (l ∷ more) →
        CallEnds w (call_to (built_in names.FOLD_LEFT) (f ∷ z ∷ l ∷ more)) s r t → FoldLeftByRows w f z rows s r t }
{}

/// `fold-right` calls its procedure on the last row and a value, then on the row before and what that gave, and so on to the
/// first, and ends as the last call does (R6RS libraries 3). And whatever it comes to, it has done so.
pub fn fold_right_goes_from_the_right()
    ensures gives { (w : PlainSetting) (f z l : Value) (more : List Value) (rows : List (List Value)) (s : WorldState) → HasTexts w
        → InRows s.cells rows (l ∷ more) → FoldRightGives w f z rows s →
        (v : Value) × (t : WorldState) × Calls w (call_to (built_in names.FOLD_RIGHT) (f ∷ z ∷ l ∷ more)) s v t × FoldRightByRows w f z rows s (Ok v) t }
    ensures ends { (w : PlainSetting) (f z l : Value) (more : List Value) (rows : List (List Value)) (s : WorldState) → HasTexts w
        → InRows s.cells rows (l ∷ more) → FoldRightEnds w f z rows s →
        (r : CallEnd) × (t : WorldState) × CallEnds w (call_to (built_in names.FOLD_RIGHT) (f ∷ z ∷ l ∷ more)) s r t
        × FoldRightByRows w f z rows s r t }
    ensures only { (w : PlainSetting) (f z l : Value) (more : List Value) (rows : List (List Value)) (s t : WorldState) (r : CallEnd)
        → HasTexts w → InRows s.cells rows (l ∷ more) →
        CallEnds w (call_to (built_in names.FOLD_RIGHT) (f ∷ z ∷ l ∷ more)) s r t → FoldRightByRows w f z rows s r t }
{}

/// On one list `for-all` gives `#f` at the first answer that is `#f`, else the last answer, and `#t`
/// for `()`; `exists` gives the first answer that is not `#f`, else the last, and `#f` for `()` (R6RS
/// libraries 3).
pub fn one_list_is_asked_in_order()
    ensures all { (w : PlainSetting) (f l : Value) (xs : List Value) (s : WorldState) → HasTexts w → IsList s.cells xs l
        → given.ForAllGives w f xs s → ForAlls w (call_to (built_in names.FOR_ALL) (f ∷ l ∷ [])) f xs s }
    ensures all_only { (w : PlainSetting) (f l : Value) (xs : List Value) (s t : WorldState) (v : Value) → HasTexts w → IsList s.cells xs l
        → Calls w (call_to (built_in names.FOR_ALL) (f ∷ l ∷ [])) s v t → given.ForAll w f xs s v t }
    ensures exists { (w : PlainSetting) (f l : Value) (xs : List Value) (s : WorldState) → HasTexts w → IsList s.cells xs l
        → given.SearchGives w f xs s → Existences w (call_to (built_in names.EXISTS) (f ∷ l ∷ [])) f xs s }
    ensures exists_only { (w : PlainSetting) (f l : Value) (xs : List Value) (s t : WorldState) (v : Value) → HasTexts w
        → IsList s.cells xs l → Calls w (call_to (built_in names.EXISTS) (f ∷ l ∷ [])) s v t → given.Exists w f xs s v t }
{}

/// On one list `fold-left` calls its procedure on a value and the first element, then on the answer and
/// the second, and so on; `fold-right` on the last element and a value, then on the one before and the
/// answer, and so on; each gives the last answer (R6RS libraries 3).
pub fn one_list_is_folded()
    ensures left { (w : PlainSetting) (f z l : Value) (xs : List Value) (s : WorldState) → HasTexts w → IsList s.cells xs l
        → given.FoldLeftGives w f z xs s → FoldsLeft w (call_to (built_in names.FOLD_LEFT) (f ∷ z ∷ l ∷ [])) f z xs s }
    ensures left_only { (w : PlainSetting) (f z l : Value) (xs : List Value) (s t : WorldState) (v : Value) → HasTexts w
        → IsList s.cells xs l → Calls w (call_to (built_in names.FOLD_LEFT) (f ∷ z ∷ l ∷ [])) s v t → given.FoldLeft w f z xs s v t }
    ensures right { (w : PlainSetting) (f z l : Value) (xs : List Value) (s : WorldState) → HasTexts w → IsList s.cells xs l
        → given.FoldRightGives w f z xs s → FoldsRight w (call_to (built_in names.FOLD_RIGHT) (f ∷ z ∷ l ∷ [])) f z xs s }
    ensures right_only { (w : PlainSetting) (f z l : Value) (xs : List Value) (s t : WorldState) (v : Value) → HasTexts w
        → IsList s.cells xs l → Calls w (call_to (built_in names.FOLD_RIGHT) (f ∷ z ∷ l ∷ [])) s v t → given.FoldRight w f z xs s v t }
{}
