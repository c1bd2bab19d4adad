//! The laws of the primitives. The functions here compute nothing: what they promise is the laws.

ghost use Rattle.std.specs.Prelude.{◌≡◌, ◌≢◌, ◌≤◌, ◌+◌, ◌-◌, ℕ, pos, Bool, true, false, List, [], ◌∷◌, ◌++◌, map, length, reverse, take, drop, slice_get, Option, Some, Ok, codes, encode_utf8_all};
ghost use Rattle.std.specs.Str.{all_scalars};
ghost use Rattle.base_data.specs.Datum.{PlainDatum};
ghost use Rattle.base_data.specs.Named.{Named};
ghost use Rattle.base_data.specs.Op.{op_named};
ghost use Rattle.base_data.specs.declared.atom.Atom.TheVariants as a;
ghost use Rattle.base_data.specs.declared.span.Span.{Span};
ghost use Rattle.base_data.specs.declared.op.names.TheConstants as names;
ghost use Rattle.stx_scope.specs.Same.{same_binder};
ghost use Rattle.stx_tree.specs.Leaves.{datum_like};
ghost use Rattle.stx_tree.specs.Tree.{Tree, spanned};
ghost use Rattle.stx_tree.specs.Tree as tree;
ghost use Rattle.eval_value.specs.Cells.{FitsIn, WholeCells};
ghost use Rattle.eval_value.specs.declared.cell.Cell.{Cell};
ghost use Rattle.eval_value.specs.declared.value.Value.{Value};
ghost use Rattle.eval_value.specs.declared.value.Value.TheVariants as value;
ghost use Rattle.eval_prims.specs.Answers.{said};
ghost use Rattle.eval_prims.specs.Chains.{pair_of, list_elements};
ghost use Rattle.eval_prims.specs.Data.{datum_answer, syntax_answer};
ghost use Rattle.eval_prims.specs.Equality.{equal};
ghost use Rattle.eval_prims.specs.Identity.{same};
ghost use Rattle.eval_prims.specs.Lists.{nil, list_made, appended_made, indexed_made};
ghost use Rattle.eval_prims.specs.Perform.{performed, temporaries, name_after};
ghost use Rattle.eval_prims.specs.Strings.{natural, char_value, part_made, string_made, unpacked_made};
ghost use Rattle.eval_prims.specs.Syntax.{identifier, temporaries_made};
ghost use Rattle.eval_prims.specs.declared.made.PrimResult.TheVariants as made;
ghost use Rattle.law_lists.specs.Data.{IsDatumValue};
ghost use Rattle.law_lists.specs.Equals.{IsEquality, is_syntax_object};
ghost use Rattle.law_lists.specs.Older.{IsOlder};
ghost use Rattle.law_lists.specs.Runs.{Runs, IsList, AreLists, joined};
ghost use Rattle.law_lists.specs.Texts.{IsString, AreStrings, all_chars};

/// The primitives of the laws of this crate are those named `list?`, `length`, `reverse`, `list-tail`,
/// `list-ref`, `string-length`, `string-ref`, `string-append`, `substring` and `string->list`.
pub fn numbers_are_by_name()
    ensures lists { map op_named (codes "list?" ∷ codes "length" ∷ codes "reverse" ∷ codes "list-tail" ∷ codes "list-ref" ∷ [])
        ≡ Some names.IS_LIST ∷ Some names.LENGTH ∷ Some names.REVERSE ∷ Some names.LIST_TAIL ∷ Some names.LIST_REF ∷ [] }
    ensures strings { map op_named (codes "string-length" ∷ codes "string-ref" ∷ codes "string-append" ∷ codes "substring" ∷ codes "string->list" ∷ []) ≡
        Some names.STRING_LENGTH ∷ Some names.STRING_REF ∷ Some names.STRING_APPEND ∷ Some names.SUBSTRING ∷ Some names.STRING_TO_LIST ∷ [] }
{}

/// `equal?` is the recursion of R6RS 11.5, however deep values are: it compares pairs by what `equal?` says of
/// their parts, vectors by what it says of their elements, strings by their characters, and all else as `eqv?`
/// does. And it is the only one: whatever does so says the same of all values.
pub fn equal_looks_into_parts()
    ensures is { (cells : List Cell) → WholeCells cells → IsEquality cells (equal cells) }
    ensures only { (cells : List Cell) (other : Value → Value → Bool) (x y : Value) → WholeCells cells → IsEquality cells other
        → FitsIn cells x → FitsIn cells y →
        other x y ≡ equal cells x y }
{}

/// `eqv?` is true of a value and itself, and of no two that differ (R6RS 11.5); but a syntax object is the same
/// as nothing, not even as itself.
pub fn eqv_tells_values_apart()
    ensures apart { (x y : Value) → same x y ≡ true → x ≡ y }
    ensures itself { (x : Value) → is_syntax_object x ≡ false → same x x ≡ true }
    ensures syntax { (x y : Value) → is_syntax_object x ≡ true → same x y ≡ false }
{}

/// A list is the empty list, or a pair whose cdr is a list (R6RS 11.9): `list?` is true of these and of nothing
/// else, `length` counts the elements, and `reverse` makes a list of them from the last to the first.
pub fn lists_are_by_their_elements()
    ensures elements { (cells : List Cell) (xs : List Value) (x : Value) → WholeCells cells → IsList cells xs x → list_elements cells x ≡ Some xs }
    ensures only { (cells : List Cell) (xs : List Value) (x : Value) → list_elements cells x ≡ Some xs → IsList cells xs x }
    ensures is_list { (cells : List Cell) (xs : List Value) (x : Value) → WholeCells cells → IsList cells xs x
        → list_made names.IS_LIST (x ∷ []) cells ≡ said true }
    ensures no_other { (cells : List Cell) (x : Value) → list_made names.IS_LIST (x ∷ []) cells ≡ said true → (xs : List Value) × IsList cells xs x }
    ensures length { (cells : List Cell) (xs : List Value) (x : Value) → WholeCells cells → IsList cells xs x
        → list_made names.LENGTH (x ∷ []) cells ≡ natural (length xs) }
    ensures reverse { (cells : List Cell) (xs : List Value) (x : Value) → WholeCells cells → IsList cells xs x
        → list_made names.REVERSE (x ∷ []) cells ≡ Some (made.List (reverse xs) nil) }
{}

/// To make a list of elements before a rest makes new pairs with these cars, one behind another, and then this
/// rest; what was a list before is one still.
pub fn what_is_made_is_a_list()
    ensures runs { (xs : List Value) (rest : Value) (name : Named) (cells : List Cell)
        → Runs (performed (made.List xs rest) name cells).1 xs rest (performed (made.List xs rest) name cells).0 }
    ensures still { (xs ys : List Value) (rest end y : Value) (name : Named) (cells : List Cell) → Runs cells ys end y
        → Runs (performed (made.List xs rest) name cells).1 ys end y }
{}

/// `append` makes new pairs of the elements of all its arguments but the last, one list after another, and the
/// last argument, which may be anything, is what comes behind them (R6RS 11.9). Of nothing it makes `()`.
pub fn append_joins_lists()
    ensures lists { (cells : List Cell) (xss : List (List Value)) (args : List Value) (last : Value) → WholeCells cells → AreLists cells xss args →
        appended_made (args ++ last ∷ []) cells ≡ Some (made.List (joined xss) last) }
    ensures nothing { (cells : List Cell) → appended_made [] cells ≡ Some (made.List [] nil) }
{}

/// `list-tail` of `k` is what comes behind `k` pairs, and `list-ref` of `k` the car of that (R6RS 11.9).
pub fn list_tail_leaves_the_rest()
    ensures tail { (cells : List Cell) (xs : List Value) (rest x : Value) → WholeCells cells → Runs cells xs rest x →
        indexed_made names.LIST_TAIL (x ∷ value.Atom (a.Int (pos (length xs))) ∷ []) cells ≡ Some (made.Value rest) }
    ensures element { (cells : List Cell) (xs : List Value) (rest x y d : Value) → WholeCells cells → Runs cells xs rest x → pair_of cells rest ≡ Some (y, d) →
        indexed_made names.LIST_REF (x ∷ value.Atom (a.Int (pos (length xs))) ∷ []) cells ≡ Some (made.Value y) }
{}

/// A string is its characters (R6RS 11.12): `string-length` counts them, `string-ref` is the one at a place,
/// `string-append` is those of all strings, one string after another, `substring` those from a place to before
/// another, and `string->list` the list of them. A string that is made of characters has just these.
pub fn strings_are_by_their_characters()
    ensures length { (cells : List Cell) (cs : List ℕ) (x : Value) → IsString cells cs x → part_made names.STRING_LENGTH (x ∷ []) cells ≡ natural (length cs) }
    ensures character { (cells : List Cell) (cs : List ℕ) (x : Value) (k c : ℕ) → IsString cells cs x → slice_get cs k ≡ Some c →
        part_made names.STRING_REF (x ∷ value.Atom (a.Int (pos k)) ∷ []) cells ≡ Some (made.Value (char_value c)) }
    ensures append { (cells : List Cell) (css : List (List ℕ)) (args : List Value) → AreStrings cells css args →
        string_made names.STRING_APPEND args cells ≡ Some (made.Text (encode_utf8_all (all_chars css))) }
    ensures substring { (cells : List Cell) (cs : List ℕ) (x : Value) (start end : ℕ) → IsString cells cs x → start ≤ end → end ≤ length cs →
        string_made names.SUBSTRING (x ∷ value.Atom (a.Int (pos start)) ∷ value.Atom (a.Int (pos end)) ∷ []) cells
        ≡ Some (made.Text (encode_utf8_all (take (end - start) (drop start cs)))) }
    ensures listed { (cells : List Cell) (cs : List ℕ) (x : Value) → IsString cells cs x
        → unpacked_made names.STRING_TO_LIST (x ∷ []) cells ≡ Some (made.List (map char_value cs) nil) }
    ensures stored { (cells : List Cell) (cs : List ℕ) (name : Named) → all_scalars cs ≡ true →
        IsString (performed (made.Text (encode_utf8_all cs)) name cells).1 cs (performed (made.Text (encode_utf8_all cs)) name cells).0 }
{}

/// `generate-temporaries` makes a list of as many identifiers as its argument has elements, be it a list or a
/// syntax object that is one. No two have one binder, nor has one the binder of an older leaf: a leaf whose
/// marks were all taken before. Each is older than those that are made later (R6RS libraries 12.7).
pub fn temporaries_are_new()
    ensures list { (cells : List Cell) (xs : List Value) (x : Value) → WholeCells cells → IsList cells xs x
        → temporaries_made (x ∷ []) cells ≡ Some (made.Temporaries (length xs)) }
    ensures syntax { (cells : List Cell) (s : Option Span) (ts : List Tree)
        → temporaries_made (value.Syn (spanned s (tree.chain ts tree.nil)) ∷ []) cells ≡ Some (made.Temporaries (length ts)) }
    ensures made { (n : ℕ) (name : Named) (cells : List Cell)
        → IsList (performed (made.Temporaries n) name cells).1 (temporaries n name) (performed (made.Temporaries n) name cells).0 }
    ensures count { (n : ℕ) (name : Named) → length (temporaries n name) ≡ n }
    ensures apart { (n : ℕ) (name : Named) (i j : ℕ) (t u : Tree) → slice_get (temporaries n name) i ≡ Some (value.Syn t)
        → slice_get (temporaries n name) j ≡ Some (value.Syn u) →
        i ≢ j → same_binder t u ≡ false }
    ensures older { (n : ℕ) (name : Named) (i : ℕ) (t u : Tree) → slice_get (temporaries n name) i ≡ Some (value.Syn t) → IsOlder name u
        → same_binder t u ≡ false }
    ensures later { (n : ℕ) (name : Named) (i : ℕ) (t : Tree) → slice_get (temporaries n name) i ≡ Some (value.Syn t) → IsOlder (name_after n name) t }
{}

/// What `datum->syntax` makes of a datum is the tree of that datum, each symbol with the marks and stamps of the
/// identifier; and what `syntax->datum` gives back is the datum, `equal?` to the one that it was made of (R6RS
/// libraries 12.6).
pub fn a_datum_comes_back_from_syntax()
    ensures tree { (op : ℕ) (cells : List Cell) (k x : Value) (id t : Tree) (d : PlainDatum) → IsDatumValue cells d x → identifier k ≡ Some id →
        syntax_answer op (k ∷ x ∷ []) cells ≡ Ok (made.Value (value.Syn t)) → t ≡ datum_like id d }
    ensures taken { (op : ℕ) (cells : List Cell) (t : Tree) → datum_answer op (value.Syn t ∷ []) cells ≡ Ok (made.Datum (value.Syn t)) }
    ensures back { (op : ℕ) (name : Named) (cells : List Cell) (k x : Value) (id t : Tree) (d : PlainDatum) → IsDatumValue cells d x → identifier k ≡ Some id →
        syntax_answer op (k ∷ x ∷ []) cells ≡ Ok (made.Value (value.Syn t)) →
        IsDatumValue (performed (made.Datum (value.Syn t)) name cells).1 d (performed (made.Datum (value.Syn t)) name cells).0 }
    ensures equal { (op : ℕ) (name : Named) (cells : List Cell) (k x : Value) (id t : Tree) (d : PlainDatum) → IsDatumValue cells d x → identifier k ≡ Some id →
        syntax_answer op (k ∷ x ∷ []) cells ≡ Ok (made.Value (value.Syn t)) →
        equal (performed (made.Datum (value.Syn t)) name cells).1 x (performed (made.Datum (value.Syn t)) name cells).0 ≡ true }
{}
