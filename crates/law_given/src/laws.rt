//! The laws of the procedures that are given in Scheme. The functions here compute nothing: what they promise is the laws.

ghost use Rattle.std.specs.Prelude.{◌≡◌, ◌⊎◌, ℕ, List, [], ◌∷◌, map, None, Some, codes};
ghost use Rattle.base_data.specs.Op.{op_named};
ghost use Rattle.base_data.specs.declared.op.names.TheConstants as names;
ghost use Rattle.core_language.specs.Core.{PlainCode};
ghost use Rattle.eval_code.specs.Codes.{Codes, code_at, with_code};
ghost use Rattle.eval_code.specs.Setting.{PlainSetting};
ghost use Rattle.eval_code.specs.State.{WorldState, done};
ghost use Rattle.law_lists.specs.Runs.{IsList};
ghost use Rattle.eval_value.specs.declared.value.Value.{Value};
ghost use Rattle.eval_value.specs.declared.value.Value.TheVariants as value;
ghost use Rattle.law_given.specs.Calls.{call_to, call_of, Calls};
ghost use Rattle.law_given.specs.Given.{built_in, Maps, MapsBy, Mapped, Visits, Visited, Faults, Filters, Filtered, Finds, FoundGiven, FindsTail, TailFound, SearchFaults};
ghost use Rattle.law_given.specs.InTurn.{AllGive, AllEnd, AllGiveBy, SearchGives, SearchEnds, chosen, others};
ghost use Rattle.law_given.specs.Texts.{HasTexts, Includes, written_table};

/// The procedures of the laws of this crate are those named `map`, `for-each`, `filter`, `remp`,
/// `find`, `memp`, `for-all`, `exists`, `fold-left` and `fold-right`.
pub fn numbers_are_by_name()
    ensures { map op_named (codes "map" ∷ codes "for-each" ∷ codes "filter" ∷ codes "remp" ∷ codes "find" ∷ codes "memp" ∷ codes "for-all"
        ∷ codes "exists" ∷ codes "fold-left" ∷ codes "fold-right" ∷ []) ≡
        Some names.MAP ∷ Some names.FOR_EACH ∷ Some names.FILTER ∷ Some names.REMP ∷ Some names.FIND ∷ Some names.MEMP ∷ Some names.FOR_ALL
        ∷ Some names.EXISTS ∷ Some names.FOLD_LEFT ∷ Some names.FOLD_RIGHT ∷ [] }
{}

/// A call that gives a value with some fuel gives that value and that state with any more.
pub fn some_fuel_is_enough()
    ensures enough { (w : PlainSetting) (f : Value) (args : List Value) (s : WorldState) (n m : ℕ) (v : Value) (t : WorldState)
        → call_of w (call_to f args) s n ≡ done v t m → Calls w (call_to f args) s v t }
    ensures one { (w : PlainSetting) (f : Value) (args : List Value) (s : WorldState) (v x : Value) (t u : WorldState)
        → Calls w (call_to f args) s v t → Calls w (call_to f args) s x u → (v ≡ x) × (t ≡ u) }
{}

/// The codes of the texts in Scheme contain these texts, and codes of other numbers that come after
/// them leave them there.
pub fn texts_stay()
    ensures begin { Includes written_table written_table }
    ensures stay { (cs : Codes) (c : PlainCode) → code_at written_table c.number ≡ None → Includes cs written_table → Includes (with_code c cs) written_table }
{}

/// `map` calls its procedure on each element of a list, from the first to the last, and gives the list
/// of the answers; whenever it gives a value it has done so, and where a call faults, that call is the
/// last and its fault that of `map` (R6RS 11.9).
pub fn map_gives_the_answers()
    ensures answers { (w : PlainSetting) (f l : Value) (xs : List Value) (s : WorldState) → HasTexts w → IsList s.cells xs l
        → AllGive w f xs s → Maps w (call_to (built_in names.MAP) (f ∷ l ∷ [])) f xs s }
    ensures only { (w : PlainSetting) (f l : Value) (xs : List Value) (s t : WorldState) (v : Value) → HasTexts w → IsList s.cells xs l
        → Calls w (call_to (built_in names.MAP) (f ∷ l ∷ [])) s v t → Mapped w f xs s v t }
    ensures said { (w : PlainSetting) (f l : Value) (g : Value → Value) (xs : List Value) (s : WorldState) → HasTexts w
        → IsList s.cells xs l → AllGiveBy w f g xs s →
        MapsBy w (call_to (built_in names.MAP) (f ∷ l ∷ [])) g xs s }
    ensures faults { (w : PlainSetting) (f l : Value) (xs : List Value) (s : WorldState) → HasTexts w → IsList s.cells xs l → AllEnd w f xs s →
        Maps w (call_to (built_in names.MAP) (f ∷ l ∷ [])) f xs s ⊎ Faults w (call_to (built_in names.MAP) (f ∷ l ∷ [])) f xs s }
{}

/// `for-each` calls its procedure on each element of a list, from the first to the last; whenever it
/// gives a value it has done so, and where a call faults, that call is the last and its fault that of
/// `for-each` (R6RS 11.9).
pub fn for_each_calls_in_order()
    ensures calls { (w : PlainSetting) (f l : Value) (xs : List Value) (s : WorldState) → HasTexts w → IsList s.cells xs l → AllGive w f xs s →
        Visits w (call_to (built_in names.FOR_EACH) (f ∷ l ∷ [])) f xs s value.Unspecified }
    ensures only { (w : PlainSetting) (f l : Value) (xs : List Value) (s t : WorldState) (v : Value) → HasTexts w → IsList s.cells xs l
        → Calls w (call_to (built_in names.FOR_EACH) (f ∷ l ∷ [])) s v t → Visited w f xs s v t }
    ensures faults { (w : PlainSetting) (f l : Value) (xs : List Value) (s : WorldState) → HasTexts w → IsList s.cells xs l → AllEnd w f xs s →
        Visits w (call_to (built_in names.FOR_EACH) (f ∷ l ∷ [])) f xs s value.Unspecified ⊎ Faults w (call_to (built_in names.FOR_EACH) (f ∷ l ∷ [])) f xs s }
{}

/// `filter` gives the list of the elements whose answer is not `#f`, `remp` of those whose answer is,
/// in order; each is asked once, from the first on, and where a call faults, that call is the last and
/// its fault is given (R6RS libraries 3).
pub fn filter_keeps_and_remp_leaves_out()
    ensures filter { (w : PlainSetting) (f l : Value) (xs : List Value) (s : WorldState) → HasTexts w → IsList s.cells xs l
        → AllGive w f xs s → Filters w (call_to (built_in names.FILTER) (f ∷ l ∷ [])) f chosen xs s }
    ensures filter_only { (w : PlainSetting) (f l : Value) (xs : List Value) (s t : WorldState) (v : Value) → HasTexts w
        → IsList s.cells xs l → Calls w (call_to (built_in names.FILTER) (f ∷ l ∷ [])) s v t → Filtered w f chosen xs s v t }
    ensures filter_faults { (w : PlainSetting) (f l : Value) (xs : List Value) (s : WorldState) → HasTexts w → IsList s.cells xs l → AllEnd w f xs s →
        Filters w (call_to (built_in names.FILTER) (f ∷ l ∷ [])) f chosen xs s ⊎ Faults w (call_to (built_in names.FILTER) (f ∷ l ∷ [])) f xs s }
    ensures remp { (w : PlainSetting) (f l : Value) (xs : List Value) (s : WorldState) → HasTexts w → IsList s.cells xs l
        → AllGive w f xs s → Filters w (call_to (built_in names.REMP) (f ∷ l ∷ [])) f others xs s }
    ensures remp_only { (w : PlainSetting) (f l : Value) (xs : List Value) (s t : WorldState) (v : Value) → HasTexts w
        → IsList s.cells xs l → Calls w (call_to (built_in names.REMP) (f ∷ l ∷ [])) s v t → Filtered w f others xs s v t }
    ensures remp_faults { (w : PlainSetting) (f l : Value) (xs : List Value) (s : WorldState) → HasTexts w → IsList s.cells xs l → AllEnd w f xs s →
        Filters w (call_to (built_in names.REMP) (f ∷ l ∷ [])) f others xs s ⊎ Faults w (call_to (built_in names.REMP) (f ∷ l ∷ [])) f xs s }
{}

/// `find` gives the first element whose answer is not `#f`, and `memp` what is left of the list from
/// there on; both give `#f` if there is none, ask no later element, and give the fault of a call that
/// faults before (R6RS libraries 3).
pub fn find_and_memp_stop_at_the_first()
    ensures find { (w : PlainSetting) (f l : Value) (xs : List Value) (s : WorldState) → HasTexts w → IsList s.cells xs l
        → SearchGives w f xs s → Finds w (call_to (built_in names.FIND) (f ∷ l ∷ [])) f xs s }
    ensures memp { (w : PlainSetting) (f l : Value) (xs : List Value) (s : WorldState) → HasTexts w → IsList s.cells xs l
        → SearchGives w f xs s → FindsTail w (call_to (built_in names.MEMP) (f ∷ l ∷ [])) f l xs s }
    ensures find_only { (w : PlainSetting) (f l : Value) (xs : List Value) (s t : WorldState) (v : Value) → HasTexts w
        → IsList s.cells xs l → Calls w (call_to (built_in names.FIND) (f ∷ l ∷ [])) s v t → FoundGiven w f xs s v t }
    ensures memp_only { (w : PlainSetting) (f l : Value) (xs : List Value) (s t : WorldState) (v : Value) → HasTexts w
        → IsList s.cells xs l → Calls w (call_to (built_in names.MEMP) (f ∷ l ∷ [])) s v t → TailFound w f l xs s v t }
    ensures find_faults { (w : PlainSetting) (f l : Value) (xs : List Value) (s : WorldState) → HasTexts w → IsList s.cells xs l → SearchEnds w f xs s →
        Finds w (call_to (built_in names.FIND) (f ∷ l ∷ [])) f xs s ⊎ SearchFaults w (call_to (built_in names.FIND) (f ∷ l ∷ [])) f xs s }
    ensures memp_faults { (w : PlainSetting) (f l : Value) (xs : List Value) (s : WorldState) → HasTexts w → IsList s.cells xs l → SearchEnds w f xs s →
        FindsTail w (call_to (built_in names.MEMP) (f ∷ l ∷ [])) f l xs s ⊎ SearchFaults w (call_to (built_in names.MEMP) (f ∷ l ∷ [])) f xs s }
{}
