//! Laws of trees. Each function here computes nothing: what it promises is the law.

ghost use Rattle.std.specs.Prelude.{◌≡◌, ◌+◌, ◌∷◌, ◌++◌, [], List, Option, None, Some, map, sum_by, false};
ghost use Rattle.base_data.specs.declared.name.Mark.{Mark};
ghost use Rattle.base_data.specs.declared.name.FrameNo.{FrameNo};
ghost use Rattle.base_data.specs.declared.span.Span.{Span};
ghost use Rattle.base_data.specs.Datum.{PlainDatum};
ghost use Rattle.stx_tree.specs.Context.{LeafContext, acts};
ghost use Rattle.stx_tree.specs.Tree.{Tree, nil, chain, spanned, vector, is_pair};
ghost use Rattle.stx_tree.specs.Measures.{size, height, tail_part, greatest};
ghost use Rattle.stx_tree.specs.Changes.{changed, enter, leave, stamp};
ghost use Rattle.stx_tree.specs.Leaves.{tree_of, strip, contexts};
ghost use Rattle.stx_tree.specs.Renaming.{IsOneToOne, renamed, renamed_change};
ghost use Rattle.stx_tree.specs.declared.change.Change.{Change};

/// To leave a tree with a mark right after entering it with the same mark gives the tree itself,
/// whatever frame is given.
pub fn leave_takes_enter_back()
    ensures { (m : Mark) (f : Option FrameNo) (t : Tree) → leave m f (enter m t) ≡ t }
{}

/// To make some changes of a tree and then others is to make all of them in a row.
pub fn changes_compose()
    ensures { (xs ys : List Change) (t : Tree) → changed (xs ++ ys) t ≡ changed ys (changed xs t) }
{}

/// The size of a list or vector is 1 more than the sizes of its parts together, a last cdr that isn't
/// `()` included.
pub fn sizes_are_those_of_lists()
    ensures list { (s : Option Span) (x : Tree) (xs : List Tree) (t : Tree) → is_pair t ≡ false →
        size (spanned s (chain (x ∷ xs) t)) ≡ 1 + sum_by size ((x ∷ xs) ++ tail_part t) }
    ensures vector { (s : Option Span) (xs : List Tree) → size (vector s (chain xs nil)) ≡ 1 + sum_by size xs }
{}

/// The height of a list or vector is 1 more than the greatest height of its parts.
pub fn heights_are_those_of_lists()
    ensures list { (s : Option Span) (x : Tree) (xs : List Tree) (t : Tree) → is_pair t ≡ false →
        height (spanned s (chain (x ∷ xs) t)) ≡ 1 + greatest (map height ((x ∷ xs) ++ tail_part t)) }
    ensures vector { (s : Option Span) (xs : List Tree) →
        height (vector s (chain xs nil)) ≡ 1 + greatest (map height xs) }
{}

/// Marks and stamps change neither the size nor the height of a tree.
pub fn changes_keep_measures()
    ensures size { (xs : List Change) (t : Tree) → size (changed xs t) ≡ size t }
    ensures height { (xs : List Change) (t : Tree) → height (changed xs t) ≡ height t }
{}

/// Changes act on every leaf of a tree alike, and on nothing else: the contexts of the leaves change
/// one by one, and the tree without marks and stamps is as before.
pub fn changes_act_on_every_leaf()
    ensures leaves { (xs : List Change) (t : Tree) → contexts (changed xs t) ≡ map (acts xs) (contexts t) }
    ensures rest { (xs : List Change) (t : Tree) → strip (changed xs t) ≡ strip t }
{}

/// To make a tree of a datum, with any context for its leaves, and to strip it gives the datum back.
pub fn strip_gives_the_datum_back()
    ensures { (c : LeafContext) (d : PlainDatum) → strip (tree_of c d) ≡ d }
{}

/// To give the marks of a tree other names, one to one, before some changes or after them gives the
/// same tree.
pub fn names_of_marks_are_free()
    ensures changes { (r : Mark → Mark) → IsOneToOne r → (xs : List Change) (t : Tree) →
        renamed r (changed xs t) ≡ changed (map (renamed_change r) xs) (renamed r t) }
    ensures enter { (r : Mark → Mark) → IsOneToOne r → (m : Mark) (t : Tree) → renamed r (enter m t) ≡ enter (r m) (renamed r t) }
    ensures leave { (r : Mark → Mark) → IsOneToOne r → (m : Mark) (f : Option FrameNo) (t : Tree) →
        renamed r (leave m f t) ≡ leave (r m) f (renamed r t) }
    ensures stamp { (r : Mark → Mark) → IsOneToOne r → (f : FrameNo) (t : Tree) → renamed r (stamp f t) ≡ stamp f (renamed r t) }
{}
