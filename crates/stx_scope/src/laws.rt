//! Laws of leaves in frames. Each function here computes nothing: what it promises is the law.

ghost use Rattle.std.specs.Cmp.{IsEquivalence};
ghost use Rattle.std.specs.Prelude.{◌≡◌, ◌↔◌, IsTrue, Some};
ghost use Rattle.base_data.specs.declared.name.FrameNo.{FrameNo};
ghost use Rattle.base_data.specs.declared.name.Label.{Label};
ghost use Rattle.base_data.specs.declared.name.Mark.{Mark};
ghost use Rattle.stx_tree.specs.Leaves.{marks_of, stamps_of};
ghost use Rattle.stx_tree.specs.Renaming.{IsOneToOne, renamed};
ghost use Rattle.stx_tree.specs.Tree.{Tree};
ghost use Rattle.stx_frames.specs.Avoids.{Avoids};
ghost use Rattle.stx_frames.specs.Renaming.{renamed_scope};
ghost use Rattle.stx_frames.specs.Rows.{Row};
ghost use Rattle.stx_frames.specs.Scope.{Scope, label_at, with_row};
ghost use Rattle.stx_scope.specs.Same.{same_binder, meaning, same_binding};
ghost use Rattle.stx_scope.specs.Stands.{symbol_of, stands, is_for};

/// Whether an identifier stands for a given label is answered yes exactly if that is the label that it
/// stands for.
pub fn one_label_is_the_answer()
    ensures { (fs : Scope) (t : Tree) (l : Label) → IsTrue (is_for l (stands fs t)) ↔ (stands fs t ≡ Some l) }
{}

/// `free-identifier=?` holds exactly of identifiers that mean the same: one label, or no label and one
/// symbol. So it is an equivalence.
pub fn one_binding_is_one_meaning()
    ensures meaning { (fs : Scope) (a b : Tree) → IsTrue (same_binding fs a b) ↔ (meaning fs a ≡ meaning fs b) }
    ensures equivalence { (fs : Scope) → IsEquivalence (same_binding fs) }
{}

/// Identifiers that are `bound-identifier=?` have one label in every frame. With the same stamps they are
/// `free-identifier=?`, too.
pub fn one_binder_is_one_row()
    ensures rows { (fs : Scope) (f : FrameNo) (a b : Tree) → IsTrue (same_binder a b) →
        label_at fs f (symbol_of a) (marks_of a) ≡ label_at fs f (symbol_of b) (marks_of b) }
    ensures binding { (fs : Scope) (a b : Tree) → IsTrue (same_binder a b) → stamps_of a ≡ stamps_of b → IsTrue (same_binding fs a b) }
    ensures equivalence { IsEquivalence same_binder }
{}

/// A bind affects only identifiers stamped with its frame.
pub fn a_bind_stays_in_its_frame()
    ensures { (fs : Scope) (f : FrameNo) (r : Row) (t : Tree) → Avoids f (stamps_of t) → stands (with_row fs f r) t ≡ stands fs t }
{}

/// To give the marks of identifiers and frames other names, one to one, changes nothing of what the
/// identifiers stand for and of which are the same.
pub fn names_of_marks_are_free()
    ensures stands { (r : Mark → Mark) → IsOneToOne r → (fs : Scope) (t : Tree) → stands (renamed_scope r fs) (renamed r t) ≡ stands fs t }
    ensures binding { (r : Mark → Mark) → IsOneToOne r → (fs : Scope) (a b : Tree) →
        same_binding (renamed_scope r fs) (renamed r a) (renamed r b) ≡ same_binding fs a b }
    ensures binder { (r : Mark → Mark) → IsOneToOne r → (a b : Tree) → same_binder (renamed r a) (renamed r b) ≡ same_binder a b }
{}
