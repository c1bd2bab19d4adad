//! Laws of what was kept. Each function here computes nothing: what it promises is the law.

ghost use Rattle.std.specs.Prelude.{◌≡◌, ◌≢◌, ℕ, Bool, List, [], ◌∷◌, ◌++◌, filter, false, nat_eq, Some};
ghost use Rattle.std.specs.Cmp.Lexicographic.{pointwise};
ghost use Rattle.base_data.specs.declared.name.FrameNo.{FrameNo};
ghost use Rattle.base_data.specs.declared.name.Label.{Label};
ghost use Rattle.stx_tree.specs.Tree.{Tree};
ghost use Rattle.stx_frames.specs.Rows.{Row};
ghost use Rattle.stx_frames.specs.Scope.{Scope, with_row};
ghost use Rattle.stx_scope.specs.Stands.{symbol_of, stands};
ghost use Rattle.expand_heads.specs.declared.taken.KeptHead.{KeptHead};
ghost use Rattle.expand_heads.specs.Kept.{heads_of, kept_all};
ghost use Rattle.expand_heads.specs.Items.{any_changed};
ghost use Rattle.expand_heads.specs.KeptLaws.{with_binder, AreNamed, AreOthers};
ghost use Rattle.expand_standing.specs.State.{State};
ghost use Rattle.core_language.specs.declared.binding.Binding.{Binding};

/// Of the heads that a body keeps, those of a symbol are all that have it, in the order of keeping.
pub fn a_symbol_has_all_its_heads()
    ensures { (x : List ℕ) (ks : List KeptHead) → heads_of x (kept_all [] ks) ≡ filter (λ k. pointwise nat_eq x k.symbol) ks }
{}

/// A binder affects only identifiers of its own symbol.
pub fn a_bind_changes_its_symbol_alone()
    ensures { (fs : Scope) (f : FrameNo) (r : Row) (t : Tree) → pointwise nat_eq (symbol_of t) r.symbol ≡ false → stands (with_row fs f r) t ≡ stands fs t }
{}

/// To ask the heads of a binder's symbol is to ask them all: where none was changed before the binder, it
/// has changed one of its symbol or none. A head is kept with its own symbol, and with a label that was
/// there before the binder's. This holds for heads that stood for keywords, and for all heads.
pub fn no_changed_head_is_lost()
    ensures { (keyword : Bool) (s : State) (f : FrameNo) (r : Row) (b : Binding) (ks : List KeptHead) → AreNamed ks → AreOthers r.label ks →
        any_changed keyword s ks ≡ false → any_changed keyword (with_binder s f r b) (heads_of r.symbol (kept_all [] ks))
        ≡ any_changed keyword (with_binder s f r b) ks }
{}
