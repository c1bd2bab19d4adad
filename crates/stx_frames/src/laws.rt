//! Laws of frames. Each function here computes nothing: what it promises is the law.

ghost use Rattle.std.specs.Prelude.{◌≡◌, ◌≢◌, ℕ, true, List, [], ◌∷◌, ◌++◌, map, filter};
ghost use Rattle.base_data.specs.declared.name.FrameNo.{FrameNo};
ghost use Rattle.stx_tree.specs.declared.frame_row.FrameRow.{FrameRow};
ghost use Rattle.base_data.specs.declared.library.LibName.{LibName};
ghost use Rattle.stx_frames.specs.Given.{are_apart};
ghost use Rattle.stx_frames.specs.Listed.{rows_from, rows_in, AreOrdered};
ghost use Rattle.stx_frames.specs.Rows.{Row};
ghost use Rattle.stx_frames.specs.Scope.{Scope, same_frame, rows_at, with_row, row_in, adopted};

/// To bind adds the row at the end of its frame, and changes no other frame.
pub fn a_bind_is_a_row_more()
    ensures own { (fs : Scope) (f : FrameNo) (r : Row) → rows_at f (with_row fs f r) ≡ rows_at f fs ++ r ∷ [] }
    ensures others { (fs : Scope) (f g : FrameNo) (r : Row) → g ≢ f → rows_at g (with_row fs f r) ≡ rows_at g fs }
{}

/// To adopt rows adds to each frame the rows that name it, in their order.
pub fn adopted_rows_keep_their_order()
    ensures { (fs : Scope) (f : FrameNo) (rs : List FrameRow) →
        rows_at f (adopted fs rs) ≡ rows_at f fs ++ map row_in (filter (λ r. same_frame f r.frame) rs) }
{}

/// To put in the frames of a library, none of which is there, is to adopt its rows one after another.
pub fn given_frames_are_adopted()
    ensures { (fs : Scope) (rs : List FrameRow) → are_apart (adopted [] rs) fs ≡ true → fs ++ adopted [] rs ≡ adopted fs rs }
{}

/// The rows of a library are those of its frames, frame after frame, each frame's in the order of
/// binding, and no others.
pub fn rows_are_ordered_and_complete()
    ensures own { (fs : Scope) (f : FrameNo) → filter (λ r. same_frame f r.frame) (rows_in f.0.library fs) ≡ rows_from f (rows_at f fs) }
    ensures ordered { (l : LibName) (fs : Scope) → AreOrdered l 0 (rows_in l fs) }
{}
