//! Laws of record types. Each function here computes nothing: what it promises is the law.

ghost use Rattle.std.specs.Prelude.{◌≡◌, ◌∷◌, [], ℕ, List, Option, Ok};
ghost use Rattle.base_data.specs.declared.name.FrameNo.{FrameNo as AnyFrame};
ghost use Rattle.base_data.specs.declared.name.Mark.{Mark as AnyMark};
ghost use Rattle.stx_tree.specs.Changes.{leave};
ghost use Rattle.stx_tree.specs.Leaves.{marks_of};
ghost use Rattle.stx_tree.specs.Tree.{Tree as AnyTree};
ghost use Rattle.core_records.specs.Binders.{binders, type_names};
ghost use Rattle.core_records.specs.Definitions.{rtd, rcd, definitions};
ghost use Rattle.core_records.specs.declared.clause.Clauses.{Clauses as AnyClauses};
ghost use Rattle.core_records.specs.declared.names.RecordNames.{RecordNames as AnyNames};

/// The definitions that a record type expands to bind the two descriptors, the record type, its
/// constructor and predicate, and for each field its accessor and its mutator, in this order, and
/// nothing else.
pub fn a_record_type_binds_its_names()
    ensures { (own : List ℕ) (names : AnyNames) (cs : AnyClauses) (t : AnyTree) → definitions own names cs ≡ Ok t
        → binders t ≡ rtd ∷ (rcd ∷ type_names names cs) }
{}

/// The identifiers of the two descriptors that a record type introduces have the mark of the use alone.
pub fn descriptors_have_the_mark_of_the_use()
    ensures type_descriptor { (m : AnyMark) (frame : Option AnyFrame) → marks_of (leave m frame rtd) ≡ m ∷ [] }
    ensures constructor_descriptor { (m : AnyMark) (frame : Option AnyFrame) → marks_of (leave m frame rcd) ≡ m ∷ [] }
{}
