//! Laws of shapes. Each function here computes nothing: what it promises is the law.

ghost use Rattle.std.specs.Prelude.{◌≡◌, Ok};
ghost use Rattle.base_data.specs.declared.span.Span.{Span};
ghost use Rattle.stx_tree.specs.Tree.{Tree, unspanned};
ghost use Rattle.core_language.specs.declared.core_form.CoreForm.{CoreForm};
ghost use Rattle.core_shapes.specs.declared.shape.Shape.{Shape};
ghost use Rattle.core_shapes.specs.Forms.{shape};
ghost use Rattle.core_shapes.specs.Written.{head_of, form_written};

/// The parts of a core form, written as R6RS's grammar writes them after the keyword, are the form
/// itself but for spans: nothing is lost, and each part has its own place.
pub fn parts_are_the_form()
    ensures { (f : CoreForm) (t : Tree) (place : Span) (s : Shape) → shape f t place ≡ Ok s → unspanned (form_written (head_of t) s) ≡ unspanned t }
{}
