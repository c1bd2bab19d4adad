//! Laws of shapes. The function here computes nothing: what it promises is the law.

ghost use Rattle.law_shapes.specs.Places.{FaultsArePlaced};
ghost use Rattle.law_shapes.specs.Laws.{WrittenHaveShapes, ShapesAreWritten, OneShape, OthersAreBad};

/// A form has just the shape by whose case of the grammar it is written: each that is written has its
/// shape, each shape that is found is written, no form is written in two ways, and all others are at fault.
pub fn shapes_are_the_grammar()
    ensures written { WrittenHaveShapes }
    ensures found { ShapesAreWritten }
    ensures one { OneShape }
    ensures others { OthersAreBad }
{}

/// A fault of a form stands at the form's span, or where the form has none at the place round it.
pub fn faults_are_placed()
    ensures { FaultsArePlaced }
{}
