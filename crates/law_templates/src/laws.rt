//! The laws of templates. Each function here computes nothing: what it promises is the law.

ghost use Rattle.std.specs.Prelude.{◌≡◌, [], List, map, Some};
ghost use Rattle.base_data.specs.declared.name.Mark.{Mark};
ghost use Rattle.stx_frames.specs.Scope.{Scope};
ghost use Rattle.core_language.specs.Pattern.{PlainPattern};
ghost use Rattle.core_language.specs.Template.{PlainTemplate};
ghost use Rattle.eval_value.specs.Cells.{FitsIn, WholeCells};
ghost use Rattle.eval_value.specs.declared.cell.Cell.{Cell};
ghost use Rattle.eval_value.specs.declared.value.Value.{Value};
ghost use Rattle.eval_pattern.specs.Matched.{matched, nothing};
ghost use Rattle.eval_pattern.specs.declared.columns.PatternBinds.{PatternBinds};
ghost use Rattle.eval_template.specs.Binds.{Binds, Absent};
ghost use Rattle.eval_template.specs.Instance.{instance};
ghost use Rattle.eval_template.specs.Measure.{measure};
ghost use Rattle.law_matches.specs.Renaming.{renamed_value, renamed_row, renamed_cell};
ghost use Rattle.law_templates.specs.Measuring.{Tells};
ghost use Rattle.law_templates.specs.Ready.{Ready};
ghost use Rattle.law_templates.specs.Repeating.{variables, Distinct, IsRepeat, GivesBack};
ghost use Rattle.law_templates.specs.Renaming.{renamed_template, renamed_absent, renamed_made};

/// Where each variable of a template is bound to its depth, what would stand for a missing one doesn't
/// show in the instance.
pub fn no_variable_is_missing()
    ensures { (a b : Absent) (binds : Binds) (t : PlainTemplate) (cells : List Cell) → Ready binds 0 t →
        instance a binds t [] cells ≡ instance b binds t [] cells }
{}

/// To give the marks of binds, template and cells other names gives the instance these names, and
/// changes nothing else.
pub fn names_of_marks_are_free()
    ensures { (r : Mark → Mark) (a : Absent) (binds : Binds) (t : PlainTemplate) (cells : List Cell) →
        instance (renamed_absent r a) (map (renamed_row r) binds) (renamed_template r t) [] (map (renamed_cell r) cells)
        ≡ renamed_made r (renamed_value r) (instance a binds t [] cells) }
{}

/// A template that repeats the pattern of a match gives back what was matched, as data, and is never at
/// fault.
pub fn a_repeated_pattern_gives_back_what_it_took()
    ensures { (a : Absent) (fs : Scope) (cells : List Cell) → WholeCells cells → (p : PlainPattern) (v : Value) → FitsIn cells v → (f : PatternBinds) →
        matched fs cells p v (nothing 0) ≡ Some f → (t : PlainTemplate) → IsRepeat 0 p t → Distinct (variables p) →
        GivesBack fs cells v cells (instance a f.binds t [] cells) }
{}

/// What is measured of an instance before it is made is what its cells cost, or the fault that it has.
pub fn what_is_measured_is_what_it_costs()
    ensures { (a : Absent) (binds : Binds) (t : PlainTemplate) (cells : List Cell) → Tells cells (measure a binds t []) (instance a binds t [] cells) }
{}
