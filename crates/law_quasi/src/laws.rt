//! The laws of templates. Each function here computes nothing: what it promises is the law.

ghost use Rattle.std.specs.Prelude.{◌≡◌, ℕ, suc, [], true, Ok};
ghost use Rattle.base_data.specs.declared.span.Span.{Span};
ghost use Rattle.stx_tree.specs.Tree.{Tree, nil};
ghost use Rattle.core_quasi.specs.Words.{WordOf};
ghost use Rattle.core_quasi.specs.Plan.{PlainQuasi, constant};
ghost use Rattle.core_quasi.specs.Quasi.{quasi_at};
ghost use Rattle.core_quasi.specs.QuasiSyntax.{Looked, quasi_syntax};
ghost use Rattle.core_quasi.specs.declared.quasi_syntax.QuasiSyntax.{QuasiSyntax};
ghost use Rattle.core_quasi.specs.declared.word.QuasiWord.TheVariants as word;
ghost use Rattle.law_quasi.specs.Makes.{FilledBy, makes};
ghost use Rattle.law_quasi.specs.Filled.{filled, put, form_of};
ghost use Rattle.law_quasi.specs.Numbered.{IsNumbered};
ghost use Rattle.law_quasi.specs.Quiet.{is_quiet};

/// Whatever the values of the unquoted expressions are, a model of `list`, `cons*`, `append` and
/// `list->vector` makes of the plan of a `quasiquote` template the template with these values in their
/// places.
pub fn a_plan_makes_the_filled_template()
    ensures { (w : WordOf) (f : FilledBy) (t : Tree) (n : ℕ) (q : PlainQuasi) → quasi_at w t n ≡ Ok q → makes f q ≡ filled w f t n }
{}

/// A `quasiquote` template in which nothing is unquoted is a constant: the form itself.
pub fn what_is_not_unquoted_is_a_constant()
    ensures { (w : WordOf) (t : Tree) (n : ℕ) → is_quiet w t ≡ true → quasi_at w t n ≡ Ok (constant t) }
{}

/// A `quasiquote` in a `quasiquote` template stays itself, and what is in it is one level further in
/// (R6RS 11.17).
pub fn quasiquote_raises_the_level()
    ensures { (w : WordOf) (f : FilledBy) (head t : Tree) (n : ℕ) → w head ≡ word.Raise →
        filled w f (form_of head t) n ≡ form_of (filled w f head (suc n)) (filled w f t (suc n)) }
{}

/// In a `quasiquote` template an `unquote` at level 0 gives the value of its operand; further in it
/// stays, and what is in it is one level further out (R6RS 11.17).
pub fn unquote_lowers_the_level()
    ensures reached { (w : WordOf) (f : FilledBy) (head e : Tree) → w head ≡ word.Lower → filled w f (form_of head e) 0 ≡ f e }
    ensures further_in { (w : WordOf) (f : FilledBy) (head t : Tree) (n : ℕ) → w head ≡ word.Lower →
        filled w f (form_of head t) (suc n) ≡ put w f n head (filled w f head n) (put w f n t (filled w f t n) nil) }
{}

/// A template of `quasisyntax` in which nothing is unsyntaxed is the form itself, and has no inserts.
pub fn what_is_not_unsyntaxed_stays()
    ensures { (w : Looked) (t form : Tree) (place : Span) → is_quiet w.words t ≡ true →
        quasi_syntax w t form place ≡ Ok (record { template = t; inserts = [] }) }
{}

/// Each insert of a `quasisyntax` template has an identifier of its own, and these are numbered from 0
/// in their order.
pub fn each_insert_has_a_leaf_of_its_own()
    ensures { (w : Looked) (t form : Tree) (place : Span) (q : QuasiSyntax) → quasi_syntax w t form place ≡ Ok q → IsNumbered 0 q.inserts }
{}
