//! What import sets do, seen as finite maps from names to labels, and which versions they take (R6RS 7.1).
//!
//! `(rename (only (m) a b) (a c))` takes from the names of `(m)` those that are `a` or `b`, and then the
//! label of `a` stands under `c`. The definition goes along lists, in the order of the names; here it is
//! told what these lists are as maps, in which the order doesn't matter.
//!
//! The promise: `only` and `except` select names, `prefix` moves each name, after a `rename` each name of
//! the set stands for its label under its new name, and the names of two sets join to the union of both,
//! refused exactly where a name would stand for two labels. An import set gives each name once. A version
//! reference fits by what its parts fit.
//!
//! Here are no calls to make: each function stands for the laws that it ensures.
#![tactic(auto)]

ghost use Rattle.std.specs.Prelude.{◌≡◌, ◌++◌, ℕ, List, [], None, Ok, Err, if◌then◌else◌};
ghost use Rattle.base_data.specs.declared.fault.Fault.{Fault};
ghost use Rattle.base_data.specs.declared.span.Span.{Span};
ghost use Rattle.law_imports.specs.Algebra.{or_else, IsOnce, Has, Conflicts};
ghost use Rattle.law_imports.specs.Renames.{PrefixMovesEachInPlace, PrefixLeavesNoneWithout, PrefixKeepsNamesOnce, RenameGivesEachOnce, RenameKeepsLabels, RenameKeepsOrder, RenameKeepsLabelsApart, RenameIsOneToOne, ImportsGiveEachOnce};
ghost use Rattle.law_imports.specs.Versions.{VersionsMakeNoReference, AndFitsWhereAllDo, OrFitsWhereOneDoes, NotFitsWhereItsPartDoesNot, ListFitsByPlaces, NumbersMakeNoPart, NumberFitsItself, SignsCompare, AndFitsNumbers, OrFitsNumbers, NotFitsNumbers};
ghost use Rattle.load_import.specs.Names.{Labelled, label_named, only, except, prefixed, renamed, is_among, joined};
ghost use Rattle.load_import.specs.declared.set.NameAt.{NameAt};
ghost use Rattle.load_import.specs.declared.set.Renaming.{Renaming};

/// Of the names of an import set `only` selects those that it lists and `except` the others; `prefix`
/// moves each to its new name, and so does `rename` (R6RS 7.1).
pub fn words_select_and_move()
    ensures only { (ids : List NameAt) (names : Labelled) (n : List ℕ)
        → label_named n (only ids names) ≡ (if is_among ids n then label_named n names else None) }
    ensures except { (ids : List NameAt) (names : Labelled) (n : List ℕ)
        → label_named n (except ids names) ≡ (if is_among ids n then None else label_named n names) }
    ensures prefix { (p : List ℕ) (names : Labelled) (n : List ℕ) → label_named (p ++ n) (prefixed p names) ≡ label_named n names }
    ensures rename { (span : Span) (rs : List Renaming) (names r : Labelled) → joined span [] (renamed rs names) ≡ Ok r → Has r (renamed rs names) }
{}

/// Joined names are the union of two sets, in which no name comes twice and none is lost; joining is
/// refused exactly if a name has another label in each.
pub fn joined_names_are_a_union()
    ensures union { (span : Span) (all more r : Labelled) → joined span all more ≡ Ok r → (n : List ℕ)
        → label_named n r ≡ or_else (label_named n all) (label_named n more) }
    ensures has { (span : Span) (all more r : Labelled) → joined span all more ≡ Ok r → Has r more }
    ensures once { (span : Span) (all more r : Labelled) → IsOnce all → joined span all more ≡ Ok r → IsOnce r }
    ensures conflict { (span : Span) (all more : Labelled) (f : Fault) → joined span all more ≡ Err f → Conflicts span all more f }
{}

/// After a `prefix` each name of an import set has it, in its place and with its label.
pub fn prefixes_move_each_name()
    ensures in_place { PrefixMovesEachInPlace }
    ensures none_without { PrefixLeavesNoneWithout }
    ensures once { PrefixKeepsNamesOnce }
{}

/// A `rename` keeps labels and order, and two names become one only if they have one label.
pub fn renames_keep_names_apart()
    ensures once { RenameGivesEachOnce }
    ensures labels { RenameKeepsLabels }
    ensures order { RenameKeepsOrder }
    ensures apart { RenameKeepsLabelsApart }
    ensures one_to_one { RenameIsOneToOne }
{}

/// An import set gives each name once.
pub fn imports_give_each_name_once()
    ensures { ImportsGiveEachOnce }
{}

/// A version reference fits by its parts: `and` if each fits, `or` if one does, `not` if its part
/// doesn't, and a list if each part fits the number at its place (R6RS 7.1).
pub fn versions_fit_by_parts()
    ensures any_version { VersionsMakeNoReference }
    ensures all { AndFitsWhereAllDo }
    ensures one { OrFitsWhereOneDoes }
    ensures none { NotFitsWhereItsPartDoesNot }
    ensures places { ListFitsByPlaces }
{}

/// A reference to one number of a version fits by its parts: a number fits itself, `(>= n)` fits what
/// isn't less, `(<= n)` what isn't more, and `and`, `or` and `not` go by their parts (R6RS 7.1).
pub fn numbers_fit_by_parts()
    ensures any_number { NumbersMakeNoPart }
    ensures itself { NumberFitsItself }
    ensures compared { SignsCompare }
    ensures all { AndFitsNumbers }
    ensures one { OrFitsNumbers }
    ensures none { NotFitsNumbers }
{}
