//! Laws of the libraries. Each function here computes nothing: what it promises is the law.

ghost use Rattle.std.specs.Prelude.{◌≡◌, ℕ, true, false};
ghost use Rattle.load_builtin.specs.declared.library.Library.{Library as AnyLibrary};
ghost use Rattle.load_builtin.specs.declared.library.Library.TheVariants.{Rnrs};
ghost use Rattle.load_builtin.specs.Libraries.{library_numbers, among, once, is_on_records};

/// A given library exports no name twice.
pub fn each_name_stands_once()
    ensures { (library : AnyLibrary) → once (library_numbers library) ≡ true }
{}

/// Each name that a given library exports is exported by `(rnrs)` too, with the same label, unless the
/// library is one of the two on records.
pub fn rnrs_has_the_others_names()
    ensures { (library : AnyLibrary) (n : ℕ) → is_on_records library ≡ false → among n (library_numbers library) ≡ true
        → among n (library_numbers Rnrs) ≡ true }
{}
