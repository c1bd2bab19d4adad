//! Generated names stay apart, also when they are read.
//!
//! Core text names the variable `a/b` of a program `%/a~2F~b/0`. Were it `%/a\x2F;b/0`, a reader would
//! take the escape for a slash, and the library `(a)` with a variable `b` might have the same name. So
//! a generated name has no escapes of the reader's, and each character of it stands for itself.
//!
//! The promise: variables of different library, symbol or number have generated names that the reader
//! reads as different symbols. It is a law about the definitions that the writer of names and the
//! reader give, and holds of each of their calls.
//!
//! Here are no calls to make: each function stands for the law that it ensures. The first says that a
//! generated name tells its variable, the second that it is read as the symbol of its own text, and the
//! third joins the two. The last is about the number in a name: it may be of any size, though those that
//! the writer of names is given have 64 bits.
#![tactic(auto)]

ghost use Rattle.law_names.specs.Apart.{NamesTellVariables, NamesAreReadAsThemselves, NamesStayApart};
ghost use Rattle.law_names.specs.Numbers.{NumbersAreInDecimal, NumbersAreTold};

/// Variables with one generated name are of one library, one symbol and one number.
pub fn names_tell_variables()
    ensures { NamesTellVariables }
{}

/// A generated name, as a file, has one datum: the symbol of this very text.
pub fn names_are_read_as_themselves()
    ensures { NamesAreReadAsThemselves }
{}

/// The generated names of different variables are read as different symbols.
pub fn names_stay_apart()
    ensures { NamesStayApart }
{}

/// A number of any size is written in decimal, as Rust writes one of 64 bits, and its digits tell it.
pub fn numbers_are_in_decimal()
    ensures written { NumbersAreInDecimal }
    ensures told { NumbersAreTold }
{}
