//! Bytes, and whether they are the spelling of a part of a record.
//!
//! A row begins with `ok` where they are and with `no` where they aren't; behind `;` stands what they are.

/// Core code, as a record's only run line.
pub const CORE: &str = "ok 0 0 0 0 ; '()
ok 0 0 0 1 1 ; '#t
no 0 0 0 1 2 ; a boolean that is neither
ok 0 0 0 2 n18446744073709551615 n18446744073709551615 ; '-1
ok 0 0 0 3 :1.5 ; a number that is spelt
ok 0 0 0 4 w955 ; '#\\λ
no 0 0 0 4 w55296 ; a surrogate as a character
no 0 0 0 4 w1114112 ; a number past those of characters
ok 0 0 0 5 :λ ; a string
no 0 0 0 5 n1 255 ; a string that isn't UTF-8
ok 0 0 0 6 n2 255 0 ; '#vu8(255 0)
no 0 0 0 6 n18446744073709551615 255 ; more bytes than there are
no 0 0 0 7 ; no such atom
ok 0 1 :f w4 w11 1 :a ; 'a, with its span
ok 0 0 2 n1 0 1 :a 0 0 0 ; '(a)
ok 0 0 2 n2 0 1 :a 0 1 :b 0 1 :c ; '(a b . c)
no 0 0 2 n0 0 1 :a ; a list without elements
no 0 0 2 n1 0 1 :a 0 2 n1 0 1 :b 0 0 0 ; a tail that is a list
no 0 0 2 n1 0 1 :a 1 :f w4 w6 0 0 ; a tail () with a span
ok 0 0 2 n1 0 1 :a 1 :f w4 w6 1 :b ; a tail with a span
no 0 0 2 n18446744073709551615 0 1 :a 0 0 0 ; more elements than there are
ok 0 0 3 n2 0 1 :a 0 0 0 ; '#(a ())
ok 0 0 3 n0 ; '#()
no 0 0 4 ; no such datum
ok 1 x1 ; a variable
ok 1 4 n2 :a :b n7 ; a variable of (a b)
no 1 5 n7 ; no such library
ok 2 h300 ; the last primitive
no 2 h301 ; one past it
ok 3 1 x1 1 x2 0 ; an if without an alternative
ok 3 1 x1 1 x2 1 1 x3 ; an if with one
no 3 1 x1 1 x2 2 ; neither with nor without
ok 4 x1 2 h0 ; an assignment
no 5 n0 ; a begin without parts
no 5 n1 1 x1 ; a begin of one part
ok 5 n2 1 x1 1 x2 ; a begin of two
ok 6 x1 n1 n1 x2 0 1 x2 1 ; a lambda
ok 6 x1 n1 n0 1 x2 1 x2 1 ; a lambda whose parameter takes a list
no 6 x1 n0 1 ; a lambda without a case
no 6 x1 n2 n0 0 1 x2 n0 0 1 x3 1 ; a lambda with two cases
ok 6 x1 n0 0 ; a case-lambda without cases
ok 6 x1 n2 n0 0 1 x2 n0 0 1 x3 0 ; a case-lambda
ok 7 0 n1 x1 1 x1 1 x1 ; a letrec
ok 7 1 n0 1 x1 ; a letrec*
no 7 2 n0 1 x1 ; neither
ok 8 2 h0 n2 1 x1 1 x2 ; a call
ok 8 2 h0 n0 ; a call without operands
ok 9 0 x1 w2 :f w0 w9 ; a syntax of a variable of depth 2
ok 10 1 x1 n0 :f w0 w9 ; a syntax-case without clauses
ok 10 1 x1 n1 0 1 1 x2 1 x3 :f w0 w9 ; a clause with a fender
no 11 ; no such expression";

/// Patterns, in a syntax-case.
pub const PATTERNS: &str = "ok 0 ; _
ok 1 x1 ; a variable
ok 2 0 1 :else n0 n0 ; a literal
ok 2 0 1 :else n1 x4 n2 x5 n1 x4 x6 n0 ; a literal with a mark and two stamps
no 2 0 0 0 ; a literal that is no identifier
no 2 0 3 n0 ; a literal that is a vector
ok 3 1 1 ; #t
ok 4 n1 1 x1 0 n0 3 0 ; (a)
ok 4 n1 1 x1 1 1 x2 n1 1 x3 1 x4 ; (a b ... c . d)
no 4 n1 1 x1 0 n1 1 x3 3 0 ; patterns after an ellipsis that isn't there
ok 5 n0 0 n0 ; #()
ok 5 n0 1 0 n0 ; #(_ ...)
no 5 n0 2 n0 ; an ellipsis that is neither there nor not
no 6 ; no such pattern";

/// Templates, in a syntax.
pub const TEMPLATES: &str = "ok 0 x1 w0 ; a variable
ok 1 0 1 :x n0 n0 ; a constant that is an identifier
ok 1 1 :f w0 w3 2 n1 0 1 :x n0 n0 0 0 0 ; a constant (x)
no 1 0 2 n0 0 0 0 ; a list without elements
no 1 0 2 n1 0 0 0 0 2 n1 0 0 0 0 0 0 ; a tail that is a list
no 1 0 2 n1 0 0 0 1 :f w0 w2 0 0 ; a tail () with a span
ok 1 0 2 n1 0 0 0 1 :f w0 w2 3 n0 ; a tail that is a vector with a span
no 1 0 4 ; no such tree
ok 2 n1 0 x1 w1 w1 1 0 0 0 ; (a ...)
ok 3 n0 ; #()
no 4 ; no such template";

/// Bindings, as those of a record.
pub const BINDINGS: &str = "ok n1 x1 0 :x 1 n7 w0 1 0 ; a variable with an index
ok n1 x1 0 :x 0 w1 0 1 ; one without
ok n1 x1 1 w0 w2 ; a pattern variable
ok n1 x1 2 w0 0 ; a keyword that was not evaluated
ok n1 x1 2 w1 1 1 x2 ; a keyword
ok n1 x1 3 35 ; the last core form
no n1 x1 3 36 ; one past it
ok n1 x1 4 h0 ; a primitive
no n1 x1 4 h301 ; one past the last
no n1 x1 5 ; no such binding
ok n2 x1 1 w0 w0 x2 1 w0 w0 ; labels that rise
no n2 x1 1 w0 w0 x1 1 w0 w0 ; a label that is bound twice
no n2 x2 1 w0 w0 x1 1 w0 w0 ; labels that fall
ok n2 x9 1 w0 w0 4 n0 n0 1 w0 w0 ; libraries that rise
ok n2 4 n1 :b n0 1 w0 w0 4 n2 :a :a n0 1 w0 w0 ; a name with more parts
ok n2 4 n1 :b n0 1 w0 w0 4 n1 :aa n0 1 w0 w0 ; a name with a longer part
no n2 4 n1 :aa n0 1 w0 w0 4 n1 :b n0 1 w0 w0 ; names as a dictionary has them";

/// Rows of frames, as those of a record.
pub const ROWS: &str = "ok n1 x5 :x n1 x4 x1 ; a row
ok n2 x5 :x n0 x1 x5 :a n0 x2 ; rows of one frame, in the order of binding
ok n2 x5 :x n0 x1 x6 :a n0 x2 ; frames that rise
no n2 x6 :x n0 x1 x5 :a n0 x2 ; frames that fall";

/// Whole records.
pub const RECORDS: &str = "ok :p 3 n0 n0 n0 n0 n0 n0 ; a program of no lines
ok :m.sls 4 n1 :m n2 n1 n2 n1 :a x1 n0 n0 n1 0 x1 2 h0 n2 0 1 ; a library
no :p 3 n0 n0 n0 n0 n0 n0 0 ; a byte behind the last field
no :p 3 n0 n0 n0 n0 n0 ; no last field
no :p 3 n0 n0 n0 n0 n1 2 n0 ; no such line
no  ; nothing";

/// How many levels data, trees, patterns, templates and core code may have round their innermost part, and their words:
/// what stands before the levels, opens one, is the innermost, closes a level, and stands behind them.
pub const LIMITS: &str = "999|0| 0 2 n1| 0 0 0| 0 0 0|
999|9 1| 0 2 n1| 0 0 0| 0 0 0| :f w0 w9
1999|10 1 x1 n1| 5 n1| 0| 0 n0| 0 1 x2 :f w0 w9
1999|9| 3 n1| 0 x1 w0| w0| :f w0 w9
8192|| 4 x1| 1 x1||";
