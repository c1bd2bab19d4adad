//! What is done to frames, or asked of them, and what comes of it.
//!
//! A step begins with a library: the one that is expanded (`own`), one that is needed (`other`), one that no one needs
//! (`left`). A leaf is `SYMBOL.MARKS@STAMPS`; marks are numbers parted by points, and a stamp is the number of a frame with
//! the marks behind a point.
//!
//! ```text
//! frame F        a frame that isn't there is added
//! adopt F S L    a row with this frame, symbol and label is adopted
//! bind F LEAF L  a leaf is bound in a frame to a label
//! find LEAF      the number of the label that it stands for, with and without the memo, and 0 where there is none
//! rows           all rows of the library, or none
//! turns A B L    in turns A to B, without B, a leaf with many stamps stands for L, and x is bound with a mark of the turn
//! ```

/// With no frames at first.
pub const STEPS: &str = "own frame 0 => true
own frame 0 => false
own bind 0 x 1 => bound
own find x.5@0.5,0 => 1
own bind 0 x.5 2 => bound
own find x.5@0.5,0 => 2
own bind 0 x.5 3 => Duplicate
own find x.5@0.5,0 => 2
own adopt 9 x 4 => true
own adopt 9 x 4 => false
own find x.5@0.5,0 => 2
own bind 17 z 1 => bound
own bind 13 y 2 => bound
own bind 17 x 3 => bound
own bind 13 z 4 => bound
other bind 17 z 1 => bound
other bind 13 y 2 => bound
other bind 17 x 3 => bound
other bind 13 z 4 => bound
own rows => 0 x 1, 0 x 2, 9 x 4, 13 y 2, 13 z 4, 17 z 1, 17 x 3
own find z@19,19,13,17 => 4
own find z@19,17,13 => 1
own find z@19,0 => 0
own bind 21 x 5 => bound
own bind 22 x 5 => bound
own bind 23 x 5 => bound
own bind 24 x 5 => bound
own bind 25 x 5 => bound
own turns 1 2500 0 => true
own bind 20 x 20000 => bound
own turns 2500 7500 20000 => true
own bind 20 x.0 30000 => bound
own turns 7500 10000 30000 => true
own bind 20 x.10000 40000 => bound";

/// The leaf of the turns: the last two of its stamps find something, behind so many that the memo is asked. Before the
/// turns x is bound in so many frames that these aren't told apart.
pub const FAR: &str = "x.0@19,19,19,19,19,19,19,19,19,19,19,19,19,19,19,19,20.0,20";

/// What the libraries give that have frames.
pub const GIVEN: &str = "7 z 1,3 y 2,3 z 4";

/// Over the frames of the other library: those of the same numbers grow behind them, and they are complete.
pub const STEPS_OVER: &str = "own find y@3 => 0
own bind 3 y 9 => bound
own find y@3 => 9
other find y@3 => 2
other find z@7,3 => 1
own rows => 3 y 9
other rows => 3 y 2, 3 z 4, 7 z 1
left find y@3 => 0
left rows => none
other bind 8 y 5 => refused
own rows => 3 y 9
other rows => 3 y 2, 3 z 4, 7 z 1";
