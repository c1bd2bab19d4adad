//! Whether a compiled library, or record, may stand behind earlier ones.
//!
//! A record that comes out of a store was made by another run, or by no run at all. Before an expansion imports from it,
//! it is looked through:
//!
//! ```text
//! (util stack)     (define push/0 ..)             stands there
//! (util loop)      (define run/0 .. push/0 ..)    refers to (util stack): follows it
//! (util loop)      (define run/0 .. peek/0 ..)    no record defines peek/0: doesn't follow
//! ```
//!
//! Its name is new. Its own library names all that it binds, and it binds nothing twice. Each label that it exports, or that
//! its frames give, is bound in it or in an earlier record. Its core code is well made and closed, and its references are
//! the other libraries whose variables its lines mention.
//!
//! The promise: `follows` decides exactly the definition `Follows`, which the records of expansions are proved to meet. So a
//! record that a run made passes behind the records that it was made behind, and what passes has all that an expansion
//! asks of the records before it. No earlier record is looked through again: tables tell what they bind and define.
#![tactic(auto)]

pub mod closed;
pub mod code;
pub mod defines;
pub mod earlier;
pub mod follows;
pub mod keys;
pub mod known;
pub mod names;
pub mod references;
