//! Entries of a cache: what is kept of a library that was expanded, so that a later run need not expand it again.
//!
//! An entry is the path of the library's file, the roots under which libraries were looked for, the sources that its
//! expansion read, and the compiled library, or record. A source is a path with the bytes that stood there, or the fact that nothing did.
//! A later run takes the record instead of an expansion where it would read just these roots and sources.
//!
//! An entry is kept at a *place*: in the directory of the cache, a name that is the digest of the library's path and
//! of its own source. What is kept there is *sealed*: behind the header `SXENTRY4` stands the digest of what follows,
//! so that bytes that were cut off or changed aren't taken for an entry.
//!
//! The promise: `encode_entry` and `decode_entry` are exactly the grammar of entries, both ways; `unseal` gives a body
//! exactly where the bytes are that body sealed; `fits` is equality of roots and sources. `sealed_record` is the record
//! of a sealed entry that fits, or nothing, and makes no value of the entry's sources. Digests are SHA-256.
#![tactic(auto)]

pub mod entry;
pub mod fits;
pub mod fitting;
pub mod place;
pub mod seal;
