//! How long an evaluation may take: `specs/Fuel` has the number.

/// The fuel of one evaluation: of a library, of a keyword's expression, or of a call of a transformer.
pub const FUEL: u64 = 4_000_000;
