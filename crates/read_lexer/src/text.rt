//! Texts that spell tokens.

/// The bytes that a token is read from, where the token begins and where it ends.
#[derive(Drop)]
pub(crate) struct TokenText<'a> {
    pub(crate) bytes: &'a [u8],
    pub(crate) from: u32,
    pub(crate) to: u32,
}
