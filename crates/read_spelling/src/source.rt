//! The characters of a source, decoded from UTF-8.

ghost use Rattle.std.specs.Prelude.{◌≡◌, ◌<◌, ◌≤◌, ◌∷◌, [], length, drop, slice_index, MatchOption, IfSome};
ghost use Rattle.read_spelling.specs.Source.{piece, characters};

/// A character and how many bytes it takes. None stands for bytes that begin no character.
#[derive(Clone, Copy)]
pub struct SourcePiece {
    pub char: Option<char>,
    pub size: usize,
}

/// The first character, or none where no bytes are left.
pub fn front(bytes: &[u8]) -> Option<SourcePiece>
    ensures first { MatchOption result
        (characters bytes.now ≡ [])
        (λ p. characters bytes.now ≡ piece p.char p.size ∷ characters (drop p.size bytes.now)) }
    ensures size { IfSome result (λ p. (0 < p.size) × (p.size ≤ length bytes.now)) }
{
    if bytes.is_empty() {
        return None;
    }
    let (char, size) = bstr::decode_utf8(bytes);
    Some(SourcePiece { char, size })
}

/// The byte at an index, or 0 past the end.
pub fn byte_at(bytes: &[u8], i: usize) -> u8
    ensures gives { result ≡ slice_index bytes.now i }
    ensures there { 0 < result → i < length bytes.now }
{
    if i < bytes.len() { bytes[i] } else { 0 }
}

/// The bytes behind the first `n`, or none where there are fewer.
pub fn behind(bytes: &[u8], n: usize) -> &[u8]
    ensures { result.now ≡ drop n bytes.now }
{
    let (_, after) = bytes.split_at(n.min(bytes.len()));
    after
}
