//! Texts, and bytes with their length before them.

ghost use Rattle.std.specs.Prelude.{◌≡◌, OnOk, option_map, Some, None, if◌then◌else◌};
ghost use Rattle.std.specs.Str.{is_utf8};
ghost use Rattle.base_bytes.specs.Codec as spec;
ghost use Rattle.base_bytes.specs.Puts.{Puts};

use crate::numbers::{put_u32, put_u64, u32_at, u64_at};
use base_data::memory::Memory;

#[tactic(auto, unfolding(crate::specs::Codec::blob))]
pub fn put_blob(out: &mut Vec<u8>, bytes: &[u8]) -> Result<(), Memory>
    ensures { OnOk result (Puts spec.blob bytes.now out.old.items out.new.items) }
{
    put_u64(out, bytes.len() as u64)?;
    out.extend_from_slice(bytes)?;
    Ok(())
}

#[tactic(auto, unfolding(crate::specs::Codec::blob))]
pub fn blob_at(bytes: &[u8]) -> Option<(&[u8], &[u8])>
    ensures { option_map (λ x. (x.0.now, x.1.now)) result ≡ spec.blob.get bytes.now }
{
    let (len, rest) = u64_at(bytes)?;
    let len = len as usize;
    if rest.len() < len {
        return None;
    }
    Some(rest.split_at(len))
}

#[tactic(auto, unfolding(crate::specs::Codec::text), using(crate::proofs::Utf8::is))]
pub(crate) fn put_text(out: &mut Vec<u8>, text: &str) -> Result<(), Memory>
    ensures { OnOk result (Puts spec.text text.now out.old.items out.new.items) }
{
    put_blob(out, text.as_bytes())
}

#[tactic(auto, using(crate::proofs::Utf8::is, crate::proofs::Utf8::is_not))]
fn text_of(bytes: &[u8]) -> Option<&str>
    ensures { option_map (λ s. s.now) result ≡ (if is_utf8 bytes.now then Some bytes.now else None) }
{
    match str::from_utf8(bytes) {
        Ok(text) => Some(text),
        Err(_) => None,
    }
}

#[tactic(auto, unfolding(crate::specs::Codec::text))]
pub fn text_at(bytes: &[u8]) -> Option<(&str, &[u8])>
    ensures { option_map (λ x. (x.0.now, x.1.now)) result ≡ spec.text.get bytes.now }
{
    let (blob, rest) = blob_at(bytes)?;
    let text = text_of(blob)?;
    Some((text, rest))
}

#[tactic(auto, unfolding(crate::specs::Codec::char))]
pub(crate) fn put_char(out: &mut Vec<u8>, c: char) -> Result<(), Memory>
    ensures { OnOk result (Puts spec.char c out.old.items out.new.items) }
{
    put_u32(out, c as u32)
}

#[tactic(auto, unfolding(crate::specs::Codec::char))]
pub(crate) fn char_at(bytes: &[u8]) -> Option<(char, &[u8])>
    ensures { option_map (λ x. (x.0, x.1.now)) result ≡ spec.char.get bytes.now }
{
    let (code, rest) = u32_at(bytes)?;
    match char::from_u32(code) {
        Some(c) => Some((c, rest)),
        None => None,
    }
}
