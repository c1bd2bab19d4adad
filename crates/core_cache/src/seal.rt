//! Sealed bodies.

ghost use Rattle.std.specs.Prelude.{◌≡◌, List, ℕ, IfOk, IfSome, drop, option_map, Some};
ghost use Rattle.sha2.specs.Sha256.{sha256};
ghost use Rattle.core_cache.specs.Seal.{is_sealed, sealed};

use base_data::memory::Memory;
use sha2::{Digest, Sha256};
use std::alloc::Global;

pub(crate) fn digest_of(body: &[u8]) -> [u8; 32]
    ensures { result ≡ sha256 body.now }
{
    Sha256::digest(body)
}

/// The body behind the header and its digest.
pub fn seal(alloc: Global, body: &[u8]) -> Result<Vec<u8>, Memory>
    ensures { IfOk result (λ v. v.items ≡ sealed body.now) }
{
    let mut out = Vec::new(alloc);
    out.extend_from_slice(b"SXENTRY4")?;
    let digest = digest_of(body);
    out.extend_from_slice(&digest)?;
    out.extend_from_slice(body)?;
    Ok(out)
}

/// The body, where the bytes are a sealed one. It takes no memory.
pub fn unseal(bytes: &[u8]) -> Option<&[u8]>
    ensures found { IfSome result (λ s. bytes.now ≡ sealed s.now) }
    ensures only { (body : List ℕ) → bytes.now ≡ sealed body → option_map (λ s. s.now) result ≡ Some body }
{
    if bytes.len() < 40 {
        return None;
    }
    let (header, rest) = bytes.split_at(8);
    let (digest, body) = rest.split_at(32);
    if header != b"SXENTRY4".as_slice() {
        return None;
    }
    if digest != digest_of(body).as_slice() {
        return None;
    }
    Some(body)
}

/// The bytes behind where a header and a digest stand, which aren't looked at.
pub(crate) fn behind_seal(bytes: &[u8]) -> &[u8]
    ensures { result.now ≡ drop 40 bytes.now }
{
    if bytes.len() < 40 {
        return &[];
    }
    let (_, body) = bytes.split_at(40);
    body
}

/// Whether the bytes are a sealed body. It takes no memory.
pub(crate) fn is_sealed(bytes: &[u8]) -> bool
    ensures { result ≡ is_sealed bytes.now }
{
    let Some(_body) = unseal(bytes) else {
        return false;
    };
    true
}
