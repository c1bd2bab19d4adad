//! Where an entry is kept.

ghost use Rattle.std.specs.Prelude.{◌≡◌, IfOk};
ghost use Rattle.std.specs.String.{string_bytes};
ghost use Rattle.core_cache.specs.Place.{place};

use crate::seal::digest_of;
use base_data::memory::Memory;
use std::alloc::Global;

/// The place of a library's entry in the directory of the cache, by the path of its file and its source.
pub fn place(alloc: Global, dir: &str, path: &str, source: &[u8]) -> Result<String, Memory>
    ensures { IfOk result (λ s. string_bytes s ≡ place dir.now path.now source.now) }
{
    let mut hashed = Vec::new(alloc);
    hashed.extend_from_slice(path.as_bytes())?;
    hashed.push(0)?;
    hashed.extend_from_slice(source)?;
    let digest = digest_of(&hashed);
    let digits = hex::encode(alloc, digest.as_slice())?;
    let mut place = String::new(alloc);
    place.push_str(dir)?;
    place.push_str("/")?;
    place.push_str(&digits)?;
    place.push_str(".sxe")?;
    Ok(place)
}
