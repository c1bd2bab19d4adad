//! The number that a symbol keeps of its text.

ghost use Rattle.std.specs.Prelude.{◌≡◌};
ghost use Rattle.base_data.specs.Head.{packed, hashed, head_of};

use crate::map::mixed;

/// A number of a text, by which symbols are hashed and mostly compared. Texts of up to seven bytes have each their own, and share none
/// with longer ones.
#[tactic(auto, unfolding(crate::specs::Head::head_of))]
pub fn head_of(text: &str) -> u64
    ensures { result ≡ head_of text.now }
{
    let bytes = text.as_bytes();
    let count = bytes.len();
    if count < 8 {
        return packed(bytes).wrapping_add((count as u64).wrapping_mul(0x0100_0000_0000_0000));
    }
    (hashed(bytes) / 256).wrapping_add(0x0800_0000_0000_0000)
}

// The number whose bytes these are.
#[tactic(auto, unfolding(crate::specs::Head::packed))]
fn packed(bytes: &[u8]) -> u64
    ensures { result ≡ packed bytes.now }
{
    let mut n: u64 = 0;
    for b in bytes {
        n = n.wrapping_mul(256).wrapping_add(u64::from(*b));
    }
    n
}

#[tactic(auto, unfolding(crate::specs::Head::hashed))]
fn hashed(bytes: &[u8]) -> u64
    ensures { result ≡ hashed bytes.now }
{
    let mut hash: u64 = 0;
    for b in bytes {
        hash = mixed(hash, u64::from(*b));
    }
    hash
}
