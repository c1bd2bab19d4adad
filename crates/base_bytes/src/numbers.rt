//! Numbers and choices: the highest byte first.

ghost use Rattle.std.specs.Prelude.{◌≡◌, OnOk, option_map};
ghost use Rattle.base_bytes.specs.Codec as spec;
ghost use Rattle.base_bytes.specs.Puts.{Puts};

use base_data::memory::Memory;

/// Adds two bytes.
#[tactic(auto, unfolding(crate::specs::Codec::u16), using(crate::specs::Puts::below))]
pub(crate) fn put_u16(out: &mut Vec<u8>, n: u16) -> Result<(), Memory>
    ensures { OnOk result (Puts spec.u16 n out.old.items out.new.items) }
{
    out.extend_from_slice(&n.to_be_bytes())?;
    Ok(())
}

#[tactic(auto, unfolding(crate::specs::Codec::u16))]
pub(crate) fn u16_at(bytes: &[u8]) -> Option<(u16, &[u8])>
    ensures { option_map (λ x. (x.0, x.1.now)) result ≡ spec.u16.get bytes.now }
{
    if bytes.len() < 2 {
        return None;
    }
    let (front, rest) = bytes.split_at(2);
    Some((u16::from_be_bytes([front[0], front[1]]), rest))
}

#[tactic(auto, unfolding(crate::specs::Codec::u32), using(crate::specs::Puts::below))]
pub fn put_u32(out: &mut Vec<u8>, n: u32) -> Result<(), Memory>
    ensures { OnOk result (Puts spec.u32 n out.old.items out.new.items) }
{
    out.extend_from_slice(&n.to_be_bytes())?;
    Ok(())
}

#[tactic(auto, unfolding(crate::specs::Codec::u32))]
pub fn u32_at(bytes: &[u8]) -> Option<(u32, &[u8])>
    ensures { option_map (λ x. (x.0, x.1.now)) result ≡ spec.u32.get bytes.now }
{
    if bytes.len() < 4 {
        return None;
    }
    let (front, rest) = bytes.split_at(4);
    Some((
        u32::from_be_bytes([front[0], front[1], front[2], front[3]]),
        rest,
    ))
}

#[tactic(auto, unfolding(crate::specs::Codec::u64), using(crate::specs::Puts::below))]
pub fn put_u64(out: &mut Vec<u8>, n: u64) -> Result<(), Memory>
    ensures { OnOk result (Puts spec.u64 n out.old.items out.new.items) }
{
    out.extend_from_slice(&n.to_be_bytes())?;
    Ok(())
}

#[tactic(auto, unfolding(crate::specs::Codec::u64))]
pub fn u64_at(bytes: &[u8]) -> Option<(u64, &[u8])>
    ensures { option_map (λ x. (x.0, x.1.now)) result ≡ spec.u64.get bytes.now }
{
    if bytes.len() < 8 {
        return None;
    }
    let (front, rest) = bytes.split_at(8);
    let number = u64::from_be_bytes([
        front[0], front[1], front[2], front[3], front[4], front[5], front[6], front[7],
    ]);
    Some((number, rest))
}

#[tactic(auto, unfolding(crate::specs::Codec::int, crate::specs::Codec::halves), using(crate::specs::Puts::is_whole))]
pub(crate) fn put_int(out: &mut Vec<u8>, n: i128) -> Result<(), Memory>
    ensures { OnOk result (Puts spec.int n out.old.items out.new.items) }
{
    let bits = n.cast_unsigned();
    let high = (bits / 18446744073709551616) as u64;
    let low = (bits % 18446744073709551616) as u64;
    put_u64(out, high)?;
    put_u64(out, low)
}

#[tactic(auto, unfolding(crate::specs::Codec::int, crate::specs::Codec::joined))]
pub(crate) fn int_at(bytes: &[u8]) -> Option<(i128, &[u8])>
    ensures { option_map (λ x. (x.0, x.1.now)) result ≡ spec.int.get bytes.now }
{
    let (high, rest) = u64_at(bytes)?;
    let (low, rest) = u64_at(rest)?;
    let bits = u128::from(high) * 18446744073709551616 + u128::from(low);
    Some((bits.cast_signed(), rest))
}

#[tactic(auto, unfolding(crate::specs::Codec::bool))]
pub fn put_bool(out: &mut Vec<u8>, value: bool) -> Result<(), Memory>
    ensures { OnOk result (Puts spec.bool value out.old.items out.new.items) }
{
    if value {
        out.push(1)?;
    } else {
        out.push(0)?;
    }
    Ok(())
}

#[tactic(auto, unfolding(crate::specs::Codec::bool))]
pub fn bool_at(bytes: &[u8]) -> Option<(bool, &[u8])>
    ensures { option_map (λ x. (x.0, x.1.now)) result ≡ spec.bool.get bytes.now }
{
    match bytes {
        [0, rest @ ..] => Some((false, rest)),
        [1, rest @ ..] => Some((true, rest)),
        _ => None,
    }
}
