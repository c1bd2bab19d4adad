//! Formals as bytes.

ghost use Rattle.std.specs.Prelude.{◌≡◌, IfOk, OnOk, option_map};
ghost use Rattle.base_bytes.specs.Puts.{Puts};
ghost use Rattle.core_codec.specs.Code.{formals};

use base_bytes::libraries::RecentLibraries;
use base_bytes::spelled::Spelled;
use base_data::memory::Memory;
use core_language::formals::Formals;

/// Adds the required parameters, and the one that takes the rest.
#[tactic(auto, unfolding(core_codec::specs::Code::formals))]
pub(crate) fn put_formals(out: &mut Vec<u8>, parameters: &Formals) -> Result<(), Memory>
    ensures { OnOk result (Puts formals parameters.now out.old.items out.new.items) }
{
    parameters.required.put(out)?;
    parameters.rest.put(out)
}

/// The formals that the bytes begin with, and the bytes behind them.
#[tactic(auto, unfolding(core_codec::specs::Code::formals))]
pub(crate) fn formals_at<'a>(
    libraries: &mut RecentLibraries,
    bytes: &'a [u8],
) -> Result<Option<(Formals, &'a [u8])>, Memory>
    ensures { IfOk result (λ o. option_map (λ x. (x.0, x.1.now)) o ≡ formals.get bytes.now) }
{
    let Some((required, rest)) = Spelled::at(libraries, bytes)? else {
        return Ok(None);
    };
    let Some((last, rest)) = Spelled::at(libraries, rest)? else {
        return Ok(None);
    };
    let formals = Formals {
        required,
        rest: last,
    };
    Ok(Some((formals, rest)))
}
