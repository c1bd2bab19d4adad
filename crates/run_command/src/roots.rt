//! The directories under which libraries are looked for.

ghost use Rattle.std.specs.Prelude.{◌≡◌, IfOk, map, length, ◌==◌};
ghost use Rattle.std.specs.List.{list_any};
ghost use Rattle.run_command.specs.Roots.{directories, are_refused, roots_of};

use base_data::items::Items;
use base_data::memory::Memory;
use base_data::symbol::Symbol;
use std::alloc::Global;

/// The directories that the word of `--root` joins by `:`, where it is one of one to sixteen, none of
/// them empty.
pub(crate) fn roots_of(alloc: Global, word: &str) -> Result<Option<Items<Symbol>>, Memory>
    ensures { IfOk result (λ roots. roots ≡ roots_of word.now) }
{
    let names = directories(alloc, word)?;
    if are_refused(&names) {
        return Ok(None);
    }
    let roots = all_kept(alloc, &names)?;
    Ok(Some(roots))
}

fn directories(alloc: Global, word: &str) -> Result<Vec<&str>, Memory>
    ensures { IfOk result (λ v. map (λ s. s.now) v.items ≡ directories word.now) }
{
    let names = word.split(':').collect(alloc)?;
    Ok(names)
}

#[tactic(auto, using(crate::proofs::Lists::few))]
fn are_refused(names: &[&str]) -> bool
    ensures { result ≡ are_refused (map (λ s. s.now) names.now) }
{
    16 < names.len() || has_empty(names)
}

fn has_empty(names: &[&str]) -> bool
    ensures { result ≡ list_any (λ name. length name.now == 0) names.now }
{
    names.iter().any(|name| name.is_empty())
}

fn all_kept(alloc: Global, names: &[&str]) -> Result<Items<Symbol>, Memory>
    ensures { IfOk result (λ roots. roots ≡ map (λ s. s.now) names.now) }
{
    let mut roots = Items::new(alloc);
    for name in names {
        roots.push(Symbol::new(alloc, name)?)?;
    }
    Ok(roots)
}
