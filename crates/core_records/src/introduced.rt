//! The identifiers that record forms introduce, and what is built of them.

ghost use Rattle.std.specs.Prelude.{◌≡◌, IfOk};
ghost use Rattle.base_data.specs.Gives.{BareGives};
ghost use Rattle.core_records.specs.Introduced.{core_frame, core_stamp, introduced, plain, boolean, list_made, list_of_two, list_of_three, vector_made, quoted};

use base_data::atom::Atom;
use base_data::fault::BareStop;
use base_data::items::Items;
use base_data::library::LibName;
use base_data::memory::Memory;
use base_data::name::{FrameNo, Name};
use base_data::symbol::Symbol;
use std::alloc::Global;
use std::rc::Rc;
use stx_object::syn::Syn;
use stx_tree::marks::Marks;
use stx_tree::stamp::Stamp;

/// The frame in which the names of the implementation stand for themselves.
pub(crate) fn core_frame(alloc: Global) -> Result<FrameNo, Memory>
    ensures { IfOk result (λ f. f ≡ core_frame) }
{
    let library = Rc::new(alloc, LibName::Core)?;
    Ok(FrameNo(Name { library, number: 0 }))
}

fn core_stamp(alloc: Global) -> Result<Stamp, Memory>
    ensures { IfOk result (λ s. s ≡ core_stamp) }
{
    let frame = core_frame(alloc)?;
    Ok(Stamp {
        frame,
        marks: Marks::new(alloc),
    })
}

/// The identifier of this symbol that stands for a name of the implementation.
pub(crate) fn introduced_symbol(alloc: Global, symbol: &Symbol) -> Result<Syn, Memory>
    ensures { IfOk result (λ t. t ≡ introduced symbol.now) }
{
    let mut stamps = Vec::new(alloc);
    let stamp = core_stamp(alloc)?;
    stamps.push(stamp)?;
    Syn::whole_leaf(alloc, None, symbol, Marks::new(alloc), stamps)
}

/// The identifier that stands for a name of the implementation, whatever is imported.
pub(crate) fn introduced(alloc: Global, text: &str) -> Result<Syn, Memory>
    ensures { IfOk result (λ t. t ≡ introduced text.now) }
{
    let symbol = Symbol::new(alloc, text)?;
    introduced_symbol(alloc, &symbol)
}

/// An identifier of the definitions alone.
pub(crate) fn plain(alloc: Global, text: &str) -> Result<Syn, Memory>
    ensures { IfOk result (λ t. t ≡ plain text.now) }
{
    let symbol = Symbol::new(alloc, text)?;
    Syn::whole_leaf(alloc, None, &symbol, Marks::new(alloc), Vec::new(alloc))
}

pub(crate) fn boolean(alloc: Global, value: bool) -> Result<Syn, Memory>
    ensures { IfOk result (λ t. t ≡ boolean value) }
{
    Syn::atom(alloc, Atom::Bool(value))
}

/// The list of these forms.
pub(crate) fn list_made(alloc: Global, forms: Items<Syn>) -> Result<Syn, BareStop>
    ensures { BareGives (λ t. t) result (list_made forms) }
{
    Syn::list(alloc, forms.into_vec(), None)
}

pub(crate) fn list_of_two(alloc: Global, first: Syn, second: Syn) -> Result<Syn, BareStop>
    ensures { BareGives (λ t. t) result (list_of_two first second) }
{
    let mut forms = Items::new(alloc);
    forms.push(first)?;
    forms.push(second)?;
    list_made(alloc, forms)
}

pub(crate) fn list_of_three(
    alloc: Global,
    first: Syn,
    second: Syn,
    third: Syn,
) -> Result<Syn, BareStop>
    ensures { BareGives (λ t. t) result (list_of_three first second third) }
{
    let mut forms = Items::new(alloc);
    forms.push(first)?;
    forms.push(second)?;
    forms.push(third)?;
    list_made(alloc, forms)
}

/// The vector of these forms.
pub(crate) fn vector_made(alloc: Global, forms: Items<Syn>) -> Result<Syn, BareStop>
    ensures { BareGives (λ t. t) result (vector_made forms) }
{
    Syn::vector(alloc, forms.into_vec())
}

/// `(quote form)`.
pub(crate) fn quoted(alloc: Global, form: Syn) -> Result<Syn, BareStop>
    ensures { BareGives (λ t. t) result (quoted form) }
{
    let quote = introduced(alloc, "quote")?;
    list_of_two(alloc, quote, form)
}
