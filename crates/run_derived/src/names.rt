//! The names that the derived library imports and exports.

ghost use Rattle.std.specs.Prelude.{◌≡◌, ◌≤◌, ◌<◌, ◌++◌, IfOk, OnOk};
ghost use Rattle.base_data.specs.Op.{name_count, op_text};
ghost use Rattle.base_data.specs.declared.library.LibName.TheVariants as library;
ghost use Rattle.load_builtin.specs.Exports.{derived};
ghost use Rattle.run_derived.specs.Names.{path, start, is_defined, name_at, names_from, names, export_at, exports_of};

use base_data::imported_name::ImportedName;
use base_data::items::Items;
use base_data::library::LibName;
use base_data::memory::Memory;
use base_data::name::{Label, Name};
use base_data::op::{NAME_COUNT, Op, op_text};
use base_data::span::Span;
use base_data::symbol::Symbol;
use load_builtin::exports::DERIVED;
use std::alloc::Global;
use std::rc::Rc;
use stx_object::syn::Syn;
use stx_tree::marks::Marks;

pub(crate) fn path(alloc: Global) -> Result<Symbol, Memory>
    ensures { IfOk result (λ p. p ≡ path) }
{
    Symbol::new(alloc, "(derived)")
}

/// The start of the text.
pub(crate) fn start(alloc: Global) -> Result<Span, Memory>
    ensures { IfOk result (λ s. s ≡ start) }
{
    let file = path(alloc)?;
    Ok(Span {
        file,
        from: 0,
        to: 0,
    })
}

// Whether some of these definitions is that of the name with this number.
fn is_defined(definitions: &[Option<u16>], number: u16) -> bool
    ensures { result ≡ is_defined number definitions.now }
{
    for definition in definitions {
        if *definition == Some(number) {
            return true;
        }
    }
    false
}

fn push_name(
    alloc: Global,
    core: &Rc<LibName>,
    definitions: &[Option<u16>],
    number: u16,
    names: &mut Items<ImportedName>,
) -> Result<(), Memory>
    requires known { number < name_count }
    requires core { core.now.value ≡ library.Core }
    ensures { OnOk result (names.new ≡ names.old ++ name_at definitions.now number) }
{
    if is_defined(definitions, number) {
        return Ok(());
    }
    let name = Symbol::new(alloc, op_text(&Op(number)))?;
    let library = core.clone()?;
    let label = Label(Name {
        library,
        number: number as u64,
    });
    names.push(ImportedName { name, label })
}

// So many names, without those of these definitions.
fn names_of(
    alloc: Global,
    definitions: &[Option<u16>],
    count: u16,
) -> Result<Items<ImportedName>, Memory>
    requires { count ≤ name_count }
    ensures { IfOk result (λ es. es ≡ names_from definitions.now 0 count) }
{
    let core = Rc::new(alloc, LibName::Core)?;
    let mut names = Items::new(alloc);
    for number in 0..count {
        push_name(alloc, &core, definitions, number, &mut names)?;
    }
    Ok(names)
}

/// The names that the library imports: all that it doesn't define, in the order of their numbers.
pub(crate) fn names(alloc: Global) -> Result<Items<ImportedName>, Memory>
    ensures { IfOk result (λ es. es ≡ names) }
{
    names_of(alloc, &DERIVED, NAME_COUNT)
}

// The name with this number; past the last there is none.
fn name_text(number: u16) -> &'static str
    ensures { result.now ≡ op_text number }
{
    if number < NAME_COUNT {
        op_text(&Op(number))
    } else {
        ""
    }
}

fn push_export(
    alloc: Global,
    definition: &Option<u16>,
    exports: &mut Items<(Symbol, Syn)>,
) -> Result<(), Memory>
    ensures { OnOk result (exports.new ≡ exports.old ++ export_at definition.now) }
{
    let Some(number) = definition else {
        return Ok(());
    };
    let symbol = Symbol::new(alloc, name_text(*number))?;
    let place = start(alloc)?;
    let leaf = Syn::whole_leaf(
        alloc,
        Some(place),
        &symbol,
        Marks::new(alloc),
        Vec::new(alloc),
    )?;
    exports.push((symbol, leaf))
}

// What these definitions export, in order.
#[tactic(auto, unfolding(crate::specs::Names::exports_of))]
fn exports_of(alloc: Global, definitions: &[Option<u16>]) -> Result<Items<(Symbol, Syn)>, Memory>
    ensures { IfOk result (λ es. es ≡ exports_of definitions.now) }
{
    let mut exports = Items::new(alloc);
    for definition in definitions {
        push_export(alloc, definition, &mut exports)?;
    }
    Ok(exports)
}

/// What the library exports: all that it defines.
pub(crate) fn exports(alloc: Global) -> Result<Items<(Symbol, Syn)>, Memory>
    ensures { IfOk result (λ es. es ≡ exports_of derived) }
{
    exports_of(alloc, &DERIVED)
}
