//! What the labels of a library that is complete are bound to, which others share.

ghost use Rattle.std.specs.Prelude.{◌≡◌, ◌∷◌, ◌++◌, [], IfOk, OnOk};
ghost use Rattle.core_known.specs.Known.{AreOf};

use base_data::library::LibName;
use base_data::memory::Memory;
use base_data::name::Label;
use core_language::binding::Binding;
use core_language::bindings::Bindings;
use std::alloc::Global;
use std::marker::Model;
use std::rc::Rc;

/// A library that is complete and what its labels are bound to, in a table that is made once for all that need
/// it.
#[derive(Drop)]
pub struct GivenBindings {
    pub(crate) library: Rc<LibName>,
    pub(crate) rows: Rc<Bindings>,
}

impl Model for GivenBindings {
    ghost use Rattle.core_known.specs.Known.{AreOf, Part, part_code};

    ghost Value = { Part };

    ghost coded = { part_code };

    ghost view = { λ g. (g.library.value, g.rows.value) };

    ghost invariant = { λ g. AreOf g.library.value g.rows.value };
}

/// Binds a label of the library. One that is bound already, or is of another library, is refused as want of
/// memory is.
fn add_row(
    library: &LibName,
    bindings: &mut Bindings,
    label: &Label,
    binding: &Binding,
) -> Result<(), Memory>
    requires { AreOf library.now bindings.old }
    ensures row { OnOk result (bindings.new ≡ bindings.old ++ (label.now, binding.now) ∷ []) }
    ensures of { OnOk result (AreOf library.now bindings.new) }
{
    if *label.0.library != *library {
        return Err(Memory);
    }
    if bindings.get(label).is_some() {
        return Err(Memory);
    }
    let label = label.share()?;
    let binding = binding.share()?;
    bindings.add(label, binding)
}

/// What the rows bind.
fn bindings_of(
    alloc: Global,
    library: &LibName,
    rows: &[(Label, Binding)],
) -> Result<Bindings, Memory>
    ensures rows { IfOk result (λ b. b ≡ rows.now) }
    ensures of { IfOk result (λ b. AreOf library.now b) }
{
    let mut bindings = Bindings::new(alloc);
    for (label, binding) in rows {
        add_row(library, &mut bindings, label, binding)?;
    }
    Ok(bindings)
}

impl GivenBindings {
    /// What the labels of a library are bound to. A row of another library's label is refused as want of memory
    /// is, and so are two rows of one label.
    pub fn new(
        alloc: Global,
        library: Rc<LibName>,
        rows: &[(Label, Binding)],
    ) -> Result<GivenBindings, Memory>
        ensures { IfOk result (λ g. g ≡ (library.value, rows.now)) }
    {
        let rows = bindings_of(alloc, &library, rows)?;
        let rows = Rc::new(alloc, rows)?;
        Ok(GivenBindings { library, rows })
    }
}
