//! What labels are bound to: the bindings of libraries that are complete, which others share, and later ones.

ghost use Rattle.std.specs.Option.{option_copied};
ghost use Rattle.std.specs.Prelude.{◌≡◌, ◌∷◌, ◌++◌, [], None, false, OnOk, OnErr};
ghost use Rattle.core_language.specs.Bindings.{bound_to};
ghost use Rattle.base_data.specs.declared.library.LibName.{LibName};
ghost use Rattle.core_known.specs.Known.{flat, has_part, part_of, AreElsewhere};
ghost use Rattle.core_known.specs.Needed.{needed_parts, parts_given};

use crate::needed::NeededBindings;
use crate::shared::SharedBindings;
use base_data::items::Items;
use base_data::library::LibName;
use base_data::memory::Memory;
use base_data::name::Label;
use core_language::binding::Binding;
use core_language::bindings::Bindings;
use std::alloc::Global;
use std::marker::Model;
use std::rc::Rc;

type Given = Option<NeededBindings>;

/// The bindings of libraries that are complete, of a table that is shared, and then those that came later. A label
/// is looked for where its library is, so a look-up costs the same, however many libraries there are.
#[derive(Drop)]
pub struct KnownBindings {
    given: Given,
    own: Bindings,
}

impl Model for KnownBindings {
    ghost use Rattle.std.specs.Prelude.{◌++◌, List};
    ghost use Rattle.base_data.specs.declared.name.Label.{Label};
    ghost use Rattle.core_language.specs.declared.binding.Binding.{Binding};
    ghost use Rattle.core_language.specs.Bindings.{bindings_code};
    ghost use Rattle.core_known.specs.Known.{flat, ArePlaced};
    ghost use Rattle.core_known.specs.Needed.{parts_given};

    ghost Value = { List (Label × Binding) };

    ghost coded = { bindings_code };

    ghost view = { λ b. flat (parts_given b.given) ++ b.own };

    ghost invariant = { λ b. ArePlaced (parts_given b.given) b.own };
}

/// The bindings among which those of a library's labels are.
fn part<'a>(given: &'a Given, own: &'a Bindings, library: &Rc<LibName>) -> &'a Bindings
    ensures { result.now ≡ part_of (parts_given given.now) own.now library.now.value }
{
    let Some(given) = given else {
        return own;
    };
    match given.get(library) {
        Some(part) => part,
        None => own,
    }
}

/// Whether a library is one that was given.
fn is_given(given: &Given, library: &Rc<LibName>) -> bool
    ensures { result ≡ has_part library.now.value (parts_given given.now) }
{
    match given {
        Some(given) => given.has(library),
        None => false,
    }
}

impl KnownBindings {
    /// No bindings. It takes no memory.
    pub fn new(alloc: Global) -> KnownBindings
        ensures { result ≡ [] }
    {
        KnownBindings {
            given: None,
            own: Bindings::new(alloc),
        }
    }

    /// The bindings of those libraries of a table that are marked. It takes no memory.
    pub fn over(alloc: Global, shared: Rc<SharedBindings>, needs: Rc<Items<bool>>) -> KnownBindings
        ensures bindings { result ≡ flat (needed_parts needs.value shared.value) }
        ensures elsewhere { (l : LibName) → has_part l shared.value ≡ false → AreElsewhere l result }
    {
        KnownBindings {
            given: Some(NeededBindings::new(shared, needs)),
            own: Bindings::new(alloc),
        }
    }

    /// What a label is bound to. It takes no memory.
    pub fn get(&self, label: &Label) -> Option<&Binding>
        ensures { option_copied result ≡ bound_to self.now label.now }
    {
        part(&self.given, &self.own, &label.0.library).get(label)
    }

    /// Binds a label that isn't bound. A label of a library that was given is refused as want of memory is. A
    /// refusal changes nothing.
    pub fn add(&mut self, label: Label, binding: Binding) -> Result<(), Memory>
        requires { bound_to self.old label ≡ None }
        ensures ok { OnOk result (self.new ≡ self.old ++ (label, binding) ∷ []) }
        ensures err { OnErr result (self.new ≡ self.old) }
    {
        if is_given(&self.given, &label.0.library) {
            return Err(Memory);
        }
        self.own.add(label, binding)
    }
}
