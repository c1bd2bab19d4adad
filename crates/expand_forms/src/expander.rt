//! An expander: what has the state of one library's expansion.

ghost use Rattle.std.specs.Prelude.{◌≡◌, ◌+◌, IfOk, OnOk, OnErr, true, false, Ok};
ghost use Rattle.base_data.specs.Act.{GivesAfter};
ghost use Rattle.base_data.specs.Gives.{Gives};
ghost use Rattle.eval_code.specs.Codes as table;
ghost use Rattle.eval_stage.specs.Libraries.{earlier_in};
ghost use Rattle.expand_standing.specs.Ready.{needed_records};
ghost use Rattle.expand_forms.specs.Expanding.{ready, expression, lambda_body, library_record, library_linked, library_spent};

use crate::at::FormAt;
use crate::body::{BodyForm, body};
use crate::expression::expression;
use crate::inside::ROOM;
use crate::site::Site;
use crate::tally::Tally;
use crate::top::{LibraryBody, Linked, top};
use base_data::atom::Atom;
use base_data::fault::Stop;
use base_data::library::LibName;
use base_data::memory::Memory;
use base_data::name::FrameNo;
use base_fuel::fuel::Fuel;
use core_language::code::Core;
use core_language::record::CompiledLibrary;
use expand_standing::expansion::Expansion;
use expand_standing::means::{Counts, Means};
use expand_standing::start::{Environment, Supplies};
use std::alloc::Global;
use std::marker::Model;
use std::sync::ledger::Ledger;
use stx_object::syn::Syn;

/// The state of one library's expansion, and whether a call was refused. After a refusal it is of no use.
pub struct Expander<L: Ledger> {
    /// In a box: what owns an expander moves and drops a pointer.
    state: Box<Expansion<L>>,
    /// The frame of imports and definitions.
    frame: FrameNo,
    failed: bool,
}

impl<L: Ledger> Drop for Expander<L> {
    /// The parts are dropped here alone: what owns an expander makes one call, and needn't know them.
    fn drop(self) {
        let Expander {
            state: _,
            frame: _,
            failed: _,
        } = self;
    }
}

impl<L: Ledger> Model for Expander<L> {
    ghost use Rattle.expand_forms.specs.Expanding.{Expanding, expanding_code};

    ghost Value = { Expanding };

    ghost coded = { expanding_code };

    ghost view = { λ e. record { state = e.state.value; frame = e.frame; failed = e.failed } };
}

impl<L: Ledger> Expander<L> {
    /// An expander for the library of this name, in its environment. Two imports of one name are refused as want of memory is.
    pub fn new(
        alloc: Global,
        name: LibName,
        environment: &Environment,
        supplies: Supplies<L>,
    ) -> Result<Expander<L>, Stop>
        ensures { Gives (λ e. e) result (Ok (ready name
            (needed_records environment.now.needs.now environment.now.earlier.now) environment.now.imports.now (table.seen supplies.codes.entries))) }
    {
        match begun(alloc, name, environment, supplies) {
            Ok(expander) => Ok(expander),
            Err(memory) => Err(Stop::from(memory)),
        }
    }

    /// Whether a call was refused. It takes no memory.
    pub fn failed(&self) -> bool
        ensures { result ≡ self.now.failed }
    {
        self.failed
    }

    /// What an expression expands to.
    pub fn expression<N: Ledger>(
        &mut self,
        form: &Syn,
        site: &Site,
        means: &Means,
        counts: &mut Counts<N, L>,
    ) -> Result<Core, Stop>
        requires { self.old.failed ≡ false }
        ensures given { GivesAfter (λ c. c) result self.new.state (expression (earlier_in means.now.earlier) site.now form.now self.old.state) }
        ensures ok { OnOk result (self.new.failed ≡ false) }
        ensures err { OnErr result (self.new.failed ≡ true) }
        ensures frame { self.new.frame ≡ self.old.frame }
    {
        let at = FormAt {
            site,
            room: ROOM,
            means,
        };
        match expression(&mut *self.state, form, &at, counts) {
            Ok(core) => Ok(core),
            Err(stop) => {
                self.failed = true;
                Err(stop)
            }
        }
    }

    /// What these forms expand to as the body of a procedure.
    pub fn body<N: Ledger>(
        &mut self,
        forms: &[Syn],
        site: &Site,
        means: &Means,
        counts: &mut Counts<N, L>,
    ) -> Result<Core, Stop>
        requires { self.old.failed ≡ false }
        ensures given { GivesAfter (λ c. c) result self.new.state (lambda_body (earlier_in means.now.earlier) site.now forms.now self.old.state) }
        ensures ok { OnOk result (self.new.failed ≡ false) }
        ensures err { OnErr result (self.new.failed ≡ true) }
        ensures frame { self.new.frame ≡ self.old.frame }
    {
        match lambda_body(&mut *self.state, forms, site, means, counts) {
            Ok(core) => Ok(core),
            Err(stop) => {
                self.failed = true;
                Err(stop)
            }
        }
    }

    /// The record of a library or program with this body, whose forms go on the way.
    pub fn top<N: Ledger>(
        self,
        body: LibraryBody,
        means: &Means,
        tally: &mut Tally<N, L>,
    ) -> Result<CompiledLibrary, Stop>
        requires { self.failed ≡ false }
        ensures record { Gives (λ r. r) result (library_record self (earlier_in means.now.earlier) body) }
        ensures fuel { OnOk result (tally.new.fuel ≡ tally.old.fuel + library_spent self (earlier_in means.now.earlier) body) }
    {
        let mut expander = self;
        let library = library_record(&mut expander, body, means, &mut tally.counts)?;
        expander.end(&mut tally.fuel);
        Ok(library)
    }

    /// The record, as `top` gives it, and which identifiers stand for which labels: each identifier with a span that is
    /// bound as a variable, refers to a variable or a primitive, or is assigned, in the order of expansion.
    pub fn top_linked<N: Ledger>(
        self,
        body: LibraryBody,
        means: &Means,
        tally: &mut Tally<N, L>,
    ) -> Result<Linked, Stop>
        requires { self.failed ≡ false }
        ensures linked { Gives (λ r. r) result (library_linked self (earlier_in means.now.earlier) body) }
        ensures fuel { OnOk result (tally.new.fuel ≡ tally.old.fuel + library_spent self (earlier_in means.now.earlier) body) }
    {
        let mut expander = self;
        let linked = library_linked(&mut expander, body, means, &mut tally.counts)?;
        expander.end(&mut tally.fuel);
        Ok(linked)
    }

    /// What was spent is spent of a run, when nothing follows. It takes no memory.
    pub fn end(&mut self, fuel: &mut Fuel<L>)
        ensures { fuel.new ≡ fuel.old + self.old.state.spent }
    {
        self.state.end(fuel);
    }
}

#[tactic(auto, unfolding(expand_standing::specs::Start::started))]
fn begun<L: Ledger>(
    alloc: Global,
    name: LibName,
    environment: &Environment,
    supplies: Supplies<L>,
) -> Result<Expander<L>, Memory>
    ensures { IfOk result (λ e. e ≡ ready name (needed_records environment.now.needs.now environment.now.earlier.now)
        environment.now.imports.now (table.seen supplies.codes.entries)) }
{
    let state = Expansion::start(alloc, name, environment, supplies)?;
    let state = Box::new(alloc, state)?;
    let frame = state.first_frame()?;
    Ok(Expander {
        state,
        frame,
        failed: false,
    })
}

/// As `Expander::top`: only the caller owns the expander.
#[tactic(auto, using(crate::proofs::Linked::record_given, crate::proofs::Linked::record_stops))]
fn library_record<N: Ledger, L: Ledger>(
    expander: &mut Expander<L>,
    body: LibraryBody,
    means: &Means,
    counts: &mut Counts<N, L>,
) -> Result<CompiledLibrary, Stop>
    ensures record { Gives (λ r. r) result (library_record expander.old (earlier_in means.now.earlier) body) }
    ensures spent { OnOk result (expander.new.state.spent ≡ library_spent expander.old (earlier_in means.now.earlier) body) }
{
    match library_linked(expander, body, means, counts) {
        Ok(linked) => {
            let Linked { library, .. } = linked;
            Ok(library)
        }
        Err(stop) => Err(stop),
    }
}

/// As `Expander::top_linked`: only the caller owns the expander.
fn library_linked<N: Ledger, L: Ledger>(
    expander: &mut Expander<L>,
    body: LibraryBody,
    means: &Means,
    counts: &mut Counts<N, L>,
) -> Result<Linked, Stop>
    ensures linked { Gives (λ r. r) result (library_linked expander.old (earlier_in means.now.earlier) body) }
    ensures spent { OnOk result (expander.new.state.spent ≡ library_spent expander.old (earlier_in means.now.earlier) body) }
{
    let frame = expander.frame.share()?;
    top(&mut *expander.state, frame, body, means, counts)
}

fn lambda_body<N: Ledger, L: Ledger>(
    state: &mut Expansion<L>,
    forms: &[Syn],
    site: &Site,
    means: &Means,
    counts: &mut Counts<N, L>,
) -> Result<Core, Stop>
    ensures { GivesAfter (λ c. c) result state.new (lambda_body (earlier_in means.now.earlier) site.now forms.now state.old) }
{
    let nowhere = Syn::atom(state.alloc(), Atom::Nil)?;
    let at = FormAt {
        site,
        room: ROOM,
        means,
    };
    let whole = BodyForm {
        form: &nowhere,
        forms,
    };
    body(state, &whole, &at, counts)
}
