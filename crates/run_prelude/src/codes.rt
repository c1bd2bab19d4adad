//! The codes of the texts.

ghost use Rattle.std.specs.Prelude.{◌≡◌, ◌+◌, [], false, filter, map, codes, IfOk, OnOk, Ok};
ghost use Rattle.base_data.specs.Act.{GivesAfter, each};
ghost use Rattle.base_data.specs.Gives.{Gives};
ghost use Rattle.base_data.specs.Op.{op_text};
ghost use Rattle.base_data.specs.declared.library.LibName.TheVariants as library;
ghost use Rattle.expand_forms.specs.Expanding.{ready};
ghost use Rattle.eval_stage.specs.Libraries.{earlier_in};
ghost use Rattle.expand_standing.specs.Start.{first_frame};
ghost use Rattle.run_prelude.specs.Prelude.{is_core, core_names, names, names_of, path_of, text_place, first_tree, tree_in, procedure_of, text_code, prelude_codes, prelude_spent};
ghost use Rattle.run_prelude.specs.Spent.{UnlessMemory};

use base_data::datum::Datum;
use base_data::fault::{Bare, BareStop, Fault, FaultKind, Stop};
use base_data::imported_name::ImportedName;
use base_data::items::Items;
use base_data::library::LibName;
use base_data::map::new_map;
use base_data::memory::Memory;
use base_data::name::{CodeNo, FrameNo, Name};
use base_data::op::names::{
    EXISTS, FILTER, FIND, FOLD_LEFT, FOLD_RIGHT, FOR_ALL, FOR_EACH, MAP, MEMP, REMP,
};
use base_data::op::{NAME_COUNT, Op, op_text};
use base_data::span::Span;
use base_data::symbol::Symbol;
use base_fuel::fuel::Unspent;
use core_language::code::{Code, Core, Lambda};
use core_language::formals::Formals;
use expand_forms::expander::Expander;
use expand_forms::site::Site;
use expand_forms::tally::Tally;
use expand_standing::means::{Counts, Means};
use expand_standing::ready::ReadyRecords;
use expand_standing::start::{Environment, Supplies};
use load_builtin::exports::exports;
use load_builtin::prelude::prelude_source;
use read_reader::read::read_all;
use std::alloc::Global;
use std::rc::Rc;
use std::sync::ledger::Ledger;
use stx_object::syn::Syn;

// The procedures that have a text, in the order of their codes.
const PROCEDURES: [Op; 10] = [
    Op(MAP),
    Op(FOR_EACH),
    Op(FOR_ALL),
    Op(EXISTS),
    Op(FILTER),
    Op(REMP),
    Op(FIND),
    Op(MEMP),
    Op(FOLD_LEFT),
    Op(FOLD_RIGHT),
];

/// The names of `(rnrs)`, but those that the derived library defines.
fn names(alloc: Global) -> Result<Items<ImportedName>, Memory>
    ensures { IfOk result (λ es. es ≡ names) }
{
    let mut parts = Items::new(alloc);
    parts.push(Symbol::new(alloc, "rnrs")?)?;
    names_of(alloc, &LibName::User(parts))
}

#[tactic(auto, unfolding(crate::specs::Prelude::names_of))]
fn names_of(alloc: Global, library: &LibName) -> Result<Items<ImportedName>, Memory>
    ensures { IfOk result (λ es. es ≡ names_of library.now) }
{
    core_names(alloc, exports(alloc, library)?)
}

fn core_names(
    alloc: Global,
    exported: Option<Items<ImportedName>>,
) -> Result<Items<ImportedName>, Memory>
    ensures { IfOk result (λ es. es ≡ core_names exported) }
{
    match exported {
        None => Ok(Items::new(alloc)),
        Some(all) => only_core(alloc, all.as_slice()),
    }
}

fn only_core(alloc: Global, all: &[ImportedName]) -> Result<Items<ImportedName>, Memory>
    ensures { IfOk result (λ es. es ≡ filter (λ e. is_core e) all.now) }
{
    let mut names = Items::new(alloc);
    for name in all {
        if *name.label.0.library == LibName::Core {
            names.push(name.share()?)?;
        }
    }
    Ok(names)
}

// The report name of an op; past the last there is none.
fn name_of(op: &Op) -> &'static str
    ensures { result.now ≡ op_text op.now.0 }
{
    if op.0 < NAME_COUNT { op_text(op) } else { "" }
}

fn path_of(alloc: Global, op: &Op) -> Result<Symbol, Memory>
    ensures { IfOk result (λ p. p ≡ path_of op.now.0) }
{
    let mut path = String::new(alloc);
    path.push_str("(prelude ")?;
    path.push_str(name_of(op))?;
    path.push_str(")")?;
    Symbol::from_string(path)
}

fn text_place(alloc: Global, op: &Op) -> Result<Span, Memory>
    ensures { IfOk result (λ s. s ≡ text_place op.now.0) }
{
    let file = path_of(alloc, op)?;
    Ok(Span {
        file,
        from: 0,
        to: 0,
    })
}

/// The first datum as a tree.
fn first_tree(alloc: Global, forms: &[Datum], place: &Span) -> Result<Syn, Stop>
    ensures { Gives (λ t. t) result (first_tree place.now forms.now) }
{
    let Some(datum) = forms.first() else {
        return Err(Stop::Fault(Fault {
            kind: FaultKind::NoExpression,
            span: place.share()?,
            words: Items::new(alloc),
        }));
    };
    match Syn::of_datum(alloc, datum) {
        Ok(tree) => Ok(tree),
        Err(BareStop::Fault(Bare { kind, words })) => Err(Stop::Fault(Fault {
            kind,
            span: place.share()?,
            words,
        })),
        Err(BareStop::Memory) => Err(Stop::Memory),
    }
}

fn tree_in(alloc: Global, op: Op, place: &Span) -> Result<Syn, Stop>
    requires place { place.now ≡ text_place op.0 }
    ensures { Gives (λ t. t) result (tree_in op.0) }
{
    let text = match prelude_source(op) {
        Some(text) => text,
        None => &[],
    };
    let found = read_all(alloc, &place.file, text)?;
    first_tree(alloc, &found, place)
}

/// A procedure without arguments, whose body is the text.
fn procedure_of(alloc: Global, op: Op, body: Core) -> Result<Rc<Code>, Memory>
    ensures { IfOk result (λ c. c.value ≡ procedure_of op.0 body) }
{
    let library = Rc::new(alloc, LibName::Core)?;
    let number = CodeNo(Name {
        library,
        number: op.0 as u64,
    });
    let formals = Formals {
        required: Items::new(alloc),
        rest: None,
    };
    let mut cases = Vec::new(alloc);
    cases.push(Lambda { formals, body })?;
    let code = Rc::new(
        alloc,
        Code {
            number,
            cases,
            plain: true,
        },
    )?;
    Ok(code)
}

// The frame of the names that the texts mention.
fn frame(alloc: Global) -> Result<FrameNo, Memory>
    ensures { IfOk result (λ f. f ≡ first_frame library.Prelude) }
{
    let library = Rc::new(alloc, LibName::Prelude)?;
    Ok(FrameNo(Name { library, number: 0 }))
}

// What a call of the op means: a procedure whose body is its text.
#[tactic(auto, unfolding(crate::specs::Prelude::text_code))]
fn text_code<N: Ledger, L: Ledger>(
    alloc: Global,
    expander: &mut Expander<L>,
    op: &Op,
    means: &Means,
    counts: &mut Counts<N, L>,
) -> Result<Rc<Code>, Stop>
    requires none { earlier_in means.now.earlier ≡ [] }
    requires open { expander.old.failed ≡ false }
    ensures given { GivesAfter (λ c. c.value) result expander.new.state (text_code op.now.0 expander.old.state) }
    ensures open { OnOk result (expander.new.failed ≡ false) }
{
    let place = text_place(alloc, op)?;
    let tree = tree_in(alloc, *op, &place)?;
    let tree = tree.stamp(alloc, frame(alloc)?, counts.nodes)?;
    let site = Site {
        place: &place,
        level: 0,
        depth: 0,
    };
    let core = expander.expression(&tree, &site, means, counts)?;
    Ok(procedure_of(alloc, *op, core)?)
}

// An expander that is ready for the first text.
fn start<L: Ledger>(alloc: Global, unspent: Unspent<L>) -> Result<Expander<L>, Stop>
    ensures { Gives (λ e. e) result (Ok (ready library.Prelude [] names [])) }
{
    let records = ReadyRecords::new(alloc)?;
    let names = names(alloc)?;
    let environment = Environment {
        earlier: &records,
        needs: &[],
        imports: names.as_slice(),
    };
    let codes = new_map(alloc);
    let supplies = Supplies { codes, unspent };
    Expander::new(alloc, LibName::Prelude, &environment, supplies)
}

/// The codes of all texts, in the order of `PROCEDURES`. `means` has no records; its primitives are asked for nothing.
pub(crate) fn prelude_codes<N: Ledger, L: Ledger>(
    alloc: Global,
    means: &Means,
    tally: &mut Tally<N, L>,
) -> Result<Items<Rc<Code>>, Stop>
    requires { earlier_in means.now.earlier ≡ [] }
    ensures codes { Gives (λ cs. map (λ c. c.value) cs) result prelude_codes }
    ensures fuel { UnlessMemory result (tally.new.fuel ≡ tally.old.fuel + prelude_spent) }
{
    let Some(unspent) = tally.fuel.begin() else {
        return Err(Stop::Memory);
    };
    let mut expander = start(alloc, unspent)?;
    let codes = all_texts(alloc, &mut expander, &PROCEDURES, means, &mut tally.counts)?;
    expander.end(&mut tally.fuel);
    Ok(codes)
}

fn all_texts<N: Ledger, L: Ledger>(
    alloc: Global,
    expander: &mut Expander<L>,
    ops: &[Op],
    means: &Means,
    counts: &mut Counts<N, L>,
) -> Result<Items<Rc<Code>>, Stop>
    requires none { earlier_in means.now.earlier ≡ [] }
    requires open { expander.old.failed ≡ false }
    ensures { GivesAfter (λ cs. map (λ c. c.value) cs) result expander.new.state (each text_code [] (map (λ o. o.0) ops.now) expander.old.state) }
{
    let mut codes = Items::new(alloc);
    for op in ops {
        let code = text_code(alloc, expander, op, means, counts)?;
        codes.push(code)?;
    }
    Ok(codes)
}
