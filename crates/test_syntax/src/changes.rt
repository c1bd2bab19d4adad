ghost use Rattle.std.specs.Prelude.{◌≡◌, ◌<◌};

use crate::told::{Stamped, are_stamps, frame, has_marks, mark};
use base_data::memory::Memory;
use base_data::steps::Steps;
use base_data::symbol::Symbol;
use std::alloc::Global;
use std::marker::Brand;
use std::process::Abort;
use std::sync::ledger::{Blank, Ledger};
use std::test::Fail;
use stx_object::syn::Syn;
use stx_tree::marks::Marks;

#[derive(Clone, Copy)]
enum ChangeStep {
    Enter(u64),
    Leave(u64),
    LeaveWith(u64, u64),
    Stamp(u64),
}

fn one_step<N: Ledger>(
    alloc: Global,
    tree: &Syn,
    step: ChangeStep,
    nodes: &mut Steps<N>,
) -> Result<Syn, Memory> {
    match step {
        ChangeStep::Enter(number) => tree.enter(alloc, mark(alloc, number)?, nodes),
        ChangeStep::Leave(number) => tree.leave(alloc, mark(alloc, number)?, None, nodes),
        ChangeStep::LeaveWith(number, at) => {
            let at = frame(alloc, at)?;
            tree.leave(alloc, mark(alloc, number)?, Some(at), nodes)
        }
        ChangeStep::Stamp(at) => tree.stamp(alloc, frame(alloc, at)?, nodes),
    }
}

/// The leaf x without marks.
fn bare(alloc: Global) -> Result<Syn, Memory> {
    let x = Symbol::new(alloc, "x")?;
    Syn::whole_leaf(alloc, None, &x, Marks::new(alloc), Vec::new(alloc))
}

fn stepped<N: Ledger>(alloc: Global, steps: &[ChangeStep], blank: Blank) -> Result<Syn, Memory>
    requires name { blank.name ≡ N.name }
    requires parts { (blank.parts ≡ N.parts) × (0 < N.parts) }
{
    let mut nodes = Steps::<N>::open(blank);
    let mut tree = bare(alloc)?;
    for step in steps {
        tree = one_step(alloc, &tree, *step, &mut nodes)?;
    }
    Ok(tree)
}

/// What the steps make of the leaf x without marks.
fn after(alloc: Global, steps: &[ChangeStep]) -> Result<Syn, Memory> {
    stepped::<Brand>(alloc, steps, Blank::new(1))
}

fn is_stamped(alloc: Global, tree: &Syn, rows: &[Stamped]) -> Result<bool, Memory> {
    let stamps = tree.stamps(alloc)?;
    are_stamps(alloc, stamps.as_slice(), rows)
}

/// Steps on the leaf x without marks, and the marks and the stamps that it has then.
type ChangeRow = (
    &'static [ChangeStep],
    &'static [u64],
    &'static [Stamped<'static>],
);

fn gives(alloc: Global, change: &ChangeRow) -> Result<bool, Memory> {
    let tree = after(alloc, change.0)?;
    if !has_marks(alloc, &tree.marks(alloc)?, change.1)? {
        return Ok(false);
    }
    is_stamped(alloc, &tree, change.2)
}

fn check(rt: &impl Abort, alloc: Global, changes: &[ChangeRow]) -> Result<(), Fail> {
    for change in changes {
        assert!(rt; gives(alloc, change)?);
    }
    Ok(())
}

#[test]
fn leaves_change_as_the_algorithm_says(rt: HostRuntime) -> Result<(), Fail> {
    check(
        &rt,
        rt.alloc(),
        &[
            (&[ChangeStep::Enter(1)], &[1], &[]),
            (&[ChangeStep::Enter(1), ChangeStep::Leave(1)], &[], &[]),
            (&[ChangeStep::LeaveWith(1, 2)], &[1], &[(2, &[1])]),
            (
                &[ChangeStep::Enter(1), ChangeStep::LeaveWith(1, 2)],
                &[],
                &[],
            ),
            (
                &[
                    ChangeStep::Enter(1),
                    ChangeStep::Stamp(2),
                    ChangeStep::Leave(1),
                ],
                &[],
                &[(2, &[1])],
            ),
            (
                &[
                    ChangeStep::Enter(1),
                    ChangeStep::Leave(3),
                    ChangeStep::Stamp(4),
                ],
                &[3, 1],
                &[(4, &[3, 1])],
            ),
        ],
    )
}
