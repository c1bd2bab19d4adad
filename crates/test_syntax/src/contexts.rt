use crate::told::{are_stamps, frame, has_marks, mark};
use base_data::memory::Memory;
use std::alloc::Global;
use std::test::Fail;
use stx_tree::change::Change;
use stx_tree::context::Context;
use stx_tree::marks::Marks;

/// The marks 0, 1 and so on, the last of them the newest.
fn counted(alloc: Global, count: u64) -> Result<Marks, Memory> {
    let mut marks = Marks::new(alloc);
    for number in 0..count {
        marks.push(mark(alloc, number)?)?;
    }
    Ok(marks)
}

fn are_listed(alloc: Global) -> Result<bool, Memory> {
    let marks = counted(alloc, 5)?;
    has_marks(alloc, &marks, &[4, 3, 2, 1, 0])
}

fn come_of_their_list(alloc: Global) -> Result<bool, Memory> {
    let marks = counted(alloc, 5)?;
    Ok(Marks::from_vec(alloc, marks.to_vec(alloc)?)? == marks)
}

fn are_shared(alloc: Global) -> Result<bool, Memory> {
    let marks = counted(alloc, 5)?;
    Ok(marks.share(alloc)? == marks)
}

/// Whether the mark of this number is first once so many are taken away.
fn is_first(alloc: Global, number: u64, taken: u64) -> Result<bool, Memory> {
    let mut marks = counted(alloc, 5)?;
    for _ in 0..taken {
        marks.pop();
    }
    Ok(marks.is_first(&mark(alloc, number)?))
}

/// Whether marks differ from what was shared before one was taken away.
fn part(alloc: Global) -> Result<bool, Memory> {
    let mut marks = counted(alloc, 5)?;
    let shared = marks.share(alloc)?;
    marks.pop();
    Ok(shared != marks)
}

#[test]
fn marks_are_kept_with_the_newest_first(rt: HostRuntime) -> Result<(), Fail> {
    let alloc = rt.alloc();
    assert!(rt; are_listed(alloc)?);
    assert!(rt; come_of_their_list(alloc)?);
    assert!(rt; are_shared(alloc)?);
    assert!(rt; is_first(alloc, 4, 0)?);
    assert!(rt; is_first(alloc, 3, 1)?);
    assert!(rt; part(alloc)?);
    Ok(())
}

fn enter(alloc: Global, context: &mut Context, number: u64) -> Result<(), Memory> {
    context.act(alloc, &Change::Enter(mark(alloc, number)?))
}

fn stamp(alloc: Global, context: &mut Context, number: u64) -> Result<(), Memory> {
    context.act(alloc, &Change::Stamp(frame(alloc, number)?))
}

fn leave(alloc: Global, context: &mut Context, number: u64, at: u64) -> Result<(), Memory> {
    let change = Change::Leave(mark(alloc, number)?, Some(frame(alloc, at)?));
    context.act(alloc, &change.share()?)
}

/// Enters the mark 1, stamps with the frame 2, and leaves the mark 3 with the frame 4.
fn changed(alloc: Global) -> Result<Context, Memory> {
    let mut context = Context::blank(alloc);
    enter(alloc, &mut context, 1)?;
    stamp(alloc, &mut context, 2)?;
    leave(alloc, &mut context, 3, 4)?;
    Ok(context)
}

fn is_marked(alloc: Global) -> Result<bool, Memory> {
    has_marks(alloc, changed(alloc)?.marks(), &[3, 1])
}

fn is_stamped(alloc: Global, context: Context) -> Result<bool, Memory> {
    let stamps = context.into_stamps();
    are_stamps(alloc, stamps.as_slice(), &[(4, &[3, 1]), (2, &[1])])
}

/// A context with the same stamps, made of their list.
fn made_of_lists(alloc: Global) -> Result<Context, Memory> {
    let stamps = changed(alloc)?.into_stamps();
    Ok(Context::new(Marks::new(alloc), stamps))
}

#[test]
fn contexts_change_as_the_algorithm_says(rt: HostRuntime) -> Result<(), Fail> {
    let alloc = rt.alloc();
    assert!(rt; is_marked(alloc)?);
    assert!(rt; is_stamped(alloc, changed(alloc)?.share(alloc)?)?);
    assert!(rt; is_stamped(alloc, made_of_lists(alloc)?)?);
    Ok(())
}
