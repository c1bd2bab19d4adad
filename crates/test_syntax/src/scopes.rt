use crate::frames::step;
use crate::leaves::row;
use crate::steps::{GIVEN, STEPS, STEPS_OVER};
use base_data::items::Items;
use base_data::library::LibName;
use std::alloc::Global;
use std::rc::Rc;
use std::test::Fail;
use stx_frames::given::GivenFrames;
use stx_frames::shared::SharedFrames;
use stx_scope::scope::Frames;

/// The library that is expanded, one that it needs, and one that no one needs.
#[derive(Drop)]
struct TestLibraries {
    own: Rc<LibName>,
    other: Rc<LibName>,
    left: Rc<LibName>,
}

impl TestLibraries {
    fn new(alloc: Global) -> Result<TestLibraries, Fail> {
        Ok(TestLibraries {
            own: Rc::new(alloc, LibName::Program)?,
            other: Rc::new(alloc, LibName::Prelude)?,
            left: Rc::new(alloc, LibName::Derived)?,
        })
    }

    fn named(&self, word: &str) -> &Rc<LibName> {
        match word {
            "own" => &self.own,
            "other" => &self.other,
            _ => &self.left,
        }
    }
}

fn check_step(
    alloc: Global,
    at: &TestLibraries,
    frames: &mut Frames,
    line: &str,
) -> Result<(), Fail> {
    let (asked, wanted) = line.split_once(" => ").ok_or("no answer")?;
    let (library, rest) = asked.split_once(" ").ok_or("no library")?;
    let (verb, words) = rest.split_once(" ").unwrap_or((rest, ""));
    let found = step(alloc, at.named(library), frames, verb, words)?;
    if found.as_str() == wanted {
        return Ok(());
    }
    Err(Fail::new(format!(in alloc; "{line}: {found}")?))
}

fn check_steps(
    alloc: Global,
    at: &TestLibraries,
    frames: &mut Frames,
    steps: &str,
) -> Result<(), Fail> {
    for line in steps.split("\n") {
        check_step(alloc, at, frames, line)?;
    }
    Ok(())
}

// (frames are owned where no call can stop: each way out that drops them costs the proof much)
fn check_new(alloc: Global, at: &TestLibraries) -> Result<(), Fail> {
    let mut frames = Frames::new(alloc);
    check_steps(alloc, at, &mut frames, STEPS)
}

#[test]
fn leaves_stand_for_what_frames_have(rt: HostRuntime) -> Result<(), Fail> {
    let alloc = rt.alloc();
    check_new(alloc, &TestLibraries::new(alloc)?)
}

fn given(alloc: Global, library: &Rc<LibName>) -> Result<GivenFrames, Fail> {
    let mut rows = Vec::new(alloc);
    for spelt in GIVEN.split(",") {
        rows.push(row(alloc, library, spelt)?)?;
    }
    Ok(GivenFrames::new(alloc, library.clone()?, rows.as_slice())?)
}

// Puts the frames of two libraries into a table, which takes none of them again.
fn put_both(alloc: Global, at: &TestLibraries, shared: &mut SharedFrames) -> Result<(), Fail> {
    let left = given(alloc, &at.left)?;
    let other = given(alloc, &at.other)?;
    shared.push(&left)?;
    shared.push(&other)?;
    if shared.push(&left).is_ok() || !shared.has(&at.other) {
        return Err("a library is there twice, or isn't there".into());
    }
    Ok(())
}

fn shared(alloc: Global, at: &TestLibraries) -> Result<Rc<SharedFrames>, Fail> {
    let mut shared = SharedFrames::new(alloc);
    put_both(alloc, at, &mut shared)?;
    Ok(Rc::new(alloc, shared)?)
}

// The mark of the second library alone.
fn second(alloc: Global) -> Result<Rc<Items<bool>>, Fail> {
    let mut needs = Items::new(alloc);
    needs.push(false)?;
    needs.push(true)?;
    Ok(Rc::new(alloc, needs)?)
}

fn check_over(
    alloc: Global,
    at: &TestLibraries,
    shared: Rc<SharedFrames>,
    needs: Rc<Items<bool>>,
) -> Result<(), Fail> {
    let mut frames = Frames::over(alloc, shared, needs);
    check_steps(alloc, at, &mut frames, STEPS_OVER)
}

#[test]
fn what_a_needed_library_gives_is_found_and_is_complete(rt: HostRuntime) -> Result<(), Fail> {
    let alloc = rt.alloc();
    let at = TestLibraries::new(alloc)?;
    check_over(alloc, &at, shared(alloc, &at)?, second(alloc)?)
}
