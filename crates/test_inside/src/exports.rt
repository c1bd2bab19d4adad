use base_data::items::Items;
use base_data::library::LibName;
use base_data::op::{Op, names};
use base_data::symbol::Symbol;
use load_builtin::exports::{exports, op_name};
use std::alloc::Global;
use std::fmt::Write;
use std::process::Abort;
use std::test::Fail;

// The parts of a library's name and a place, and how many names the library exports, with the name at that place, the library
// of its label and its number; or that no library is given.
const ROWS: &str = "rnrs @ 281 => 282 exit core 281
rnrs @ 20 => 282 let-values derived 15
rnrs base @ 27 => 191 syntax-rules derived 0
rnrs lists @ 19 => 20 cons* core 210
rnrs control @ 2 => 4 do derived 11
rnrs syntax-case @ 15 => 16 _ core 15
rnrs exceptions @ 1 => 3 raise core 230
rnrs io simple @ 7 => 22 display core 239
rnrs hashtables @ 20 => 21 symbol-hash core 274
rnrs sorting @ 2 => 3 vector-sort! core 277
rnrs files @ 0 => 2 file-exists? core 278
rnrs programs @ 0 => 2 command-line core 280
rnrs records procedural @ 5 => 7 record-accessor core 287
rnrs records syntactic @ 3 => 12 fields core 292
rnrs unicode @ 0 => none
rnrs io @ 0 => none
 @ 0 => none";

fn library(alloc: Global, parts: &str) -> Result<LibName, Fail> {
    let mut items = Items::new(alloc);
    for part in parts.split(" ") {
        if !part.is_empty() {
            items.push(Symbol::new(alloc, part)?)?;
        }
    }
    Ok(LibName::User(items))
}

fn told(alloc: Global, library: &LibName, place: usize) -> Result<String, Fail> {
    let Some(names) = exports(alloc, library)? else {
        return Ok(String::from_str(alloc, "none")?);
    };
    let name = names.as_slice().get(place).ok_or("no name")?;
    let library = if *name.label.0.library == LibName::Core {
        "core"
    } else {
        "derived"
    };
    let count = names.as_slice().len();
    Ok(format!(in alloc;
        "{count} {} {library} {}",
        name.name.as_str(),
        name.label.0.number
    )?)
}

fn check(rt: &impl Abort, alloc: Global, rows: &str) -> Result<(), Fail> {
    for row in rows.split("\n") {
        let (asked, wanted) = row.split_once(" => ").ok_or("no answer")?;
        let (parts, place) = asked.split_once(" @ ").ok_or("no place")?;
        let place = place.parse::<usize>().ok().ok_or("no number")?;
        let found = told(alloc, &library(alloc, parts)?, place)?;
        assert_eq!(rt; found.as_str(), wanted, "{asked}");
    }
    Ok(())
}

#[test]
fn the_libraries_export_their_names_and_no_other_is_given(rt: HostRuntime) -> Result<(), Fail> {
    let alloc = rt.alloc();
    check(&rt, alloc, ROWS)?;
    assert!(rt; exports(alloc, &LibName::Core)?.is_none());
    assert_eq!(rt; op_name(Op(names::CAR)), "car");
    Ok(())
}
