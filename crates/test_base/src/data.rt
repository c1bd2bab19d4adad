use base_data::atom::Atom;
use base_data::bytes::Bytes;
use base_data::fault::{Fault, FaultKind};
use base_data::fault_line::fault_line;
use base_data::items::Items;
use base_data::library::LibName;
use base_data::name::FreeNames;
use base_data::op::{NAME_COUNT, Op, op_text};
use base_data::place::line_and_column;
use base_data::span::Span;
use base_data::symbol::Symbol;
use std::alloc::Global;
use std::rc::Rc;
use std::test::Fail;

fn place_at(source: &[u8], offset: u32) -> (u64, u64) {
    if (offset as usize) <= source.len() {
        line_and_column(source, offset)
    } else {
        (0, 0)
    }
}

#[test]
fn places_count_every_line_end_and_every_character(rt: HostRuntime) {
    let source =
        b"a\nb\r\nc\rd\xC2\x85e\r\xC2\x85f\xE2\x80\xA8g\xE2\x80\xA9h\xCE\xBBi\xFF\xFEj".as_slice();
    let places: [(u32, (u64, u64)); 17] = [
        (0, (1, 1)),
        (1, (1, 2)),
        (2, (2, 1)),
        (3, (2, 2)),
        (4, (2, 3)),
        (5, (3, 1)),
        (7, (4, 1)),
        (10, (5, 1)),
        (11, (5, 2)),
        (14, (6, 1)),
        (18, (7, 1)),
        (22, (7, 3)),
        (23, (7, 4)),
        (24, (7, 5)),
        (25, (7, 5)),
        (26, (7, 6)),
        (28, (7, 8)),
    ];
    for (offset, place) in places {
        assert_eq!(rt; place_at(source, offset), place);
    }
}

fn words(alloc: Global, texts: &[&str]) -> Result<Items<Symbol>, Fail> {
    let mut words = Items::new(alloc);
    for text in texts {
        words.push(Symbol::new(alloc, text)?)?;
    }
    Ok(words)
}

#[test]
fn a_fault_line_has_place_number_name_and_words(rt: HostRuntime) -> Result<(), Fail> {
    let alloc = rt.alloc();
    let file = Symbol::new(alloc, "p\n.sps")?;
    let span = Span {
        file,
        from: 99,
        to: 99,
    };
    let kind = FaultKind::EllipsisLength;
    let fault = Fault {
        kind,
        span,
        words: words(alloc, &["2", "\u{7F}3"])?,
    };
    let line = fault_line(alloc, &fault, b"ab\nc")?;
    assert_eq!(rt;
        line.as_str(),
        "p\\xA;.sps:2:2: 36 EllipsisLength: 2 \\x7F;3\n"
    );
    Ok(())
}

#[test]
fn names_of_a_library_never_repeat(rt: HostRuntime) -> Result<(), Fail> {
    let alloc = rt.alloc();
    let mut parts = Items::new(alloc);
    parts.push(Symbol::new(alloc, "a")?)?;
    let mut names = FreeNames::new(Rc::new(alloc, LibName::User(parts))?);
    let mut others = FreeNames::new(Rc::new(alloc, LibName::Program)?);
    let first = names.next()?;
    let second = names.next()?;
    let other = others.next()?;
    assert_eq!(rt; first.number, 0);
    assert!(rt; first.same(&first.share()?));
    assert!(rt; !first.same(&second));
    assert!(rt; !first.same(&other));
    assert!(rt; other < first && first < second);
    Ok(())
}

#[test]
fn ops_are_numbered_in_the_order_of_the_libraries(rt: HostRuntime) {
    let names: [(u16, &str); 7] = [
        (0, "quote"),
        (18, "let"),
        (29, "*"),
        (53, "caar"),
        (80, "cddddr"),
        (191, "find"),
        (300, "parent-rtd"),
    ];
    for (number, name) in names {
        if number < NAME_COUNT {
            assert_eq!(rt; op_text(&Op(number)), name);
        }
    }
}

#[test]
fn atoms_are_shared_whole(rt: HostRuntime) -> Result<(), Fail> {
    let alloc = rt.alloc();
    let bytes = Bytes::from_vec(vec![in alloc; 1, 255]?)?;
    assert_eq!(rt; bytes.share()?.as_slice(), [1, 255].as_slice());
    assert!(rt; Atom::Bytes(bytes.share()?) == Atom::Bytes(bytes));
    assert!(rt; Atom::Int(-1).share()? == Atom::Int(-1));
    assert!(rt; Atom::Str(Symbol::new(alloc, "a")?) != Atom::Spelt(Symbol::new(alloc, "a")?));
    Ok(())
}
