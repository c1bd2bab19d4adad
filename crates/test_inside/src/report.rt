use base_data::items::Items;
use base_data::library::LibName;
use base_data::symbol::Symbol;
use load_report::report::{Fate, Told, report_text};
use std::alloc::Global;
use std::test::Fail;

fn told(alloc: Global, fate: Fate, parts: &[&str]) -> Result<Told, Fail> {
    let mut symbols = Items::new(alloc);
    for part in parts {
        symbols.push(Symbol::new(alloc, part)?)?;
    }
    let library = LibName::User(symbols);
    Ok(Told { fate, library })
}

#[test]
fn each_library_has_a_line_in_order(rt: HostRuntime) -> Result<(), Fail> {
    let alloc = rt.alloc();
    let mut libraries = Vec::new(alloc);
    libraries.push(told(alloc, Fate::Expanded, &["h"])?)?;
    libraries.push(told(alloc, Fate::Reused, &["util", "a b", "λ"])?)?;
    libraries.push(told(alloc, Fate::Expanded, &["a", "b"])?)?;
    let text = report_text(alloc, &libraries)?;
    assert_eq!(rt;
        text.as_str(),
        "expanded (h)\nreused (util a b λ)\nexpanded (a b)\n"
    );
    Ok(())
}
