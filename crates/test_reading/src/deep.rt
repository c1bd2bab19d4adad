use base_data::fault::Stop;
use base_data::symbol::Symbol;
use read_printer::datum_text::datum_text;
use read_reader::read::read_deep;
use std::alloc::Global;
use std::test::Fail;

// So many of a text, then a, then so many of another.
fn nested(alloc: Global, count: usize, open: &str, close: &str) -> Result<String, Fail> {
    let mut text = String::new(alloc);
    for _ in 0..count {
        text.push_str(open)?;
    }
    text.push_str("a")?;
    for _ in 0..count {
        text.push_str(close)?;
    }
    Ok(text)
}

// What is printed of the one datum of a source, or the offset of its fault.
fn printed(alloc: Global, source: &str) -> Result<String, Fail> {
    let file = Symbol::new(alloc, "f")?;
    if source.len() > 100_000 {
        return Err(Fail::new("too long"));
    }
    match read_deep(alloc, &file, source.as_bytes(), 8_192) {
        Ok(data) => match data.as_slice() {
            [datum] => Ok(datum_text(alloc, datum)?),
            _ => Err(Fail::new("more data")),
        },
        Err(Stop::Fault(fault)) => Ok(format!(in alloc; "{}", fault.span.from)?),
        Err(Stop::Memory) => Err(Fail::new("no memory")),
    }
}

#[test]
fn data_nested_8192_deep_are_read_printed_and_dropped(rt: HostRuntime) -> Result<(), Fail> {
    let alloc = rt.alloc();
    let lists = nested(alloc, 8_192, "(", ")")?;
    assert_eq!(rt; printed(alloc, lists.as_str())?.as_str(), lists.as_str());
    let quotes = nested(alloc, 8_192, "'", "")?;
    let quoted = nested(alloc, 8_192, "(quote ", ")")?;
    assert_eq!(rt; printed(alloc, quotes.as_str())?.as_str(), quoted.as_str());
    let deeper = nested(alloc, 8_193, "(", ")")?;
    assert_eq!(rt; printed(alloc, deeper.as_str())?.as_str(), "8192");
    Ok(())
}
