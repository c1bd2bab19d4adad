use base_data::symbol::Symbol;
use law_grammar::read_source;
use std::test::Fail;

#[test]
fn a_source_is_read(rt: HostRuntime) -> Result<(), Fail> {
    let alloc = rt.alloc();
    let file = Symbol::new(alloc, "f")?;
    if let Ok(data) = read_source(alloc, &file, b"a 'b ; c", 1) {
        assert_eq!(rt; data.len(), 2);
    } else {
        assert!(rt; false);
    }
    assert!(rt; read_source(alloc, &file, b"a 'b ; c", 0).is_err());
    Ok(())
}
