use crate::notation::bytes_of;
use base_data::items::Items;
use base_data::symbol::Symbol;
use core_cache::entry::{Entry, decode_entry, encode_entry};
use core_cache::fits::fits;
use core_cache::place::place;
use core_cache::seal::{seal, unseal};
use load_files::found::Source;
use std::alloc::Global;
use std::mem::forget;
use std::test::Fail;

// A library with a source that was absent and its own, of one byte.
const ENTRY: &str =
    ":s/m.sls n2 :r :s n2 :r/m.sls 0 :s/m.sls 1 :x :s/m.sls 4 n1 :m n0 n0 n0 n0 n0 n0";

fn again(alloc: Global, bytes: &[u8]) -> Result<Option<Vec<u8>>, Fail> {
    let Some(entry) = decode_entry(alloc, bytes)? else {
        return Ok(None);
    };
    let encoded = encode_entry(alloc, &entry)?;
    forget(entry);
    Ok(encoded)
}

fn is_entry(alloc: Global, words: &str) -> Result<bool, Fail> {
    let bytes = bytes_of(alloc, words)?;
    match again(alloc, &bytes)? {
        Some(encoded) => Ok(encoded.as_slice() == bytes.as_slice()),
        None => Ok(false),
    }
}

#[test]
fn an_entry_is_decoded_as_it_was_encoded(rt: HostRuntime) -> Result<(), Fail> {
    let alloc = rt.alloc();
    assert!(rt; is_entry(alloc, ENTRY)?);
    assert!(rt; is_entry(alloc, ": n0 n0 : 0 n0 n0 n0 n0 n0 n0")?);
    assert!(rt; !is_entry(alloc, ": n0 n1 :a 2 : 0 n0 n0 n0 n0 n0 n0")?);
    assert!(rt; !is_entry(alloc, ": n0 n1 :a 0 : 0 n0 n0 n0 n0 n0 n0 0")?);
    Ok(())
}

fn roots(alloc: Global, words: &str) -> Result<Vec<Symbol>, Fail> {
    let mut roots = Vec::new(alloc);
    for word in words.split(" ") {
        roots.push(Symbol::new(alloc, word)?)?;
    }
    Ok(roots)
}

fn source(alloc: Global, path: &str, held: Option<&str>) -> Result<Source, Fail> {
    let path = Symbol::new(alloc, path)?;
    let held = match held {
        Some(text) => {
            let mut bytes = Vec::new(alloc);
            bytes.extend_from_slice(text.as_bytes())?;
            Some(Items::from_vec(bytes))
        }
        None => None,
    };
    Ok(Source { path, held })
}

fn entry(alloc: Global) -> Result<Entry, Fail> {
    let bytes = bytes_of(alloc, ENTRY)?;
    Ok(decode_entry(alloc, &bytes)?.ok_or("no entry")?)
}

#[test]
fn an_entry_fits_its_roots_and_sources_alone(rt: HostRuntime) -> Result<(), Fail> {
    let alloc = rt.alloc();
    let mut sources = Vec::new(alloc);
    sources.push(source(alloc, "r/m.sls", None)?)?;
    sources.push(source(alloc, "s/m.sls", Some("x"))?)?;
    sources.push(source(alloc, "s/m.sls", Some("y"))?)?;
    let own = roots(alloc, "r s")?;
    let others = roots(alloc, "s r")?;
    let entry = entry(alloc)?;
    assert!(rt; fits(&entry, &own, &sources, &[0, 1]));
    assert!(rt; !fits(&entry, &others, &sources, &[0, 1]));
    assert!(rt; !fits(&entry, &own, &sources, &[0, 2]));
    assert!(rt; !fits(&entry, &own, &sources, &[1, 0]));
    assert!(rt; !fits(&entry, &own, &sources, &[1]));
    assert!(rt; !fits(&entry, &own, &sources, &[0, 1, 2]));
    assert!(rt; !fits(&entry, &own, &sources, &[0, 7]));
    forget(entry);
    Ok(())
}

#[test]
fn a_place_is_the_digest_of_path_and_source(rt: HostRuntime) -> Result<(), Fail> {
    let alloc = rt.alloc();
    let place = place(alloc, "c", "m.sls", b"(library (m) (export) (import))")?;
    assert_eq!(rt;
        place.as_str(),
        "c/f466ef120b83487822aaaba1762ca00e5c7aaf12f0b02107426d656adf70a6c3.sxe"
    );
    Ok(())
}

#[test]
fn a_sealed_body_that_was_changed_is_no_body(rt: HostRuntime) -> Result<(), Fail> {
    let alloc = rt.alloc();
    let sealed = seal(alloc, b"body")?;
    assert_eq!(rt; unseal(&sealed), Some(b"body".as_slice()));
    for place in 0..sealed.len() {
        let (front, _) = sealed.split_at(place);
        assert!(rt; unseal(front).is_none());
        let mut changed = Vec::new(alloc);
        changed.extend_from_slice(&sealed)?;
        changed[place] = changed[place].wrapping_add(1);
        assert!(rt; unseal(&changed).is_none());
    }
    Ok(())
}
