use crate::notation::bytes_of;
use crate::rows;
use core_record_bytes::record::{decode, encode};
use std::alloc::Global;
use std::mem::forget;
use std::process::Abort;
use std::test::Fail;

// What is encoded of the record that the bytes spell; nothing where they spell none.
fn again(alloc: Global, bytes: &[u8]) -> Result<Option<Vec<u8>>, Fail> {
    let Some(record) = decode(alloc, bytes)? else {
        return Ok(None);
    };
    let encoded = encode(alloc, &record)?;
    forget(record);
    Ok(encoded)
}

fn told(alloc: Global, bytes: &[u8]) -> Result<&'static str, Fail> {
    match again(alloc, bytes)? {
        Some(encoded) => {
            if encoded.as_slice() == bytes {
                Ok("ok")
            } else {
                Ok("other bytes")
            }
        }
        None => Ok("no"),
    }
}

fn check(
    rt: &impl Abort,
    alloc: Global,
    before: &str,
    rows: &str,
    after: &str,
) -> Result<(), Fail> {
    for row in rows.split("\n") {
        let (row, _) = row.split_once(" ; ").ok_or("no description")?;
        let (wanted, words) = row.split_once(" ").ok_or("no bytes")?;
        let words = format!(in alloc; "{before} {words} {after}")?;
        let bytes = bytes_of(alloc, words.as_str())?;
        assert_eq!(rt; told(alloc, &bytes)?, wanted, "{row}");
    }
    Ok(())
}

#[test]
fn what_is_decoded_is_encoded_as_the_same_bytes(rt: HostRuntime) -> Result<(), Fail> {
    let alloc = rt.alloc();
    let line = ":p 3 n0 n0 n0 n0 n1 1";
    check(&rt, alloc, line, rows::CORE, "n0")?;
    let clause = ":p 3 n0 n0 n0 n0 n1 1 10 1 x1 n1";
    check(&rt, alloc, clause, rows::PATTERNS, "0 1 x2 :f w0 w9 n0")?;
    let instance = ":p 3 n0 n0 n0 n0 n1 1 9";
    check(&rt, alloc, instance, rows::TEMPLATES, ":f w0 w9 n0")?;
    check(&rt, alloc, ":p 3 n0 n0", rows::BINDINGS, "n0 n0 n0")?;
    check(&rt, alloc, ":p 3 n0 n0 n0", rows::ROWS, "n0 n0")?;
    check(&rt, alloc, "", rows::RECORDS, "")
}

// The words of a line of text between bars.
fn parted(row: &str) -> Result<(&str, &str), Fail> {
    Ok(row.split_once("|").ok_or("no bar")?)
}

// The record with this run line: words, those that open so many levels, those in the innermost, those that close as
// many levels, and words behind them.
fn nested(alloc: Global, count: usize, row: &str) -> Result<Vec<u8>, Fail> {
    let (before, row) = parted(row)?;
    let (open, row) = parted(row)?;
    let (inner, row) = parted(row)?;
    let (close, after) = parted(row)?;
    let mut words = String::new(alloc);
    words.push_str(":p 3 n0 n0 n0 n0 n1 1 ")?;
    words.push_str(before)?;
    for _ in 0..count {
        words.push_str(open)?;
    }
    words.push_str(inner)?;
    for _ in 0..count {
        words.push_str(close)?;
    }
    words.push_str(after)?;
    words.push_str(" n0")?;
    bytes_of(alloc, words.as_str())
}

#[test]
fn heights_have_limits(rt: HostRuntime) -> Result<(), Fail> {
    let alloc = rt.alloc();
    for row in rows::LIMITS.split("\n") {
        let (count, row) = parted(row)?;
        let count = count.parse::<usize>().ok().ok_or("no number")?;
        let bytes = nested(alloc, count, row)?;
        assert_eq!(rt; told(alloc, &bytes)?, "ok", "{row}");
        let bytes = nested(alloc, count.wrapping_add(1), row)?;
        assert_eq!(rt; told(alloc, &bytes)?, "no", "{row}");
    }
    Ok(())
}
