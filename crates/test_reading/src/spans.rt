use crate::rows::SPANS;
use base_data::datum::{Datum, Node};
use base_data::fault::{Fault, Stop};
use base_data::span::Span;
use base_data::symbol::Symbol;
use read_reader::read::read_all;
use std::alloc::Global;
use std::fmt::Write;
use std::process::Abort;
use std::test::Fail;

fn put_spelt(bytes: &mut Vec<u8>, spelt: &str) -> Result<(), Fail> {
    for byte in spelt.split(" ") {
        bytes.push(u8::from_str_radix(byte, 16).ok().ok_or("no byte")?)?;
    }
    Ok(())
}

// The bytes of a text, in which those between `‹` and `›` are spelt in hexadecimal.
fn bytes_of(alloc: Global, text: &str) -> Result<Vec<u8>, Fail> {
    let mut bytes = Vec::new(alloc);
    for part in text.split("‹") {
        let (spelt, rest) = part.split_once("›").unwrap_or(("", part));
        if !spelt.is_empty() {
            put_spelt(&mut bytes, spelt)?;
        }
        bytes.extend_from_slice(rest.as_bytes())?;
    }
    Ok(bytes)
}

fn put_span(out: &mut String, span: &Span) -> Result<(), Fail> {
    let from = span.from;
    let to = span.to;
    write!(out, "{from}-{to}")?;
    Ok(())
}

// The spans of a datum and its parts.
fn put_spans(out: &mut String, datum: &Datum) -> Result<(), Fail> {
    if let Some(span) = &datum.span {
        put_span(out, span)?;
    }
    match &datum.node {
        Node::Atom(_) | Node::Symbol(_) => Ok(()),
        Node::List(items, tail) => {
            out.push_str("(")?;
            for item in items {
                put_spans(out, item)?;
                out.push_str(" ")?;
            }
            out.push_str(". ")?;
            put_spans(out, tail)?;
            Ok(out.push_str(")")?)
        }
        Node::Vector(items) => {
            out.push_str("#(")?;
            for item in items {
                put_spans(out, item)?;
                out.push_str(" ")?;
            }
            Ok(out.push_str(")")?)
        }
    }
}

fn put_fault(out: &mut String, fault: &Fault) -> Result<(), Fail> {
    out.push_str(fault.kind.name())?;
    out.push_str(" ")?;
    put_span(out, &fault.span)
}

// The spans of the data of a source, or its first fault.
fn spans(alloc: Global, source: &[u8]) -> Result<String, Fail> {
    let file = Symbol::new(alloc, "f")?;
    let mut out = String::new(alloc);
    if source.len() > 100 {
        return Err(Fail::new("too long"));
    }
    match read_all(alloc, &file, source) {
        Ok(data) => {
            for datum in &data {
                if !out.is_empty() {
                    out.push_str(" ")?;
                }
                put_spans(&mut out, datum)?;
            }
        }
        Err(Stop::Fault(fault)) => put_fault(&mut out, &fault)?,
        Err(Stop::Memory) => return Err(Fail::new("no memory")),
    }
    Ok(out)
}

fn check(rt: &impl Abort, alloc: Global, rows: &str) -> Result<(), Fail> {
    for row in rows.split("\n\n") {
        let (source, wanted) = row.split_once("\n=> ").ok_or("no spans")?;
        let found = spans(alloc, bytes_of(alloc, source)?.as_slice())?;
        assert_eq!(rt; found.as_str(), wanted, "{source}");
    }
    Ok(())
}

#[test]
fn data_have_the_spans_of_their_spellings(rt: HostRuntime) -> Result<(), Fail> {
    check(&rt, rt.alloc(), SPANS)
}
