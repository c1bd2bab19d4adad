//! `scheme-expand`: an R6RS library and `syntax-case` expander.
//!
//! The program takes the path of a top-level program (R6RS 8), expands it, and writes its core text;
//! `docs/USING.md` has its further words. For the file `p.sps` that holds `(import (rnrs base)) (define x 1) (+ x 2)` it writes
//!
//! ```text
//! (import (rnrs))
//! (define %/x/0 1)
//! (+ %/x/0 2)
//! ```
//!
//! and a program at fault gets the line of its first fault, as `p.sps:1:25: 21 Unbound: x`.
//!
//! What a run promises stands in `run_top`. This crate stands topmost: `system` calls it over the system's files and
//! streams, with all primitives.
#![tactic(auto)]

mod system;

use crate::system::run_over_system;
use run_top::status::Status;
use std::alloc::Global;
use std::io::ErrorKind;
use std::process::ExitCode;
use std::{env, io};

fn arguments(rt: &HostRuntime, alloc: Global) -> io::Result<Vec<String>> {
    let mut words = Vec::new(alloc);
    for word in env::args(rt)?.skip(1) {
        words.push(word)?;
    }
    Ok(words)
}

// The words of the call. Where one isn't UTF-8 there are none, and so they are refused.
fn words_given(rt: &HostRuntime, alloc: Global) -> io::Result<Vec<String>> {
    match arguments(rt, alloc) {
        Err(error) if error.kind() == ErrorKind::InvalidData => Ok(Vec::new(alloc)),
        given => given,
    }
}

fn main(rt: HostRuntime) -> io::Result<ExitCode> {
    let alloc = rt.alloc();
    let Ok(words) = words_given(&rt, alloc) else {
        return Ok(ExitCode::from(Status::Memory.number()));
    };
    let status = match run_over_system(&rt, &words) {
        Ok(status) => status,
        Err(_) => Status::Memory,
    };
    Ok(ExitCode::from(status.number()))
}
