//! `core-check`: whether a file is a core text.
//!
//! The program takes the path of a file and writes `yes`, or `no` and why not, as `no: line 2`; `docs/USING.md` has all answers.
//! What it promises stands in `check_verdict`, which it calls over the system's files and streams.
#![tactic(auto)]

use base_outside::{HostFiles, HostSink};
use check_verdict::run::check_run;
use check_verdict::status::CheckStatus;
use std::alloc::Global;
use std::io::ErrorKind;
use std::process::ExitCode;
use std::{env, io};

fn arguments(rt: &HostRuntime, alloc: Global) -> io::Result<Vec<String>> {
    let mut words = Vec::new(alloc);
    for word in env::args(rt)?.skip(1) {
        words.push(word)?;
    }
    Ok(words)
}

// The words of the call. Where one isn't UTF-8 there are none, and so they are refused.
fn words_given(rt: &HostRuntime, alloc: Global) -> io::Result<Vec<String>> {
    match arguments(rt, alloc) {
        Err(error) if error.kind() == ErrorKind::InvalidData => Ok(Vec::new(alloc)),
        given => given,
    }
}

fn check_over_system(rt: &HostRuntime, words: &[String]) -> io::Result<CheckStatus> {
    let alloc = rt.alloc();
    let mut files = HostFiles::new(alloc, rt.clone()?);
    let mut out = HostSink::new(rt.stdout());
    let mut err = HostSink::new(rt.stderr());
    Ok(check_run(alloc, words, &mut files, &mut out, &mut err))
}

fn main(rt: HostRuntime) -> io::Result<ExitCode> {
    let alloc = rt.alloc();
    let Ok(words) = words_given(&rt, alloc) else {
        return Ok(ExitCode::from(CheckStatus::Memory.number()));
    };
    let status = match check_over_system(&rt, &words) {
        Ok(status) => status,
        Err(_) => CheckStatus::Memory,
    };
    Ok(ExitCode::from(status.number()))
}
