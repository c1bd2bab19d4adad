//! The lines of a text.

ghost use Rattle.std.specs.Prelude.{◌≡◌, ◌<◌, ◌+◌, ◌^◌, [], length, drop, IfOk, IfSome, option_map};
ghost use Rattle.std.specs.Str.{bytes_eq};
ghost use Rattle.check_verdict.specs.Answers.{Spells, Halts, Finds};
ghost use Rattle.check_verdict.specs.Judged.{Judged, VerdictsAre};
ghost use Rattle.check_verdict.specs.Lines.{line_end, lines_of, data_on, line_on, lines_on, first_free, known, of_lines, behind_first, verdict_of};
ghost use Rattle.check_verdict.specs.Survey.{Takes};
ghost use Rattle.check_verdict.specs.declared.survey.WalkHalt.TheVariants as halt;
ghost use Rattle.check_verdict.specs.declared.verdict.Verdict.{Verdict};
ghost use Rattle.check_grammar.specs.Text.{text_of};
ghost use Rattle.read_reader.specs.Read.{data_of, most_nesting};

use crate::names::NameSet;
use crate::primitives::Primitives;
use crate::survey::{Survey, WalkHalt};
use crate::verdict::{Verdict, Why};
use crate::walk::line_form;
use base_data::datum::Datum;
use base_data::fault::Stop;
use base_data::memory::Memory;
use base_data::symbol::Symbol;
use check_grammar::names::names_are_scanned;
use check_grammar::text::write_datum;
use check_line_reader::reader::LineReader;
use law_grammar::spellings_are_read_by_the_grammar;
use memchr::memchr;
use std::alloc::Global;

/// The line that a core text begins with.
const FIRST_LINE: &[u8] = b"(import (rnrs))\n";

// The data that the bytes of a line spell.
fn read_line(reader: &mut LineReader, line: &[u8]) -> Result<Vec<Datum>, WalkHalt>
    requires { length line.now < 2 ^ 32 }
    ensures { Spells result (data_of [] line.now most_nesting) }
{
    match reader.read(line) {
        Ok(data) => Ok(data),
        Err(Stop::Fault(_)) => Err(WalkHalt::Refused),
        Err(Stop::Memory) => Err(WalkHalt::Memory),
    }
}

// Whether the line is the text of the datum.
fn is_written(alloc: Global, datum: &Datum, line: &[u8]) -> Result<bool, Memory>
    ensures { IfOk result (λ b. b ≡ bytes_eq (text_of datum.now) line.now) }
{
    let mut text = String::with_capacity(alloc, line.len())?;
    write_datum(&mut text, datum)?;
    Ok(text.as_bytes() == line)
}

impl Survey {
    // The data of a line.
    fn data(
        &mut self,
        alloc: Global,
        primitives: &Primitives,
        data: &[Datum],
        line: &[u8],
    ) -> Result<(), WalkHalt>
        ensures { Takes result self.new (data_on line.now data.now self.old) }
    {
        let [datum] = data else {
            return Err(WalkHalt::Refused);
        };
        if !is_written(alloc, datum, line)? {
            return Err(WalkHalt::Refused);
        }
        line_form(self, primitives, datum)
    }

    // A line, without its end.
    fn line(
        &mut self,
        alloc: Global,
        primitives: &Primitives,
        reader: &mut LineReader,
        line: &[u8],
    ) -> Result<(), WalkHalt>
        requires { length line.now < 2 ^ 32 }
        ensures { Takes result self.new (line_on line.now self.old) }
    {
        match read_line(reader, line) {
            Ok(data) => self.data(alloc, primitives, &data, line),
            Err(halt) => Err(halt),
        }
    }
}

// The place of the first line end.
fn line_end(bytes: &[u8]) -> Option<usize>
    ensures place { result ≡ line_end bytes.now }
    ensures within { IfSome result (λ end. end < length bytes.now) }
{
    memchr(b'\n', bytes)
}

// What is behind the line that ends at a place.
fn behind_line(bytes: &[u8], end: usize) -> &[u8]
    requires { end < length bytes.now }
    ensures { result.now ≡ drop (end + 1) bytes.now }
{
    &bytes[end + 1..]
}

// The answer where a line is refused.
fn wrong_at(halt: WalkHalt, number: u64) -> Result<Option<u64>, Memory>
    ensures { Halts result halt number }
{
    match halt {
        WalkHalt::Refused => Ok(Some(number)),
        WalkHalt::Memory => Err(Memory),
    }
}

// The number of the first line that is none of core text; lines behind the first are numbered from 2.
fn find_wrong_line(alloc: Global, survey: &mut Survey, lines: &[u8]) -> Result<Option<u64>, Memory>
    requires { length lines.now < 2 ^ 32 }
    ensures { Finds result survey.new (lines_on 2 (lines_of lines.now) survey.old) }
{
    let primitives = Primitives::new(alloc)?;
    let mut reader = LineReader::new(alloc)?;
    wrong_line(alloc, &primitives, &mut reader, survey, lines)
}

// The same, with what lines are read with.
fn wrong_line(
    alloc: Global,
    primitives: &Primitives,
    reader: &mut LineReader,
    survey: &mut Survey,
    lines: &[u8],
) -> Result<Option<u64>, Memory>
    requires { length lines.now < 2 ^ 32 }
    ensures { Finds result survey.new (lines_on 2 (lines_of lines.now) survey.old) }
{
    let mut rest = lines;
    let mut number = 2;
    loop {
        if rest.is_empty() {
            return Ok(None);
        }
        let Some(end) = line_end(rest) else {
            return Ok(Some(number));
        };
        if let Err(halt) = survey.line(alloc, primitives, reader, &rest[..end]) {
            return wrong_at(halt, number);
        }
        rest = behind_line(rest, end);
        number += 1;
    }
}

// The first of the names that isn't defined.
#[tactic(auto, unfolding(crate::specs::Lines::first_free))]
fn first_free<'a>(free: &'a [Symbol], defined: &NameSet) -> Option<&'a Symbol>
    ensures { option_map (λ x. x.now) result ≡ first_free defined.now free.now }
{
    for name in free {
        if !defined.has(name) {
            return Some(name);
        }
    }
    None
}

// What is said of a text of which this is known.
fn verdict_known(survey: &Survey) -> Result<Verdict, Memory>
    ensures { IfOk result (λ v. v ≡ known survey.now) }
{
    if let Some(name) = &survey.second {
        return Ok(Verdict::No(Why::Twice(name.share()?)));
    }
    match first_free(survey.free.as_slice(), &survey.defined) {
        Some(name) => Ok(Verdict::No(Why::Free(name.share()?))),
        None => Ok(Verdict::Yes),
    }
}

/// What the definition says of a text is exactly what the cases of `specs/Judged` relate to it.
pub fn verdicts_are_by_cases()
    ensures { VerdictsAre }
{
    spellings_are_read_by_the_grammar();
    names_are_scanned();
}

/// Whether the bytes are a core text, and why not: the answer is the definition's, and exactly the one that the cases of
/// `specs/Judged` relate to the bytes.
pub(crate) fn check_core(alloc: Global, bytes: &[u8]) -> Result<Verdict, Memory>
    requires { length bytes.now < 2 ^ 32 }
    ensures gives { IfOk result (λ v. v ≡ verdict_of bytes.now) }
    ensures sound { IfOk result (Judged bytes.now) }
    ensures complete { (v : Verdict) → Judged bytes.now v → IfOk result (λ w. w ≡ v) }
{
    verdicts_are_by_cases();
    check_text(alloc, bytes)
}

// What is said of the lines behind the first.
fn verdict_behind(alloc: Global, survey: &mut Survey, lines: &[u8]) -> Result<Verdict, Memory>
    requires { length lines.now < 2 ^ 32 }
    ensures { IfOk result (λ v. v ≡ of_lines (lines_on 2 (lines_of lines.now) survey.old)) }
{
    match find_wrong_line(alloc, survey, lines) {
        Ok(Some(number)) => Ok(Verdict::No(Why::Line(number))),
        Ok(None) => verdict_known(survey),
        Err(lack) => Err(lack),
    }
}

fn check_lines(alloc: Global, lines: &[u8]) -> Result<Verdict, Memory>
    requires { length lines.now < 2 ^ 32 }
    ensures { IfOk result (λ v. v ≡ behind_first lines.now) }
{
    let mut survey = Survey::new(alloc);
    verdict_behind(alloc, &mut survey, lines)
}

fn check_text(alloc: Global, bytes: &[u8]) -> Result<Verdict, Memory>
    requires { length bytes.now < 2 ^ 32 }
    ensures { IfOk result (λ v. v ≡ verdict_of bytes.now) }
{
    match bytes.strip_prefix(FIRST_LINE) {
        Some(lines) => check_lines(alloc, lines),
        None => Ok(Verdict::No(Why::Line(1))),
    }
}
