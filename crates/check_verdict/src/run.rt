//! All that the program does, over any files and sinks.

ghost use Rattle.std.specs.Prelude.{◌≡◌, ◌≢◌, ◌⊎◌, ◌<◌, ◌^◌, IfOk, Err, length, option_map};
ghost use Rattle.check_verdict.specs.Headline.{Sunk, asked, Puts, CheckHeadline, Complete};
ghost use Rattle.check_verdict.specs.Lines.{verdict_of};
ghost use Rattle.check_verdict.specs.Whole.{texts, file_named, if_file, status_of, told_no, of_verdict, of_reading};
ghost use Rattle.check_verdict.specs.Ended.{told, IsOf, Ended};
ghost use Rattle.check_verdict.specs.declared.run.Unanswered.TheVariants as unanswered;
ghost use Rattle.base_outside.specs.Causes.{Rose};
ghost use Rattle.base_outside.specs.Contents.{bytes};
ghost use Rattle.base_outside.specs.Files.{file_reading};

use crate::lines::{check_core, verdicts_are_by_cases};
use crate::status::CheckStatus;
use crate::verdict::{Verdict, answer_text};
use base_data::memory::Memory;
use base_outside::{FileAnswer, Files, OutsideError, Sink};
use std::alloc::Global;

/// The line that is written where the words are refused.
pub const USAGE: &[u8] = b"usage: core-check FILE\n";

/// How many bytes of a file are read at most.
pub const MOST_BYTES: usize = 268_435_456;

/// What is to be written of a file, and the status with it.
#[derive(Drop)]
pub struct FileReport {
    pub line: String,
    pub status: CheckStatus,
}

/// Why nothing is to be written.
#[derive(Clone, Copy, Debug, PartialEq, Eq)]
pub enum Unanswered {
    /// The file couldn't be read.
    Read,
    Memory,
}

impl From<Memory> for Unanswered {
    ghost from_gives = { λ _ e. e ≡ unanswered.Memory };

    fn from(_error: Memory) -> Unanswered {
        Unanswered::Memory
    }
}

// The file that the words name, where they are one FILE.
fn file_named(words: &[String]) -> Option<&str>
    ensures { option_map (λ x. x.now) result ≡ file_named (texts words.now) }
{
    match words {
        [file] => if_file(file.as_str()),
        _ => None,
    }
}

fn if_file(word: &str) -> Option<&str>
    ensures { option_map (λ x. x.now) result ≡ if_file word.now }
{
    if word.as_bytes().starts_with(b"-") {
        None
    } else {
        Some(word)
    }
}

fn status_of(verdict: &Verdict) -> CheckStatus
    ensures { result ≡ status_of verdict.now }
{
    match verdict {
        Verdict::Yes => CheckStatus::Yes,
        Verdict::No(_) => CheckStatus::No,
    }
}

fn of_bytes(alloc: Global, bytes: &[u8]) -> Result<FileReport, Memory>
    requires { length bytes.now < 2 ^ 32 }
    ensures { IfOk result (λ a. told a ≡ of_verdict (verdict_of bytes.now)) }
{
    let verdict = check_core(alloc, bytes)?;
    Ok(FileReport {
        line: answer_text(alloc, &verdict)?,
        status: status_of(&verdict),
    })
}

fn told_no(alloc: Global, line: &str) -> Result<FileReport, Memory>
    ensures { IfOk result (λ a. told a ≡ told_no line.now) }
{
    let mut text = String::new(alloc);
    text.push_str(line)?;
    Ok(FileReport {
        line: text,
        status: CheckStatus::No,
    })
}

// Files that tell nothing of their contents may give more bytes than were asked for.
fn if_short(alloc: Global, held: &[u8]) -> Result<FileReport, Memory>
    ensures { IfOk result (λ a. told a ≡ of_reading (bytes held.now)) }
{
    if held.len() > MOST_BYTES {
        told_no(alloc, "no: longer\n")
    } else {
        of_bytes(alloc, held)
    }
}

fn of_reading(alloc: Global, reading: &FileAnswer) -> Result<FileReport, Memory>
    ensures { IfOk result (λ a. told a ≡ of_reading (file_reading reading.now)) }
{
    match reading {
        FileAnswer::Bytes(bytes) => if_short(alloc, bytes),
        FileAnswer::Longer => told_no(alloc, "no: longer\n"),
        FileAnswer::Absent => told_no(alloc, "no: absent\n"),
    }
}

// Puts a line on a sink, for a status.
fn put_line<S: Sink>(sink: &mut S, line: &[u8], status: CheckStatus) -> CheckStatus
    ensures { Puts (record {
      before = S.told sink.old;
      after = S.told sink.new;
      faults_before = S.faults sink.old;
      faults_after = S.faults sink.new;
      puts_before = S.puts sink.old;
      puts_after = S.puts sink.new;
    }) line.now status result }
{
    match sink.put(line) {
        Ok(()) => status,
        Err(_) => CheckStatus::WriteFault,
    }
}

// What is to be written of a file.
fn prepare<F: Files>(alloc: Global, path: &str, files: &mut F) -> Result<FileReport, Unanswered>
    ensures gives { IfOk result (IsOf (F.told files.old) path.now) }
    ensures read { result ≡ Err Unanswered.Read → Rose (F.faults files.old) (F.faults files.new) }
{
    match files.read(path, MOST_BYTES) {
        Ok(reading) => answered(alloc, &reading),
        Err(OutsideError::Failed) => Err(Unanswered::Read),
        Err(OutsideError::Memory) => Err(Unanswered::Memory),
    }
}

fn answered(alloc: Global, reading: &FileAnswer) -> Result<FileReport, Unanswered>
    ensures gives { IfOk result (λ a. told a ≡ of_reading (file_reading reading.now)) }
    ensures unread { result ≢ Err Unanswered.Read }
{
    match of_reading(alloc, reading) {
        Ok(answer) => Ok(answer),
        Err(_) => Err(Unanswered::Memory),
    }
}

/// All that the program does. It reads the file that the words name, and writes on `out` the line that tells whether it is a
/// core text, and why not; or the usage line on `err`. There is one put at most, and none before all is known.
pub fn check_run<F: Files, O: Sink, E: Sink>(
    alloc: Global,
    words: &[String],
    files: &mut F,
    out: &mut O,
    err: &mut E,
) -> CheckStatus
    ensures headline { CheckHeadline (asked (F.told files.old) (F.faults files.old) (F.faults files.new)) (texts words.now)
        (record {
          before = O.told out.old;
          after = O.told out.new;
          faults_before = O.faults out.old;
          faults_after = O.faults out.new;
          puts_before = O.puts out.old;
          puts_after = O.puts out.new;
        })
        (record {
          before = E.told err.old;
          after = E.told err.new;
          faults_before = E.faults err.old;
          faults_after = E.faults err.new;
          puts_before = E.puts err.old;
          puts_after = E.puts err.new;
        }) result }
    ensures complete { Complete (F.told files.old) (texts words.now)
        (Rose (F.faults files.old) (F.faults files.new) ⊎ (Rose (O.faults out.old) (O.faults out.new) ⊎ Rose (E.faults err.old) (E.faults err.new)))
        result }
{
    verdicts_are_by_cases();
    run_words(alloc, words, files, out, err)
}

fn run_words<F: Files, O: Sink, E: Sink>(
    alloc: Global,
    words: &[String],
    files: &mut F,
    out: &mut O,
    err: &mut E,
) -> CheckStatus
    ensures { Ended (asked (F.told files.old) (F.faults files.old) (F.faults files.new)) (texts words.now)
        (record {
          before = O.told out.old;
          after = O.told out.new;
          faults_before = O.faults out.old;
          faults_after = O.faults out.new;
          puts_before = O.puts out.old;
          puts_after = O.puts out.new;
        })
        (record {
          before = E.told err.old;
          after = E.told err.new;
          faults_before = E.faults err.old;
          faults_after = E.faults err.new;
          puts_before = E.puts err.old;
          puts_after = E.puts err.new;
        }) result }
{
    let Some(path) = file_named(words) else {
        return put_line(err, USAGE, CheckStatus::Usage);
    };
    match prepare(alloc, path, files) {
        Ok(answer) => put_line(out, answer.line.as_bytes(), answer.status),
        Err(Unanswered::Read) => CheckStatus::ReadFault,
        Err(Unanswered::Memory) => CheckStatus::Memory,
    }
}
