//! The command, as `clap` reads it.

ghost use Rattle.std.specs.Prelude.{◌≡◌, IfOk, option_map, false};
ghost use Rattle.clap.specs.Words.{app_of, rows_of, found_of, first_of, rule_of, with_rule};
ghost use Rattle.run_command.specs.Command as spec;
ghost use Rattle.run_command.specs.Given.{given_of, is_on, seen};

use base_data::memory::Memory;
use clap::{Arg, ArgAction, ArgMatches, Command};
use std::alloc::Global;

/// The values that the words give.
#[derive(Drop)]
pub struct WordValues<'a> {
    pub root: Option<&'a str>,
    pub cache: Option<&'a str>,
    pub write: Option<&'a str>,
    pub make: Option<&'a str>,
    pub report: bool,
    pub program: Option<&'a str>,
}

/// The command: what it takes, and nothing else.
pub fn command<'a>(alloc: Global) -> Result<Command<'a>, Memory>
    ensures { IfOk result (λ c. app_of c ≡ spec.command) }
{
    let command = with(bare(alloc), option(alloc, "root"))?;
    let command = with(command, option(alloc, "cache"))?;
    let command = with(command, option(alloc, "write"))?;
    let command = with(command, option(alloc, "make"))?;
    let command = with(command, flag(alloc, "report"))?;
    with(command, positional(alloc, "program"))
}

fn bare<'a>(alloc: Global) -> Command<'a>
    ensures { app_of result ≡ spec.bare }
{
    Command::new(alloc, "scheme-expand")
        .no_binary_name(true)
        .disable_help_flag(true)
}

fn option<'a>(alloc: Global, name: &'a str) -> Arg<'a>
    ensures rule { rule_of result ≡ spec.option name.entry.now }
    ensures local { result.global ≡ false }
{
    Arg::new(alloc, name).long(name).action(ArgAction::Set)
}

fn flag<'a>(alloc: Global, name: &'a str) -> Arg<'a>
    ensures rule { rule_of result ≡ spec.flag name.entry.now }
    ensures local { result.global ≡ false }
{
    Arg::new(alloc, name).long(name).action(ArgAction::SetTrue)
}

fn positional<'a>(alloc: Global, name: &'a str) -> Arg<'a>
    ensures rule { rule_of result ≡ spec.positional name.entry.now }
    ensures local { result.global ≡ false }
{
    Arg::new(alloc, name).action(ArgAction::Set)
}

fn with<'a>(command: Command<'a>, arg: Arg<'a>) -> Result<Command<'a>, Memory>
    requires { arg.global ≡ false }
    ensures { IfOk result (λ c. app_of c ≡ with_rule (app_of command.entry) (rule_of arg.entry)) }
{
    let command = command.arg(arg)?;
    Ok(command)
}

/// The values that were found in the words.
pub(crate) fn values_given<'a>(matches: &ArgMatches<'a>) -> WordValues<'a>
    ensures { seen result ≡ given_of (rows_of (found_of matches.now)) }
{
    WordValues {
        root: value(matches, "root"),
        cache: value(matches, "cache"),
        write: value(matches, "write"),
        make: value(matches, "make"),
        report: is_on(value(matches, "report")),
        program: value(matches, "program"),
    }
}

fn value<'a>(matches: &ArgMatches<'a>, id: &str) -> Option<&'a str>
    ensures { option_map (λ s. s.now) result ≡ first_of id.now (rows_of (found_of matches.now)) }
{
    matches.get_str(id)
}

// Whether the value that was found for a flag says that it is there.
fn is_on(text: Option<&str>) -> bool
    ensures { result ≡ is_on (option_map (λ s. s.now) text.entry) }
{
    match text {
        Some(text) => text == "true",
        None => false,
    }
}
