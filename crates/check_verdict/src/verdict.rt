//! What is said of a text.

ghost use Rattle.std.specs.Prelude.{◌≡◌, ◌++◌, IfOk, OnOk, codes};
ghost use Rattle.std.specs.String.{string_bytes};
ghost use Rattle.check_verdict.specs.Verdicts.{answer_text, why_text};

use base_data::memory::Memory;
use base_data::symbol::Symbol;
use std::alloc::{AllocError, Global};
use std::fmt::Write;

/// Why a text is no core text.
#[derive(Drop)]
pub enum Why {
    /// The line of this number, from 1, is none of core text, and each line before it is one.
    Line(u64),
    /// The name has two binders; it is the first that has a second one.
    Twice(Symbol),
    /// The name is mentioned outside the scope of a binder; it is the first such.
    Free(Symbol),
}

/// Whether a text is a core text.
#[derive(Drop)]
pub enum Verdict {
    Yes,
    No(Why),
}

/// The line that tells a verdict.
pub(crate) fn answer_text(alloc: Global, verdict: &Verdict) -> Result<String, Memory>
    ensures { IfOk result (λ text. string_bytes text ≡ answer_text verdict.now) }
{
    let mut text = String::new(alloc);
    match verdict {
        Verdict::Yes => text.push_str("yes\n")?,
        Verdict::No(why) => put_why(&mut text, why)?,
    }
    Ok(text)
}

fn put_why(text: &mut String, why: &Why) -> Result<(), AllocError>
    ensures { OnOk result (string_bytes text.new ≡ string_bytes text.old ++ why_text why.now) }
{
    match why {
        Why::Line(number) => write!(text, "no: line {number}\n"),
        Why::Twice(name) => put_name(text, "no: twice ", name),
        Why::Free(name) => put_name(text, "no: free ", name),
    }
}

fn put_name(text: &mut String, before: &str, name: &Symbol) -> Result<(), AllocError>
    ensures { OnOk result (string_bytes text.new ≡ string_bytes text.old ++ before.now ++ name.now ++ codes "\n") }
{
    text.push_str(before)?;
    text.push_str(name.as_str())?;
    text.push_str("\n")
}
