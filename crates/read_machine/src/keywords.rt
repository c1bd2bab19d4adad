//! The symbols that abbreviations stand for.

ghost use Rattle.std.specs.Prelude.{◌≡◌, IfOk};
ghost use Rattle.read_machine.specs.Form.{keyword_of};

use base_data::memory::Memory;
use base_data::symbol::Symbol;
use read_lexer::token::Abbreviation;
use std::alloc::Global;
use std::marker::Model;

/// The symbols that abbreviations stand for (R6RS 4.3.5), so that all data of a source share each.
#[derive(Drop)]
pub struct Keywords {
    quote: Symbol,
    quasiquote: Symbol,
    unquote: Symbol,
    unquote_splicing: Symbol,
    syntax: Symbol,
    quasisyntax: Symbol,
    unsyntax: Symbol,
    unsyntax_splicing: Symbol,
}

impl Model for Keywords {
    ghost use Rattle.std.specs.Prelude.{◌≡◌};
    ghost use Rattle.read_machine.specs.Form.{keyword_of};
    ghost use Rattle.read_lexer.specs.declared.token.Abbreviation.TheVariants as abbreviation;

    ghost Value = { Unit {0} };

    ghost view = { λ k. tt };

    ghost invariant = { λ k. (k.quote ≡ keyword_of abbreviation.Quote) × (k.quasiquote ≡ keyword_of abbreviation.Quasiquote)
        × (k.unquote ≡ keyword_of abbreviation.Unquote) × (k.unquote_splicing ≡ keyword_of abbreviation.UnquoteSplicing)
        × (k.syntax ≡ keyword_of abbreviation.Syntax) × (k.quasisyntax ≡ keyword_of abbreviation.Quasisyntax)
        × (k.unsyntax ≡ keyword_of abbreviation.Unsyntax) × (k.unsyntax_splicing ≡ keyword_of abbreviation.UnsyntaxSplicing) };
}

impl Keywords {
    pub fn new(alloc: Global) -> Result<Keywords, Memory> {
        let quote = keyword(alloc, Abbreviation::Quote)?;
        let quasiquote = keyword(alloc, Abbreviation::Quasiquote)?;
        let unquote = keyword(alloc, Abbreviation::Unquote)?;
        let unquote_splicing = keyword(alloc, Abbreviation::UnquoteSplicing)?;
        let syntax = keyword(alloc, Abbreviation::Syntax)?;
        let quasisyntax = keyword(alloc, Abbreviation::Quasisyntax)?;
        let unsyntax = keyword(alloc, Abbreviation::Unsyntax)?;
        let unsyntax_splicing = keyword(alloc, Abbreviation::UnsyntaxSplicing)?;
        Ok(Keywords {
            quote,
            quasiquote,
            unquote,
            unquote_splicing,
            syntax,
            quasisyntax,
            unsyntax,
            unsyntax_splicing,
        })
    }

    /// The symbol that an abbreviation stands for.
    pub(crate) fn shared(&self, abbreviation: Abbreviation) -> Result<Symbol, Memory>
        ensures { IfOk result (λ s. s ≡ keyword_of abbreviation) }
    {
        self.symbol(abbreviation).share()
    }

    fn symbol(&self, abbreviation: Abbreviation) -> &Symbol
        ensures { result.now ≡ keyword_of abbreviation }
    {
        match abbreviation {
            Abbreviation::Quote => &self.quote,
            Abbreviation::Quasiquote => &self.quasiquote,
            Abbreviation::Unquote => &self.unquote,
            Abbreviation::UnquoteSplicing => &self.unquote_splicing,
            Abbreviation::Syntax => &self.syntax,
            Abbreviation::Quasisyntax => &self.quasisyntax,
            Abbreviation::Unsyntax => &self.unsyntax,
            Abbreviation::UnsyntaxSplicing => &self.unsyntax_splicing,
        }
    }
}

fn keyword(alloc: Global, abbreviation: Abbreviation) -> Result<Symbol, Memory>
    ensures { IfOk result (λ s. s ≡ keyword_of abbreviation) }
{
    Symbol::new(alloc, text_of(abbreviation))
}

fn text_of(abbreviation: Abbreviation) -> &'static str
    ensures { result.now ≡ keyword_of abbreviation }
{
    match abbreviation {
        Abbreviation::Quote => "quote",
        Abbreviation::Quasiquote => "quasiquote",
        Abbreviation::Unquote => "unquote",
        Abbreviation::UnquoteSplicing => "unquote-splicing",
        Abbreviation::Syntax => "syntax",
        Abbreviation::Quasisyntax => "quasisyntax",
        Abbreviation::Unsyntax => "unsyntax",
        Abbreviation::UnsyntaxSplicing => "unsyntax-splicing",
    }
}
