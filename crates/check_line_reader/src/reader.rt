//! Reading the lines of a text, one after another.

ghost use Rattle.std.specs.Prelude.{◌≡◌, ◌+◌, ◌<◌, ◌≤◌, ◌^◌, [], true, length, slice_index, IfOk, IfSome};
ghost use Rattle.base_data.specs.Gives.{Gives};
ghost use Rattle.check_line_reader.specs.Words.{begins_word, begins_number};
ghost use Rattle.read_lexer.specs.Tokens.{next_lexeme, lexeme};
ghost use Rattle.read_reader.specs.Read.{data_of, most_nesting};

use crate::progress::LineProgress;
use crate::recent::{Recent, Symbols};
use crate::words::{begins_number, begins_word, ends_word, word_size};
use base_data::atom::Atom;
use base_data::datum::Datum;
use base_data::fault::Stop;
use base_data::memory::Memory;
use base_data::symbol::Symbol;
use read_lexer::names::SymbolTable;
use read_lexer::start::start_of;
use read_lexer::token::{Bracket, Lexeme, Token};
use read_lexer::tokens::next_lexeme;
use read_machine::context::SourceContext;
use read_machine::keywords::Keywords;
use read_spelling::numbers::{integer_of, is_integer};
use read_spelling::source::byte_at;
use std::alloc::Global;
use std::marker::Model;

/// How many forms may be nested in a line.
pub const NESTING: u32 = 8192;

/// How many bytes of lines share their symbols.
const SHARING: usize = 1 << 20;

/// What lines are read with, so that each line makes none of it anew. What is read doesn't depend on it.
#[derive(Drop)]
pub struct LineReader {
    alloc: Global,
    /// The file that spans name: none.
    file: Symbol,
    keywords: Keywords,
    symbols: Symbols,
    /// How many bytes the lines have since the names were last let go.
    bytes: usize,
}

impl Model for LineReader {
    ghost use Rattle.std.specs.Prelude.{◌≡◌, []};

    ghost Value = { Unit {0} };

    ghost view = { λ r. tt };

    ghost invariant = { λ r. r.file ≡ [] };
}

impl LineReader {
    pub fn new(alloc: Global) -> Result<LineReader, Memory> {
        let file = Symbol::new(alloc, "")?;
        let keywords = Keywords::new(alloc)?;
        let symbols = Symbols {
            recent: Recent::new(alloc)?,
            names: SymbolTable::new(alloc),
        };
        Ok(LineReader {
            alloc,
            file,
            keywords,
            symbols,
            bytes: 0,
        })
    }

    /// The data that the bytes of a line spell.
    pub fn read(&mut self, line: &[u8]) -> Result<Vec<Datum>, Stop>
        requires { length line.now < 2 ^ 32 }
        ensures { Gives (λ v. v.items) result (data_of [] line.now most_nesting) }
    {
        self.count(line.len());
        let context = SourceContext {
            alloc: self.alloc,
            file: &self.file,
            keywords: &self.keywords,
            nesting: NESTING,
        };
        read_with(&context, &mut self.symbols, line)
    }

    // So many bytes are read. Symbols that no line has any more don't pile up.
    fn count(&mut self, bytes: usize) {
        if self.bytes >= SHARING {
            self.symbols.names = SymbolTable::new(self.alloc);
            self.bytes = 0;
        }
        self.bytes = self.bytes.saturating_add(bytes);
    }
}

// The data of a source, as `read_deep` reads them.
fn read_with(
    context: &SourceContext,
    symbols: &mut Symbols,
    bytes: &[u8],
) -> Result<Vec<Datum>, Stop>
    requires { length bytes.now < 2 ^ 32 }
    ensures { Gives (λ v. v.items) result (data_of context.now.file.now bytes.now context.now.nesting) }
{
    let mut progress = LineProgress::new(context.alloc);
    let mut at = start_of(context.alloc, context.file, bytes)?;
    loop {
        let Some(lexeme) = lexeme_behind(symbols, context.file, bytes, at)? else {
            return progress.finished(context);
        };
        at = lexeme.to;
        progress.take(context, lexeme)?;
    }
}

// The next lexeme. Behind a space it is that of the next byte.
fn lexeme_behind(
    symbols: &mut Symbols,
    file: &Symbol,
    bytes: &[u8],
    at: u32,
) -> Result<Option<Lexeme>, Stop>
    requires within { at ≤ length bytes.now }
    requires fits { length bytes.now < 2 ^ 32 }
    ensures gives { Gives (λ x. x) result (next_lexeme file.now bytes.now at) }
    ensures forward { IfOk result (λ found. IfSome found (λ l. (at ≤ l.from) × (l.from < l.to) × (l.to ≤ length bytes.now))) }
{
    if byte_at(bytes, at as usize) == b' ' {
        return lexeme_at(symbols, file, bytes, at + 1);
    }
    lexeme_at(symbols, file, bytes, at)
}

// The next lexeme. A parenthesis, a word and a number need no look at what a gap or another token may begin with.
fn lexeme_at(
    symbols: &mut Symbols,
    file: &Symbol,
    bytes: &[u8],
    at: u32,
) -> Result<Option<Lexeme>, Stop>
    requires within { at ≤ length bytes.now }
    requires fits { length bytes.now < 2 ^ 32 }
    ensures gives { Gives (λ x. x) result (next_lexeme file.now bytes.now at) }
    ensures forward { IfOk result (λ found. IfSome found (λ l. (at ≤ l.from) × (l.from < l.to) × (l.to ≤ length bytes.now))) }
{
    let first = byte_at(bytes, at as usize);
    if first == b'(' {
        return Ok(Some(token_of(Token::Open(Bracket::Round), at, 1)));
    }
    if first == b')' {
        return Ok(Some(token_of(Token::Close(Bracket::Round), at, 1)));
    }
    if begins_word(first) {
        return word_at(symbols, file, bytes, at);
    }
    if begins_number(first) {
        return number_at(symbols, file, bytes, at);
    }
    next_lexeme(&mut symbols.names, file, bytes, at)
}

// The next lexeme, which begins as an identifier does.
fn word_at(
    symbols: &mut Symbols,
    file: &Symbol,
    bytes: &[u8],
    at: u32,
) -> Result<Option<Lexeme>, Stop>
    requires within { at < length bytes.now }
    requires fits { length bytes.now < 2 ^ 32 }
    requires begins { begins_word (slice_index bytes.now at) ≡ true }
    ensures gives { Gives (λ x. x) result (next_lexeme file.now bytes.now at) }
    ensures forward { IfOk result (λ found. IfSome found (λ l. (at ≤ l.from) × (l.from < l.to) × (l.to ≤ length bytes.now))) }
{
    let (_, rest) = bytes.split_at(at as usize);
    let size = word_size(rest);
    let (word, others) = rest.split_at(size);
    if !ends_word(others) {
        return next_lexeme(&mut symbols.names, file, bytes, at);
    }
    match str::from_utf8(word) {
        Ok(text) => {
            let name = symbols.recent.named(text)?;
            Ok(Some(token_of(Token::Symbol(name), at, size as u32)))
        }
        Err(_) => next_lexeme(&mut symbols.names, file, bytes, at),
    }
}

// The next lexeme, which begins with a digit.
fn number_at(
    symbols: &mut Symbols,
    file: &Symbol,
    bytes: &[u8],
    at: u32,
) -> Result<Option<Lexeme>, Stop>
    requires within { at < length bytes.now }
    requires fits { length bytes.now < 2 ^ 32 }
    requires begins { begins_number (slice_index bytes.now at) ≡ true }
    ensures gives { Gives (λ x. x) result (next_lexeme file.now bytes.now at) }
    ensures forward { IfOk result (λ found. IfSome found (λ l. (at ≤ l.from) × (l.from < l.to) × (l.to ≤ length bytes.now))) }
{
    let (_, rest) = bytes.split_at(at as usize);
    let size = word_size(rest);
    let (word, others) = rest.split_at(size);
    if !ends_word(others) {
        return next_lexeme(&mut symbols.names, file, bytes, at);
    }
    if !is_integer(10, word) {
        return next_lexeme(&mut symbols.names, file, bytes, at);
    }
    match integer_of(10, word) {
        Some(number) => {
            let token = Token::Atom(Atom::Int(number));
            Ok(Some(token_of(token, at, size as u32)))
        }
        None => next_lexeme(&mut symbols.names, file, bytes, at),
    }
}

// A token of so many bytes.
fn token_of(token: Token, from: u32, size: u32) -> Lexeme
    requires { from + size < 2 ^ 32 }
    ensures { result ≡ lexeme token from (from + size) }
{
    Lexeme {
        token,
        from,
        to: from + size,
    }
}
