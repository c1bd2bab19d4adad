//! What the tokens of a line have come to.

ghost use Rattle.std.specs.Prelude.{◌≡◌, ◌<◌, [], None, OnOk, IfOk};
ghost use Rattle.base_data.specs.Datum.{atom, symbol, nil};
ghost use Rattle.base_data.specs.Gives.{Gives};
ghost use Rattle.check_line_reader.specs.Progress.{whole, held, as_form, with_element, opened_in, IsForm, Tries};
ghost use Rattle.read_lexer.specs.Tokens.{lexeme};
ghost use Rattle.read_lexer.specs.declared.token.Token.TheVariants as token;
ghost use Rattle.read_machine.specs.Extent.{span_at, through};
ghost use Rattle.read_machine.specs.Form.{joined};
ghost use Rattle.read_machine.specs.Step.{state, same_bracket, step, step_by, finish};

use base_data::atom::Atom;
use base_data::datum::{Datum, Node};
use base_data::fault::Stop;
use base_data::items::Items;
use base_data::memory::Memory;
use base_data::span::Span;
use base_data::symbol::Symbol;
use read_lexer::token::{Bracket, Lexeme, Token};
use read_machine::context::SourceContext;
use read_machine::extent::{Extent, span_at};
use read_machine::partial::{OpenParts, OpenTail, Partial, ReaderState};
use read_machine::step::{finish, step};
use std::alloc::Global;
use std::mem;

/// A list whose end hasn't come, its elements so far, and no dot behind them.
#[derive(Drop)]
pub struct OpenList {
    pub opening: Extent,
    /// How many more forms may be opened inside it.
    pub room: u32,
    pub bracket: Bracket,
    pub items: Items<Datum>,
}

/// What the tokens so far have come to. Where the innermost open form is a list without a dot, it stands apart from what is
/// around it, so that an element is put into it where it is.
#[derive(Drop)]
pub struct LineProgress {
    pub around: ReaderState,
    pub list: Option<OpenList>,
}

// A token at these bytes.
fn lexeme_at(token: Token, at: Extent) -> Lexeme
    ensures { result ≡ lexeme token at.from at.to }
{
    let Extent { from, to } = at;
    Lexeme { token, from, to }
}

// From where one begins to where the other ends.
fn through(first: Extent, last: Extent) -> Extent
    ensures { result ≡ through first last }
{
    let from = first.from;
    let to = last.to;
    Extent { from, to }
}

// The form that the list is.
fn as_form(list: OpenList) -> Partial
    ensures { result ≡ as_form list }
{
    let OpenList {
        opening,
        room,
        bracket,
        items,
    } = list;
    let parts = OpenParts::List(bracket, items, OpenTail::Absent);
    Partial {
        opening,
        room,
        parts,
    }
}

// The form as such a list, or as it was where it is none.
fn list_in(form: Partial) -> Result<OpenList, Partial>
    ensures { IsForm result form }
{
    let Partial {
        opening,
        room,
        parts,
    } = form;
    match parts {
        OpenParts::List(bracket, items, OpenTail::Absent) => Ok(OpenList {
            opening,
            room,
            bracket,
            items,
        }),
        parts => Err(Partial {
            opening,
            room,
            parts,
        }),
    }
}

// A symbol with the span of its token.
fn symbol_at(file: &Symbol, name: Symbol, at: Extent) -> Result<Datum, Memory>
    ensures { IfOk result (λ d. d ≡ symbol (span_at file.now at) name) }
{
    let span = span_at(file, at)?;
    let node = Node::Symbol(name);
    Ok(Datum { span, node })
}

// An atom with the span of its token.
fn atom_at(file: &Symbol, value: Atom, at: Extent) -> Result<Datum, Memory>
    ensures { IfOk result (λ d. d ≡ atom (span_at file.now at) value) }
{
    let span = span_at(file, at)?;
    let node = Node::Atom(value);
    Ok(Datum { span, node })
}

// A list with this span.
fn listed(alloc: Global, span: Option<Span>, items: Items<Datum>) -> Result<Datum, Memory>
    ensures { IfOk result (λ d. d ≡ joined span items nil) }
{
    let mut items = items.into_vec();
    if items.is_empty() {
        let node = Node::Atom(Atom::Nil);
        return Ok(Datum { span, node });
    }
    items.shrink_to_fit();
    let end = Datum {
        span: None,
        node: Node::Atom(Atom::Nil),
    };
    let tail = Box::new(alloc, end)?;
    let node = Node::List(items, tail);
    Ok(Datum { span, node })
}

// The datum that the list is, which ends here, with the span of all of it.
fn ended(context: &SourceContext, list: OpenList, all: Extent) -> Result<Datum, Memory>
    ensures { IfOk result (λ d. d ≡ joined (span_at context.now.file.now all) list.items nil) }
{
    let span = span_at(context.file, all)?;
    listed(context.alloc, span, list.items)
}

impl OpenList {
    // The datum is the next element.
    fn put(&mut self, datum: Datum) -> Result<(), Memory>
        ensures { OnOk result (self.new ≡ with_element self.old datum) }
    {
        self.items.push(datum)
    }

    // A list that is opened inside it.
    fn opened(&self, alloc: Global, bracket: Bracket, at: Extent) -> OpenList
        requires { 0 < self.now.room }
        ensures { result ≡ opened_in self.now bracket at }
    {
        OpenList {
            opening: at,
            room: self.room - 1,
            bracket,
            items: Items::new(alloc),
        }
    }
}

fn same_bracket(one: Bracket, other: Bracket) -> bool
    ensures { result ≡ same_bracket one other }
{
    one == other
}

// Opens a list inside the innermost one, where it may be opened there.
fn opened(
    context: &SourceContext,
    around: &mut ReaderState,
    list: &mut OpenList,
    bracket: Bracket,
    at: Extent,
) -> Result<bool, Memory>
    ensures { Tries result (step_by context.now.file.now context.now.nesting (held around.old list.old) (token.Open bracket) at)
        (held around.old list.old) (held around.new list.new) }
{
    if list.room == 0 {
        return Ok(false);
    }
    let inner = list.opened(context.alloc, bracket, at);
    let outer = mem::replace(list, inner);
    around.stack.push(as_form(outer))?;
    Ok(true)
}

// Ends the innermost list, where it is an element of another list without a dot.
fn closed(
    context: &SourceContext,
    around: &mut ReaderState,
    list: &mut OpenList,
    bracket: Bracket,
    at: Extent,
) -> Result<bool, Memory>
    ensures { Tries result (step_by context.now.file.now context.now.nesting (held around.old list.old) (token.Close bracket) at)
        (held around.old list.old) (held around.new list.new) }
{
    if !same_bracket(bracket, list.bracket) {
        return Ok(false);
    }
    let Some(form) = around.stack.pop() else {
        return Ok(false);
    };
    match list_in(form) {
        Ok(outer) => {
            let inner = mem::replace(list, outer);
            let all = through(inner.opening, at);
            let datum = ended(context, inner, all)?;
            list.put(datum)?;
            Ok(true)
        }
        Err(form) => {
            around.stack.push(form)?;
            Ok(false)
        }
    }
}

impl LineProgress {
    /// Before the first token. It takes no memory.
    pub fn new(alloc: Global) -> LineProgress
        ensures { whole result ≡ state [] [] }
    {
        LineProgress {
            around: ReaderState::new(alloc),
            list: None,
        }
    }

    /// One more token.
    pub fn take(&mut self, context: &SourceContext, lexeme: Lexeme) -> Result<(), Stop>
        ensures { Gives (λ _. whole self.new) result (step context.now.file.now context.now.nesting (whole self.old) lexeme) }
    {
        let Lexeme { token, from, to } = lexeme;
        let at = Extent { from, to };
        match token {
            Token::Symbol(name) => self.symbol(context, name, at),
            Token::Atom(value) => self.atom(context, value, at),
            Token::Open(bracket) => self.open(context, bracket, at),
            Token::Close(bracket) => self.close(context, bracket, at),
            token => self.turn(context, lexeme_at(token, at)),
        }
    }

    /// The data, where the line ends.
    pub fn finished(mut self, context: &SourceContext) -> Result<Vec<Datum>, Stop>
        ensures { Gives (λ v. v.items) result (finish context.now.file.now (whole self).stack (whole self).done) }
    {
        self.join()?;
        finish(context, self.around)
    }

    // The innermost list stands with what is around it.
    fn join(&mut self) -> Result<(), Memory>
        ensures none { OnOk result (self.new.list ≡ None) }
        ensures all { OnOk result (self.new.around ≡ whole self.old) }
    {
        match mem::replace(&mut self.list, None) {
            Some(list) => self.around.stack.push(as_form(list)),
            None => Ok(()),
        }
    }

    // The innermost form stands apart, where it is a list without a dot.
    fn part(&mut self) -> Result<(), Memory>
        requires { self.old.list ≡ None }
        ensures { OnOk result (whole self.new ≡ self.old.around) }
    {
        let Some(form) = self.around.stack.pop() else {
            return Ok(());
        };
        match list_in(form) {
            Ok(list) => {
                self.list = Some(list);
                Ok(())
            }
            Err(form) => self.around.stack.push(form),
        }
    }

    // One more token, whatever it is.
    fn turn(&mut self, context: &SourceContext, lexeme: Lexeme) -> Result<(), Stop>
        ensures { Gives (λ _. whole self.new) result (step context.now.file.now context.now.nesting (whole self.old) lexeme) }
    {
        self.join()?;
        let before = mem::replace(&mut self.around, ReaderState::new(context.alloc));
        self.around = step(context, before, lexeme)?;
        self.part()?;
        Ok(())
    }

    fn symbol(&mut self, context: &SourceContext, name: Symbol, at: Extent) -> Result<(), Stop>
        ensures { Gives (λ _. whole self.new) result (step_by context.now.file.now context.now.nesting (whole self.old) (token.Symbol name) at) }
    {
        let Some(list) = &mut self.list else {
            return self.turn(context, lexeme_at(Token::Symbol(name), at));
        };
        let datum = symbol_at(context.file, name, at)?;
        list.put(datum)?;
        Ok(())
    }

    fn atom(&mut self, context: &SourceContext, value: Atom, at: Extent) -> Result<(), Stop>
        ensures { Gives (λ _. whole self.new) result (step_by context.now.file.now context.now.nesting (whole self.old) (token.Atom value) at) }
    {
        let Some(list) = &mut self.list else {
            return self.turn(context, lexeme_at(Token::Atom(value), at));
        };
        let datum = atom_at(context.file, value, at)?;
        list.put(datum)?;
        Ok(())
    }

    fn open(&mut self, context: &SourceContext, bracket: Bracket, at: Extent) -> Result<(), Stop>
        ensures { Gives (λ _. whole self.new) result (step_by context.now.file.now context.now.nesting (whole self.old) (token.Open bracket) at) }
    {
        if self.opens(context, bracket, at)? {
            return Ok(());
        }
        self.turn(context, lexeme_at(Token::Open(bracket), at))
    }

    // A list is opened inside the innermost one, where that stands apart.
    fn opens(
        &mut self,
        context: &SourceContext,
        bracket: Bracket,
        at: Extent,
    ) -> Result<bool, Memory>
        ensures { Tries result (step_by context.now.file.now context.now.nesting (whole self.old) (token.Open bracket) at) (whole self.old) (whole self.new) }
    {
        let Some(list) = &mut self.list else {
            return Ok(false);
        };
        opened(context, &mut self.around, list, bracket, at)
    }

    fn close(&mut self, context: &SourceContext, bracket: Bracket, at: Extent) -> Result<(), Stop>
        ensures { Gives (λ _. whole self.new) result (step_by context.now.file.now context.now.nesting (whole self.old) (token.Close bracket) at) }
    {
        if self.closes(context, bracket, at)? {
            return Ok(());
        }
        self.turn(context, lexeme_at(Token::Close(bracket), at))
    }

    // The innermost list ends, where it stands apart and is an element of another list without a dot.
    fn closes(
        &mut self,
        context: &SourceContext,
        bracket: Bracket,
        at: Extent,
    ) -> Result<bool, Memory>
        ensures { Tries result (step_by context.now.file.now context.now.nesting (whole self.old) (token.Close bracket) at) (whole self.old) (whole self.new) }
    {
        let Some(list) = &mut self.list else {
            return Ok(false);
        };
        closed(context, &mut self.around, list, bracket, at)
    }
}
