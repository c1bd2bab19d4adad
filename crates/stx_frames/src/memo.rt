//! Answers that were given, by what was asked.

ghost use Rattle.std.specs.Prelude.{◌≡◌, ◌⊎◌, [], IfOk, IfSome};
ghost use Rattle.stx_frames.specs.Kept.{KeptAnswer, kept, Has};

use base_data::items::Items;
use base_data::memory::Memory;
use base_data::name::Label;
use base_data::symbol::Symbol;
use indexmap::{IndexMap, IndexSet};
use std::alloc::Global;
use std::marker::Model;
use stx_tree::marks::Marks;
use stx_tree::stamp::Stamp;

/// What is asked of frames: the symbol of a leaf, its marks and its stamps.
#[derive(Drop)]
pub struct Question {
    pub symbol: Symbol,
    pub marks: Marks,
    pub stamps: Items<Stamp>,
}

/// What was asked: a symbol, and the numbers of the leaf's marks and stamps.
#[derive(PartialEq, Eq, Hash, Drop)]
pub struct Asked {
    pub symbol: Symbol,
    pub marks: usize,
    pub stamps: usize,
}

/// The answer, and the sizes of the frames that it depends on: those of the stamps that gave none.
/// What a frame gave once it gives again however it grows, so its size is no part.
#[derive(Drop)]
pub struct Answer {
    pub label: Option<Label>,
    pub sizes: Items<usize>,
}

/// The answers that were kept. Each list of marks and each list of stamps has a number, so that a
/// question is three words.
#[derive(Drop)]
pub struct Memo {
    marks: IndexSet<Marks>,
    stamps: IndexSet<Items<Stamp>>,
    answers: IndexMap<Asked, Answer>,
}

impl Model for Memo {
    ghost use Rattle.std.specs.Prelude.{List};
    ghost use Rattle.std.specs.Coded.{coded_list};
    ghost use Rattle.stx_frames.specs.Kept.{KeptAnswer, kept_code, kept_of, AreNumbered};

    ghost Value = { List KeptAnswer };

    ghost coded = { coded_list kept_code };

    ghost view = { λ m. kept_of m.stamps.keys m.answers.entries };

    ghost invariant = { λ m. AreNumbered m.stamps.keys m.answers.entries };
}

/// How many answers are kept at most. With lists of some hundred stamps they take a few dozen megabytes.
const LIMIT: usize = 2048;

impl Memo {
    /// No answers. It takes no memory.
    pub fn new(alloc: Global) -> Memo
        ensures { result ≡ [] }
    {
        Memo {
            marks: IndexSet::new(alloc),
            stamps: IndexSet::new(alloc),
            answers: IndexMap::new(alloc),
        }
    }

    /// What was kept for this question.
    pub fn find(&self, question: &Question) -> Result<Option<&Answer>, Memory>
        ensures { IfOk result (λ o. IfSome o (λ a. Has (kept question.now.symbol question.now.stamps a.now) self.now)) }
    {
        let Some(m) = self.marks.get_index_of(&question.marks) else {
            return Ok(None);
        };
        let Some(t) = self.stamps.get_index_of(&question.stamps) else {
            return Ok(None);
        };
        let symbol = question.symbol.share()?;
        let asked = Asked {
            symbol,
            marks: m,
            stamps: t,
        };
        Ok(self.answers.get(&asked))
    }

    /// Keeps an answer, in the place of an older one.
    fn put(&mut self, question: Question, answer: Answer) -> Result<(), Memory>
        ensures { (k : KeptAnswer) → Has k self.new → Has k self.old ⊎ (k ≡ kept question.symbol question.stamps answer) }
    {
        let Question {
            symbol,
            marks,
            stamps,
        } = question;
        let Ok((m, _)) = self.marks.insert_full(marks) else {
            return Err(Memory);
        };
        let Ok((t, _)) = self.stamps.insert_full(stamps) else {
            return Err(Memory);
        };
        let asked = Asked {
            symbol,
            marks: m,
            stamps: t,
        };
        match self.answers.insert(asked, answer) {
            Ok(_) => Ok(()),
            Err(_) => Err(Memory),
        }
    }

    /// Forgets what was kept where that is much.
    fn make_room(&mut self, alloc: Global)
        ensures { (k : KeptAnswer) → Has k self.new → Has k self.old }
    {
        if self.answers.len() >= LIMIT {
            *self = Memo::new(alloc);
        }
    }

    /// As `put`. A memo that is full forgets first, so that it stays small however much is asked.
    pub fn keep(&mut self, alloc: Global, question: Question, answer: Answer) -> Result<(), Memory>
        ensures { (k : KeptAnswer) → Has k self.new → Has k self.old ⊎ (k ≡ kept question.symbol question.stamps answer) }
    {
        self.make_room(alloc);
        self.put(question, answer)
    }
}
