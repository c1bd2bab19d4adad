//! Counting the fuel of expansions at no cost.

ghost use Rattle.std.specs.Prelude.{◌≡◌, ◌+◌, ◌<◌};

use std::marker::Model;
use std::mem::replace;
use std::sync::ledger::{Blank, Book, Ledger, Share};

/// What one expansion has spent of what a book counts. It takes no bytes, and only `tick` changes it.
#[derive(Drop)]
pub struct Spent<L: Ledger> {
    share: Share<L>,
}

impl<L: Ledger> Model for Spent<L> {
    ghost use Rattle.std.specs.Prelude.{ℕ, ◌<◌};

    ghost Value = { ℕ };

    ghost view = { λ s. s.share.amount };

    ghost invariant = { λ s. 0 < s.share.parts };
}

impl<L: Ledger> Spent<L> {
    /// One unit more, which the book counts too.
    pub fn tick(&mut self, book: &mut Book<L>)
        ensures { self.new ≡ self.old + 1 }
    {
        book.add(&mut self.share, 1);
    }
}

/// What an expansion spends that hasn't spent anything.
#[derive(Drop)]
pub struct Unspent<L: Ledger> {
    share: Share<L>,
    ghost some: { 0 < share.parts },
    ghost none: { share.amount ≡ 0 },
}

impl<L: Ledger> Unspent<L> {
    /// From here on it may spend.
    pub fn spend(self) -> Spent<L>
        ensures { result ≡ 0 }
    {
        let Unspent { share } = self;
        Spent { share }
    }
}

/// The fuel that expansions have spent, one after another.
#[derive(Drop)]
pub struct Fuel<L: Ledger> {
    share: Share<L>,
    // So many expansions may still begin.
    left: u64,
}

impl<L: Ledger> Model for Fuel<L> {
    ghost use Rattle.std.specs.Prelude.{ℕ, ◌+◌, ◌<◌};

    ghost Value = { ℕ };

    ghost view = { λ f. f.share.amount };

    ghost invariant = { λ f. f.left + 1 < f.share.parts };
}

/// A book, and the fuel that it counts.
#[derive(Drop)]
pub struct Counted<L: Ledger> {
    pub book: Book<L>,
    pub fuel: Fuel<L>,
}

impl<L: Ledger> Fuel<L> {
    /// Nothing is spent so far, and so many expansions may begin.
    pub fn open(blank: Blank, most: u64) -> Counted<L>
        requires name { blank.name ≡ L.name }
        requires parts { (blank.parts ≡ L.parts) × (most + 1 < L.parts) }
        ensures { result.fuel ≡ 0 }
    {
        let (book, share) = blank.open::<L>();
        let fuel = Fuel { share, left: most };
        Counted { book, fuel }
    }

    /// What an expansion spends. There is none where as many have begun as may.
    pub fn begin(&mut self) -> Option<Unspent<L>>
        ensures { self.new ≡ self.old }
    {
        if self.left == 0 {
            return None;
        }
        self.left -= 1;
        Some(Unspent {
            share: self.share.split_off(1, 0),
        })
    }

    /// What an expansion has spent is spent from here on.
    pub fn end(&mut self, spent: &mut Spent<L>)
        ensures { self.new ≡ self.old + spent.old }
    {
        let part = self.share.split_off(1, 0);
        let share = replace(&mut spent.share, part);
        self.share.merge(share);
    }
}
