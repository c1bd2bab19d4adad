//! Wraps: the changes that still have to reach the leaves of a tree.

ghost use Rattle.std.specs.Prelude.{◌≡◌, ◌==◌, [], ◌∷◌, ◌++◌, length, map, reverse, IfOk, IfSome};
ghost use Rattle.stx_tree.specs.Context.{LeafContext, blank, act, acts};

use crate::base::Base;
use base_data::memory::Memory;
use std::alloc::Global;
use std::marker::Model;
use std::rc::Rc;
use stx_tree::change::Change;

/// Changes, the first one first. Lists that begin alike share their beginning, and no changes take
/// no memory.
#[cycle(wrap)]
pub(crate) struct Wrap {
    last: Option<Rc<ChangeLink>>,
}

/// The last change, those before it, and what they all make of a leaf without marks and stamps.
#[cycle(wrap)]
#[derive(Drop)]
struct ChangeLink {
    before: Wrap,
    change: Change,
    made: Base,
}

impl Model for Wrap {
    ghost use Rattle.std.specs.Prelude.{List, length};
    ghost use Rattle.stx_tree.specs.declared.change.Change.{Change};

    ghost Value = { List Change };

    ghost use Rattle.stx_object.specs.Wrap.{pending, IsMade};

    ghost view = { λ w. pending w.last };

    ghost invariant = { λ w. IsMade w.last };

    ghost size = { length };

    ghost use Rattle.stx_object.specs.WrapFalls.{pending_falls};
    ghost use Rattle.std.proofs.Common.{arith};

    ghost size_decreases = { λ w h. omega (arith, pending_falls w.last) };
}

impl Drop for Wrap {
    /// A list may be of any length, so link after link goes, up to one that another list has too.
    fn drop(mut self) {
        loop {
            let Wrap { last } = self;
            match last {
                None => return,
                Some(link) => match Rc::into_inner(link) {
                    None => return,
                    Some(link) => {
                        let ChangeLink {
                            before,
                            change: _,
                            made: _,
                        } = link;
                        self = before;
                    }
                },
            }
        }
    }
}

impl Wrap {
    /// No changes. It takes no memory.
    pub(crate) fn none() -> Wrap
        ensures { result ≡ [] }
    {
        Wrap { last: None }
    }

    pub(crate) fn is_none(&self) -> bool
        ensures { result ≡ (length self.now == 0) }
    {
        match &self.last {
            None => true,
            Some(_) => false,
        }
    }

    /// Another owner of the same changes.
    pub(crate) fn share(&self) -> Result<Wrap, Memory>
        ensures { IfOk result (λ w. w ≡ self.now) }
    {
        match &self.last {
            None => Ok(Wrap { last: None }),
            Some(link) => {
                let link = link.clone()?;
                Ok(Wrap { last: Some(link) })
            }
        }
    }

    /// What these changes make of a leaf without marks and stamps.
    fn made(&self) -> Result<Base, Memory>
        ensures { IfOk result (λ b. b ≡ acts self.now blank) }
    {
        match &self.last {
            None => Ok(Base::blank()),
            Some(link) => link.made.share(),
        }
    }

    fn linked(&self, alloc: Global, change: Change, made: Base) -> Result<Wrap, Memory>
        requires { made ≡ act change (acts self.now blank) }
        ensures { IfOk result (λ w. w ≡ self.now ++ change ∷ []) }
    {
        let before = self.share()?;
        let link = Rc::new(
            alloc,
            ChangeLink {
                before,
                change,
                made,
            },
        )?;
        Ok(Wrap { last: Some(link) })
    }

    /// This change alone.
    pub(crate) fn one(alloc: Global, change: Change) -> Result<Wrap, Memory>
        ensures { IfOk result (λ w. w ≡ change ∷ []) }
    {
        let none = Wrap::none();
        let made = none.made()?;
        let made = made.act(alloc, &change)?;
        none.linked(alloc, change, made)
    }

    /// These changes, and then one more: a link before them. A leave right behind an enter of its own
    /// mark takes it back.
    pub(crate) fn with(&self, alloc: Global, change: Change) -> Result<Wrap, Memory>
        ensures { IfOk result (λ w. (c : LeafContext) → acts w c ≡ act change (acts self.now c)) }
    {
        if let Change::Leave(mark, _) = &change {
            if let Some(link) = &self.last {
                let link: &ChangeLink = link;
                if let Change::Enter(last) = &link.change {
                    if last.same(mark) {
                        return link.before.share();
                    }
                }
            }
        }
        let made = self.made()?;
        let made = made.act(alloc, &change)?;
        self.linked(alloc, change, made)
    }

    /// These changes, and then the outer ones. Where there are none of these, it is the outer list.
    pub(crate) fn then(&self, alloc: Global, outer: &Wrap) -> Result<Wrap, Memory>
        ensures { IfOk result (λ w. (c : LeafContext) → acts w c ≡ acts outer.now (acts self.now c)) }
    {
        if self.is_none() {
            return outer.share();
        }
        if let Some(change) = outer.only() {
            return self.with(alloc, change.share()?);
        }
        let mut changes = outer.changes(alloc)?;
        let mut wrap = self.share()?;
        while let Some(change) = changes.pop() {
            let change = change.share()?;
            wrap = wrap.with(alloc, change)?;
        }
        Ok(wrap)
    }

    /// The change, where it is the only one. Most lists that are put on a tree have one.
    fn only(&self) -> Option<&Change>
        ensures { IfSome result (λ c. self.now ≡ c.now ∷ []) }
    {
        match &self.last {
            None => None,
            Some(link) => {
                let link: &ChangeLink = link;
                if link.before.is_none() {
                    Some(&link.change)
                } else {
                    None
                }
            }
        }
    }

    /// The changes, the last one first.
    fn changes(&self, alloc: Global) -> Result<Vec<&Change>, Memory>
        ensures { IfOk result (λ v. reverse (map (λ c. c.now) v.items) ≡ self.now) }
    {
        let mut changes = Vec::new(alloc);
        let mut left = self;
        while let Some(link) = &left.last {
            let link: &ChangeLink = link;
            changes.push(&link.change)?;
            left = &link.before;
        }
        Ok(changes)
    }

    /// The marks and stamps of a leaf after these changes.
    pub(crate) fn context(&self, alloc: Global, base: &Base) -> Result<Base, Memory>
        ensures { IfOk result (λ b. b ≡ acts self.now base.now) }
    {
        if base.is_blank() {
            return self.made();
        }
        let mut changes = self.changes(alloc)?;
        let mut context = base.share()?;
        while let Some(change) = changes.pop() {
            context = context.act(alloc, change)?;
        }
        Ok(context)
    }
}
