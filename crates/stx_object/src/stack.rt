//! Lists that share their ends: to put an element before a list takes one level, whoever else has the list.

ghost use Rattle.std.specs.Prelude.{◌≡◌, ◌==◌, [], ◌∷◌, length, map, drop, slice_get, IfOk, IfSome, IfNone, option_map};

use base_data::memory::Memory;
use std::alloc::Global;
use std::marker::Model;
use std::rc::Rc;

/// Elements, the newest first.
#[cycle(stack)]
pub(crate) struct Stack<T> {
    top: Option<Rc<StackLevel<T>>>,
}

#[cycle(stack)]
#[derive(Drop)]
struct StackLevel<T> {
    item: T,
    below: Stack<T>,
}

impl<T> Model for Stack<T> {
    ghost use Rattle.std.specs.Prelude.{List, length};

    ghost Value = { List T };

    ghost use Rattle.stx_object.specs.Stack.{items_of};

    ghost view = { λ s. items_of s.top };

    ghost size = { length };

    ghost use Rattle.stx_object.specs.StackFalls.{items_fall};
    ghost use Rattle.std.proofs.Common.{arith};

    ghost size_decreases = { λ s h. omega (arith, items_fall s.top) };
}

impl<T: Drop> Drop for Stack<T> {
    fn drop(mut self) {
        loop {
            let Stack { top } = self;
            match top {
                None => return,
                Some(level) => match Rc::into_inner(level) {
                    None => return,
                    Some(level) => {
                        let StackLevel { item: _, below } = level;
                        self = below;
                    }
                },
            }
        }
    }
}

impl<T: Drop> Stack<T> {
    pub(crate) fn none() -> Stack<T>
        ensures { result ≡ [] }
    {
        Stack { top: None }
    }

    pub(crate) fn is_none(&self) -> bool
        ensures { result ≡ (length self.now == 0) }
    {
        match &self.top {
            None => true,
            Some(_) => false,
        }
    }

    pub(crate) fn share(&self) -> Result<Stack<T>, Memory>
        ensures { IfOk result (λ s. s ≡ self.now) }
    {
        match &self.top {
            None => Ok(Stack { top: None }),
            Some(level) => {
                let level = level.clone()?;
                Ok(Stack { top: Some(level) })
            }
        }
    }

    pub(crate) fn with(&self, alloc: Global, item: T) -> Result<Stack<T>, Memory>
        ensures { IfOk result (λ s. s ≡ item ∷ self.now) }
    {
        let below = self.share()?;
        let level = Rc::new(alloc, StackLevel { item, below })?;
        Ok(Stack { top: Some(level) })
    }

    pub(crate) fn top(&self) -> Option<&T>
        ensures { option_map (λ x. x.now) result ≡ slice_get self.now 0 }
    {
        match &self.top {
            None => None,
            Some(level) => {
                let level: &StackLevel<T> = level;
                Some(&level.item)
            }
        }
    }

    /// The newest element, and those below it.
    pub(crate) fn split_top(&self) -> Option<(&T, &Stack<T>)>
        ensures some { IfSome result (λ p. self.now ≡ p.0.now ∷ p.1.now) }
        ensures none { IfNone result (self.now ≡ []) }
    {
        match &self.top {
            None => None,
            Some(level) => {
                let level: &StackLevel<T> = level;
                Some((&level.item, &level.below))
            }
        }
    }

    pub(crate) fn below(&self) -> Result<Stack<T>, Memory>
        ensures { IfOk result (λ s. s ≡ drop 1 self.now) }
    {
        match &self.top {
            None => Ok(Stack { top: None }),
            Some(level) => level.below.share(),
        }
    }

    /// The elements, the newest first.
    pub(crate) fn items(&self, alloc: Global) -> Result<Vec<&T>, Memory>
        ensures { IfOk result (λ v. map (λ x. x.now) v.items ≡ self.now) }
    {
        let mut items = Vec::new(alloc);
        let mut left = self;
        while let Some(level) = &left.top {
            let level: &StackLevel<T> = level;
            items.push(&level.item)?;
            left = &level.below;
        }
        Ok(items)
    }
}
