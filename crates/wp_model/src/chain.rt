ghost use Rattle.std.specs.Prelude.{◌≡◌, ◌++◌, ◌∷◌, [], IfOk, IfSome, IfNone};
ghost use Rattle.wp_model.specs.Chain.{items_in};

use crate::memory::Memory;
use std::alloc::Global;
use std::marker::Model;
use std::mem;

/// Items in a chain of boxes, so that one more takes no memory. Contracts see the list of them, the newest last.
#[cycle(chain)]
pub struct Chain<T> {
    top: Link<T>,
}

/// What lies on top of a chain: nothing, or an item and the chain below it.
#[cycle(chain)]
pub enum Link<T> {
    End,
    More(T, Box<Chain<T>>),
}

impl<T> Model for Chain<T> {
    ghost use Rattle.std.specs.Prelude.{List, length};

    ghost Value = { List T };

    ghost use Rattle.wp_model.specs.Chain.{items_in};

    ghost view = { λ a. items_in a.top };

    ghost size = { length };

    ghost use Rattle.std.proofs.Common.{arith, length-append};

    ghost size_decreases = { λ a h. Prim.grind (arith, length-append) };
}

impl<T: Drop> Drop for Chain<T> {
    fn drop(mut self) {
        loop {
            let Chain { top } = self;
            match top {
                Link::End => return,
                Link::More(_, below) => self = Box::into_inner(below),
            }
        }
    }
}

/// Room for one item of a chain.
#[derive(Drop)]
pub struct Cell<T: Drop> {
    room: Box<Chain<T>>,
}

impl<T: Drop> Cell<T> {
    /// Empty room.
    pub fn new(alloc: Global) -> Result<Cell<T>, Memory> {
        let room = Box::new(alloc, Chain { top: Link::End })?;
        Ok(Cell { room })
    }
}

impl<T: Drop> Chain<T> {
    /// No items.
    pub fn new() -> Chain<T>
        ensures { result ≡ [] }
    {
        Chain { top: Link::End }
    }

    /// Appends an item. It takes no memory.
    pub fn push(&mut self, item: T, cell: Cell<T>)
        ensures { self.new ≡ self.old ++ item ∷ [] }
    {
        let Cell { mut room } = cell;
        *room = mem::replace(self, Chain { top: Link::End });
        *self = Chain {
            top: Link::More(item, room),
        };
    }

    fn into_top(self) -> Link<T>
        ensures { self ≡ items_in result }
    {
        let Chain { top } = self;
        top
    }

    /// Takes the newest item off, with its room. None comes exactly where there is no item.
    pub fn pop(&mut self) -> Option<(T, Cell<T>)>
        ensures some { IfSome result (λ taken. self.old ≡ self.new ++ taken.0 ∷ []) }
        ensures none { IfNone result (self.old ≡ []) }
        ensures left { IfNone result (self.new ≡ []) }
    {
        match mem::replace(self, Chain { top: Link::End }).into_top() {
            Link::End => None,
            Link::More(item, mut room) => {
                *self = mem::replace(&mut *room, Chain { top: Link::End });
                Some((item, Cell { room }))
            }
        }
    }

    /// The newest item, and the chain below it. None comes exactly where there is no item.
    pub fn split_last(&self) -> Option<(&T, &Chain<T>)>
        ensures some { IfSome result (λ parts. self.now ≡ parts.1.now ++ parts.0.now ∷ []) }
        ensures none { IfNone result (self.now ≡ []) }
    {
        match &self.top {
            Link::End => None,
            Link::More(item, below) => Some((item, below)),
        }
    }
}
