ghost use Rattle.std.specs.Prelude.{◌≡◌, ◌<◌, ◌^◌, ◌==◌, Some, length, slice_get, vec_len, IfOk};

use crate::memory::Memory;
use std::alloc::Global;
use std::marker::Model;

/// A list of fewer than 2^32 items. Contracts see the list.
#[derive(Drop)]
pub struct Listing<T> {
    items: Vec<T>,
}

impl<T> Model for Listing<T> {
    ghost use Rattle.std.specs.Prelude.{List, ◌<◌, ◌^◌, vec_len};

    ghost Value = { List T };

    ghost view = { λ l. l.items.items };

    ghost invariant = { λ l. vec_len l.items < 2 ^ 32 };
}

impl<T> Listing<T> {
    /// The list of these items, in order. It takes no memory.
    pub fn of(items: Vec<T>) -> Self
        requires { vec_len items < 2 ^ 32 }
        ensures { result ≡ items.items }
    {
        Listing { items }
    }

    /// How many items there are.
    pub fn len(&self) -> u32
        ensures { result ≡ length self.now }
    {
        self.items.len() as u32
    }

    /// Whether there is no item.
    pub fn is_empty(&self) -> bool
        ensures { result ≡ (length self.now == 0) }
    {
        self.items.is_empty()
    }

    /// The item at a place, counted from 0.
    pub fn at(&self, i: u32) -> &T
        requires { i < length self.now }
        ensures { slice_get self.now i ≡ Some result.now }
    {
        &self.items[i as usize]
    }

    /// The items as a slice.
    pub fn as_slice(&self) -> &[T]
        ensures { result.now ≡ self.now }
    {
        self.items.as_slice()
    }
}

impl<T: Copy> Listing<T> {
    /// An equal list.
    pub fn copy(&self, alloc: Global) -> Result<Self, Memory>
        ensures { IfOk result (λ copy. copy ≡ self.now) }
    {
        Ok(Listing {
            items: Vec::from_slice(alloc, self.items.as_slice())?,
        })
    }
}
