//! The list type of the public fields: values in order, over a `Vec`.
#![tactic(auto)]

ghost use Rattle.std.specs.Prelude.{◌≡◌, ◌<◌, [], ◌∷◌, ◌++◌, IfOk, OnOk, OnErr, length, slice_index_or};

use std::alloc::{AllocError, Global};

/// Values in order. Contracts see it as the list `items_of`.
///
/// It has no model of its own, so that a tree may hold lists of trees.
#[derive(Drop)]
pub struct Sequence<T> {
    all: Vec<T>,
}

impl<T> Sequence<T> {
    ghost use Rattle.std.specs.Borrow.{sem};
    ghost use Rattle.prem_list.specs.Sequence.{items_of, room_of};
    ghost use Rattle.prem_list.specs.LendingItems.{LendsItems};
    ghost use Rattle.prem_list.specs.Lending.{LendsItem};

    /// The empty list, which keeps the allocator for what is pushed.
    pub fn new(alloc: Global) -> Sequence<T>
        ensures { items_of result ≡ [] }
    {
        Sequence {
            all: Vec::new(alloc),
        }
    }

    /// The empty list, with room for so many items. All memory that they need is taken here. It
    /// fails only for want of memory.
    pub fn with_room(alloc: Global, room: usize) -> Result<Sequence<T>, AllocError>
        ensures items { IfOk result (λ list. items_of list ≡ []) }
        ensures room { IfOk result (λ list. room_of list ≡ room) }
    {
        Ok(Sequence {
            all: Vec::with_capacity(alloc, room)?,
        })
    }

    /// The items of a vector, which is moved.
    pub fn from_vec(all: Vec<T>) -> Sequence<T>
        ensures { items_of result ≡ all.items }
    {
        Sequence { all }
    }

    /// Puts the item behind the others, where there is room for it. It takes no memory.
    pub fn put(&mut self, item: T)
        requires { length (items_of self.old) < room_of self.old }
        ensures items { items_of self.new ≡ items_of self.old ++ item ∷ [] }
        ensures room { room_of self.new ≡ room_of self.old }
    {
        self.all.push_reserved(item);
    }

    /// Puts the item behind the others. Where memory is out, the item is dropped and the list stays.
    pub fn push(&mut self, item: T) -> Result<(), AllocError>
    where
        T: Drop,
        ensures ok { OnOk result (items_of self.new ≡ items_of self.old ++ item ∷ []) }
        ensures err { OnErr result (items_of self.new ≡ items_of self.old) }
    {
        self.all.push(item)?;
        Ok(())
    }

    /// The items, for writing. Their number stays, and so does the room.
    pub fn items_mut(&mut self) -> &mut [T]
        ensures* writes_back { sem 𝓛 (LendsItems T.row self.entry result) }
        ensures value { result.now ≡ items_of self.old }
    {
        self.all.as_mut_slice()
    }

    /// The item at a place, to be changed there.
    pub fn item_mut(&mut self, at: usize) -> &mut T
        requires { at < length (items_of self.old) }
        ensures* writes_back { sem 𝓛 (LendsItem T.row self.entry at result) }
        ensures value { result.now ≡ slice_index_or (items_of self.old) at result.now }
    {
        &mut self.all[at]
    }

    /// The items, the first one first.
    pub fn items(&self) -> &[T]
        ensures { result.now ≡ items_of self.now }
    {
        self.all.as_slice()
    }
}
