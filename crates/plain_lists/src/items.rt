ghost use Rattle.std.specs.Prelude.{◌≡◌, ◌↔◌, ◌++◌, ◌∷◌, ◌<◌, ◌^◌, List, [], length, IsTrue, OnOk, OnErr, IfOk, option_copied, option_to_list, slice_get};
ghost use Rattle.std.specs.Slice.Iter.{iter_rest};
ghost use Rattle.std.specs.Iterator.Adapters.{IterYieldsInOrder};

use crate::copied::{Copied, Same, copy_all};
use crate::want::Want;
use std::alloc::Global;
use std::marker::Model;
use std::slice::Iter;

/// A list that contracts see as the list of its elements.
#[derive(Drop)]
pub struct Items<T: Drop> {
    alloc: Global,
    items: Vec<T, Global>,
}

impl<T: Drop> Model for Items<T> {
    ghost Value = { List T };

    ghost view = { λ list. list.items.items };
}

impl<T: Drop> Items<T> {
    /// The empty list, which takes no memory.
    pub fn new(alloc: Global) -> Self
        ensures { result ≡ [] }
    {
        Items {
            alloc,
            items: Vec::new(alloc),
        }
    }

    /// The list of the elements of `items`, which it takes over as they stand.
    pub fn from_vec(alloc: Global, items: Vec<T, Global>) -> Self
        ensures { result ≡ items.items }
    {
        Items { alloc, items }
    }

    /// Adds one element at the end. Without memory for it the list stays as it was.
    pub fn push(&mut self, item: T) -> Result<(), Want>
        ensures ok { OnOk result (self.new ≡ self.old ++ item ∷ []) }
        ensures err { OnErr result (self.new ≡ self.old) }
    {
        self.items.push(item)?;
        Ok(())
    }

    pub fn len(&self) -> usize
        ensures { result ≡ length self.now }
    {
        self.items.len()
    }

    pub fn is_empty(&self) -> bool
        ensures { IsTrue result ↔ (self.now ≡ []) }
    {
        self.items.is_empty()
    }

    pub fn as_slice(&self) -> &[T]
        ensures { result.now ≡ self.now }
    {
        self.items.as_slice()
    }

    /// The elements in order, lent one by one.
    pub fn iter(&self) -> Iter<'_, T>
        ensures rest { iter_rest result ≡ self.now }
        ensures len { length (iter_rest result) ≡ length self.now }
        ensures bound { length (iter_rest result) < 2 ^ 64 }
        ensures runs { IterYieldsInOrder T }
    {
        self.items.iter()
    }

    pub fn get(&self, place: usize) -> Option<&T>
        ensures { option_copied result ≡ slice_get self.now place }
    {
        self.items.get(place)
    }

    /// The elements as a vector.
    pub fn into_vec(self) -> Vec<T, Global>
        ensures { result.items ≡ self }
    {
        let Items { alloc: _, items } = self;
        items
    }
}

impl<'a, T: Drop> IntoIterator for &'a Items<T> {
    type Item = &'a T;

    type IntoIter = Iter<'a, T>;

    ghost into_iter_gives = { λ list elements. (iter_rest elements ≡ list.now) × (length (iter_rest elements) < 2 ^ 64) × IterYieldsInOrder T };

    fn into_iter(self) -> Iter<'a, T> {
        self.items.iter()
    }
}

impl<T: Copied> Items<T> {
    /// The list of copies of the elements of a slice.
    pub fn from_slice(alloc: Global, items: &[T]) -> Result<Self, Want>
        ensures { IfOk result (λ made. made ≡ items.now) }
    {
        Ok(Items::from_vec(alloc, copy_all(alloc, items)?))
    }
}

impl<T: Copied> Copied for Items<T> {
    fn copy(&self) -> Result<Self, Want> {
        Items::from_slice(self.alloc, self.as_slice())
    }
}

impl<T: Same + Drop> Same for Items<T> {
    fn is_same(&self, other: &Self) -> bool {
        if self.items.len() != other.items.len() {
            return false;
        }
        for (place, mine) in self.items.iter().enumerate() {
            if !mine.is_same(&other.items[place]) {
                return false;
            }
        }
        true
    }
}

/// Adds the element at the end, if there is one. Without memory for it the list stays as it was.
pub fn extend_option<T: Drop>(list: &mut Vec<T, Global>, item: Option<T>) -> Result<(), Want>
    ensures ok { OnOk result (list.new.items ≡ list.old.items ++ option_to_list item) }
    ensures err { OnErr result (list.new.items ≡ list.old.items) }
{
    if let Some(item) = item {
        list.push(item)?;
    }
    Ok(())
}
