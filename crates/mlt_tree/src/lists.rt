//! Lists, each of which contracts see as the list of its items.

ghost use Rattle.std.specs.Prelude.{◌≡◌, [], ◌∷◌, ◌++◌, length, slice_get, OnOk, OnErr, IfOk, IfErr};
ghost use Rattle.std.specs.Option.{option_copied};

use crate::group::{Group, Prop};
use crate::tree::Attached;
use mlt_base::Text;
use std::alloc::{AllocError, Global};
use std::marker::Model;

/// Items in order, seen as their list. It is made from a `Vec` and given back as one without a copy.
#[derive(Drop)]
pub struct ItemList<T> {
    items: Vec<T>,
}

/// The properties of a group, in the order of their words.
pub type PropList = ItemList<Prop>;

/// Groups, in the order of their words.
pub type GroupList = ItemList<Group>;

/// Words, in order.
pub type WordList = ItemList<Text>;

/// Filters, in the order in which they act.
pub type FilterList = ItemList<Attached>;

impl<T> Model for ItemList<T> {
    ghost use Rattle.std.specs.Prelude.{List};
    ghost use Rattle.std.specs.Coded.{coded_list};

    ghost Value = { List T };

    ghost coded = { coded_list T.code };

    ghost view = { λ list. list.items.items };
}

impl<T> ItemList<T> {
    /// An empty list. It takes no memory.
    pub fn new(alloc: Global) -> ItemList<T>
        ensures { result ≡ [] }
    {
        ItemList {
            items: Vec::new(alloc),
        }
    }

    /// The list of these items, without a copy.
    pub fn from_vec(items: Vec<T>) -> ItemList<T>
        ensures { result ≡ items.items }
    {
        ItemList { items }
    }

    /// The items, without a copy.
    pub fn into_vec(self) -> Vec<T>
        ensures { result.items ≡ self }
    {
        let ItemList { items } = self;
        items
    }

    /// Puts an item behind the others, or hands it back for want of memory.
    pub fn push(&mut self, item: T) -> Result<(), (T, AllocError)>
        ensures pushed { OnOk result (self.new ≡ self.old ++ item ∷ []) }
        ensures handed_back { IfErr result (λ e. e.0 ≡ item) }
        ensures unchanged { OnErr result (self.new ≡ self.old) }
    {
        match self.items.push(item) {
            Ok(()) => Ok(()),
            Err(failed) => Err((failed.value, AllocError)),
        }
    }

    /// How many items there are.
    pub fn count(&self) -> usize
        ensures { result ≡ length self.now }
    {
        self.items.len()
    }

    /// The item at an index from 0, or none where there is none.
    pub fn item(&self, index: usize) -> Option<&T>
        ensures { option_copied result ≡ slice_get self.now index }
    {
        self.items.get(index)
    }

    /// The items, in order.
    pub fn as_slice(&self) -> &[T]
        ensures { result.now ≡ self.now }
    {
        self.items.as_slice()
    }
}

impl ItemList<Attached> {
    /// A copy, with its own memory.
    pub fn copy(&self) -> Result<FilterList, AllocError>
        ensures { IfOk result (λ list. list ≡ self.now) }
    {
        let mut all = Vec::with_capacity(*self.items.allocator(), self.items.len())?;
        for filter in self.items.as_slice() {
            all.push(filter.copy()?)?;
        }
        Ok(ItemList { items: all })
    }
}
