// Arrays that several values share.
ghost use Rattle.std.specs.Prelude.{◌≡◌, ◌⊎◌, ◌++◌, ◌∷◌, [], IfOk, IfSome, OnErr, OnOk, length, map, option_map, slice_get};
ghost use Rattle.std.specs.List.{AllZip};
ghost use Rattle.jv_data.specs.Held.{values_in};
ghost use Rattle.jv_data.specs.Shared.{items_in};
ghost use Rattle.jv_data.specs.View.{view};

use crate::Val;
use std::alloc::{AllocError, Global};
use std::rc::Rc;

/// Items with a reference count.
#[derive(Drop)]
pub struct Array<T> {
    items: Rc<Vec<T>>,
}

impl<T: Drop> Array<T> {
    /// The items, with reference count 1. It allocates the block of memory that holds the count.
    pub fn from_vec(alloc: Global, items: Vec<T>) -> Result<Array<T>, AllocError>
        ensures { IfOk result (λ a. items_in a ≡ items.items) }
    {
        Ok(Array {
            items: Rc::new(alloc, items)?,
        })
    }

    /// One more reference to the same items. It fails only if the reference count is at its maximum.
    pub fn share(&self) -> Result<Array<T>, AllocError>
        ensures { IfOk result (λ a. items_in a ≡ items_in self.now) }
    {
        Ok(Array {
            items: self.items.clone()?,
        })
    }

    /// The items, from first to last.
    pub fn as_slice(&self) -> &[T]
        ensures { result.now ≡ items_in self.now }
    {
        self.items.as_slice()
    }

    /// The number of items.
    pub fn len(&self) -> usize
        ensures { result ≡ length (items_in self.now) }
    {
        self.items.len()
    }
}

impl<T> Array<T> {
    pub(crate) fn allocator(&self) -> Global {
        *self.items.as_ref().allocator()
    }

    // The items, if this is the last reference to them. Otherwise there is one reference less.
    pub(crate) fn into_last(self) -> Option<Vec<T>>
        ensures { IfSome result (λ v. v.items ≡ items_in self) }
    {
        let Array { items } = self;
        Rc::into_inner(items)
    }

    // The items, if this is the only reference to them.
    pub(crate) fn if_only(&self) -> Option<&Vec<T>> {
        if Rc::strong_count(&self.items) == 1 {
            Some(self.items.as_ref())
        } else {
            None
        }
    }

    // The same, to change them.
    pub(crate) fn only(&mut self) -> Option<&mut Vec<T>> {
        Rc::get_mut(&mut self.items)
    }
}

impl<T: Clone + Drop> Array<T> {
    // The items themselves if they are not shared, otherwise a clone of each.
    fn into_vec(self) -> Result<Vec<T>, AllocError>
        ensures { IfOk result (λ v. (v.items ≡ items_in self) ⊎ AllZip T.is_clone (items_in self) v.items) }
    {
        let Array { items } = self;
        Rc::unwrap_or_clone(items)
    }
}

impl Array<Val> {
    /// The items, moved if they are not shared, otherwise copied one by one.
    pub fn into_values(self) -> Result<Vec<Val>, AllocError>
        ensures { IfOk result (λ v. map view v.items ≡ values_in self) }
    {
        Ok(self.into_vec()?)
    }

    /// The item at an index, counted from 0.
    pub fn get(&self, index: usize) -> Option<&Val>
        ensures { option_map (λ v. view v.now) result ≡ slice_get (values_in self.now) index }
    {
        self.items.get(index)
    }

    /// Appends an item. Shared items are copied first.
    pub fn push(&mut self, item: Val) -> Result<(), AllocError>
        ensures ok { OnOk result (values_in self.new ≡ values_in self.old ++ view item ∷ []) }
        ensures err { OnErr result (values_in self.new ≡ values_in self.old) }
    {
        Rc::make_mut(&mut self.items)?.push(item)?;
        Ok(())
    }
}
