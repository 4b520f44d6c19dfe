// Lists of names that several objects share.
ghost use Rattle.std.specs.Prelude.{◌≡◌, [], IfOk, IfSome, IsTrue, map, string_bytes};
ghost use Rattle.jv_data.specs.Drafts.{held_in, IsIn};
ghost use Rattle.jv_data.specs.Names.{IsAt};

use super::names::Names;
use super::slots::Slots;
use std::alloc::{AllocError, Global};
use std::rc::Rc;

// How many lists are known at a time.
const KNOWN: usize = 8;

/// The names of objects that were made before. Other objects with the same names share them.
#[derive(Drop)]
pub struct KnownNames {
    lists: Vec<Known>,
    oldest: usize,
}

// A list of names, and the index of each name in the order in which the names came in a text. The indices only tell where a
// name may be.
#[derive(Drop)]
struct Known {
    names: Rc<Names>,
    order: Vec<usize>,
}

impl KnownNames {
    /// No names. It takes no memory.
    pub fn new(alloc: Global) -> KnownNames {
        KnownNames {
            lists: Vec::new(alloc),
            oldest: 0,
        }
    }

    // A known list of these names. If there is none, this list is known from now on.
    pub(crate) fn known(&mut self, names: &Rc<Names>) -> Option<Rc<Names>>
        ensures { IfSome result (λ list. map string_bytes list.value.texts.items ≡ map string_bytes names.now.value.texts.items) }
    {
        match find(self.lists.as_slice(), names.as_slice()) {
            Some(list) => match list.clone() {
                Ok(list) => Some(list),
                Err(_) => None,
            },
            None => {
                let _ = self.add(names);
                None
            }
        }
    }

    // A list that finds no memory is not added.
    fn add(&mut self, names: &Rc<Names>) -> Result<(), AllocError> {
        let alloc = *self.lists.allocator();
        let len = names.as_slice().len();
        let mut order = Vec::with_capacity(alloc, len)?;
        for index in 0..len {
            order.push(index)?;
        }
        let known = Known {
            names: names.clone()?,
            order,
        };
        if self.lists.len() < KNOWN {
            self.lists.push(known)?;
        } else {
            let index = self.oldest % KNOWN;
            self.lists[index] = known;
            self.oldest = index + 1;
        }
        Ok(())
    }

    // No values for the names of a list that has this name, and the index of the name.
    pub(crate) fn begin(
        &mut self,
        alloc: Global,
        name: &str,
    ) -> Result<Option<(Slots, usize)>, AllocError>
        ensures { IfOk result (λ found. IfSome found (λ p. (held_in p.0 ≡ []) × IsIn p.0 p.1 name.now)) }
    {
        match self.list_with(name) {
            None => Ok(None),
            Some((names, list, index)) => {
                let slots = Slots::new(alloc, names.clone()?, list)?;
                self.learn(list, 0, index);
                Ok(Some((slots, index)))
            }
        }
    }

    // A list that had this name first in a text, or else one that has it. Its index, and that of the name in it.
    fn list_with(&self, name: &str) -> Option<(&Rc<Names>, usize, usize)>
        ensures { IfSome result (λ p. IsAt name.now (map string_bytes p.0.now.value.texts.items) p.2) }
    {
        for list in 0..self.lists.len() {
            if let Some(known) = self.lists.get(list) {
                if let Some(index) = known.order.first() {
                    if known.names.is_at(*index, name) {
                        return Some((&known.names, list, *index));
                    }
                }
            }
        }
        for list in 0..self.lists.len() {
            if let Some(known) = self.lists.get(list) {
                if let Ok(index) = known.names.find(name) {
                    return Some((&known.names, list, index));
                }
            }
        }
        None
    }

    // Where the name may be that comes after so many others.
    #[inline(always)]
    pub(crate) fn guess(&self, list: usize, count: usize) -> usize {
        match self.lists.get(list) {
            None => 0,
            Some(known) => match known.order.get(count) {
                None => 0,
                Some(index) => *index,
            },
        }
    }

    // The name that came after so many others was at this index.
    pub(crate) fn learn(&mut self, list: usize, count: usize, index: usize) {
        if let Some(known) = self.lists.get_mut(list) {
            if let Some(place) = known.order.get_mut(count) {
                *place = index;
            }
        }
    }
}

fn find<'a>(lists: &'a [Known], names: &[String]) -> Option<&'a Rc<Names>>
    ensures { IfSome result (λ list. map string_bytes list.now.value.texts.items ≡ map string_bytes names.now) }
{
    for known in lists {
        if are_same(known.names.as_slice(), names) {
            return Some(&known.names);
        }
    }
    None
}

fn are_same(left: &[String], right: &[String]) -> bool
    ensures { IsTrue result → map string_bytes left.now ≡ map string_bytes right.now }
{
    if left.len() != right.len() {
        return false;
    }
    let mut others = right.iter();
    for text in left {
        match others.next() {
            None => return false,
            Some(other) => {
                if text.as_str() != other.as_str() {
                    return false;
                }
            }
        }
    }
    others.next().is_none()
}
