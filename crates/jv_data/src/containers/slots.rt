// A list of names that are known, and the value of each name that has one.
ghost use Rattle.std.specs.Prelude.{◌≡◌, ◌<◌, [], ℕ, List, IfOk, IfSome, IsTrue, length};
ghost use Rattle.std.specs.Str.{chars, IsUtf8};
ghost use Rattle.jv_data.specs.Drafts.{present, held_in, IsIn};
ghost use Rattle.jv_data.specs.private.Slots.{values_there, AreNone, AreSome};
ghost use Rattle.jv_data.specs.Held.{members_in};
ghost use Rattle.jv_data.specs.View.{view, members_view};
ghost use Rattle.jv_data.specs.Members.{put};

use super::names::Names;
use super::objects::Object;
use super::sharing::KnownNames;
use crate::Val;
use std::alloc::{AllocError, Global};
use std::rc::Rc;

#[derive(Drop)]
pub(crate) struct Slots {
    names: Rc<Names>,
    // The value at each index is that of the name at the index.
    values: Vec<Option<Val>>,
    // Which of the known lists it is, and how many names were looked up. They only tell where a name may be.
    list: usize,
    count: usize,
}

impl Slots {
    // No values, after one name was looked up.
    pub(crate) fn new(alloc: Global, names: Rc<Names>, list: usize) -> Result<Slots, AllocError>
        ensures names { IfOk result (λ s. s.names.value ≡ names.value) }
        ensures len { IfOk result (λ s. length s.values.items ≡ length names.value.texts.items) }
        ensures members { IfOk result (λ s. held_in s ≡ []) }
    {
        let values = no_values(alloc, names.as_slice().len())?;
        Ok(Slots {
            names,
            values,
            list,
            count: 1,
        })
    }

    // The index of a name.
    #[inline(always)]
    pub(crate) fn find(&mut self, name: &str, known: &mut KnownNames) -> Option<usize>
        ensures place { IfSome result (λ i. IsIn self.new i name.now) }
        ensures members { held_in self.new ≡ held_in self.old }
    {
        let count = self.count;
        self.count = count.wrapping_add(1);
        let index = known.guess(self.list, count);
        if index < self.values.len() && self.names.is_at(index, name) {
            Some(index)
        } else {
            self.find_other(name, known, count)
        }
    }

    // The same for a name that is not where it was in the last text.
    #[inline(never)]
    fn find_other(&self, name: &str, known: &mut KnownNames, count: usize) -> Option<usize>
        ensures { IfSome result (λ i. IsIn self.now i name.now) }
    {
        match self.names.find(name) {
            Ok(index) if index < self.values.len() => {
                known.learn(self.list, count, index);
                Some(index)
            }
            _ => None,
        }
    }

    #[inline(always)]
    pub(crate) fn put(&mut self, index: usize, value: Val)
        requires { index < length self.old.values.items }
        ensures { (name : List ℕ) → IsUtf8 name → IsIn self.old index name → members_view (held_in self.new) ≡ put (chars name) (view value) (members_view (held_in self.old)) }
    {
        self.values[index] = Some(value);
    }

    // An object of the members, with names of its own.
    pub(crate) fn to_object(&mut self, alloc: Global) -> Result<Object<Val>, AllocError>
        ensures { IfOk result (λ o. members_in o ≡ members_view (held_in self.old)) }
    {
        own_object(alloc, &self.names, &mut self.values)
    }

    pub(crate) fn finish(
        self,
        alloc: Global,
        known: &mut KnownNames,
    ) -> Result<Object<Val>, AllocError>
        ensures { IfOk result (λ o. members_in o ≡ members_view (held_in self)) }
    {
        let Slots {
            names,
            mut values,
            ..
        } = self;
        if are_some(values.as_slice()) {
            Object::from_lists(alloc, names, values_there(alloc, values)?)
        } else {
            let mut object = own_object(alloc, &names, &mut values)?;
            object.share_names(known);
            Ok(object)
        }
    }
}

fn no_values(alloc: Global, len: usize) -> Result<Vec<Option<Val>>, AllocError>
    ensures len { IfOk result (λ v. length v.items ≡ len) }
    ensures none { IfOk result (λ v. AreNone v.items) }
{
    let mut values = Vec::with_capacity(alloc, len)?;
    for _ in 0..len {
        values.push(None)?;
    }
    Ok(values)
}

// An object of the names that have a value, which are taken from the last to the first.
fn own_object(
    alloc: Global,
    names: &Names,
    values: &mut Vec<Option<Val>>,
) -> Result<Object<Val>, AllocError>
    ensures { IfOk result (λ o. members_in o ≡ members_view (present names.now.texts.items values.old.items)) }
{
    let mut object = Object::new(alloc)?;
    while let Some(slot) = values.pop() {
        if let Some(value) = slot {
            if let Some(name) = names.as_slice().get(values.len()) {
                object.insert(name.clone()?, value)?;
            }
        }
    }
    Ok(object)
}

fn are_some(slots: &[Option<Val>]) -> bool
    ensures { IsTrue result → AreSome slots.now }
{
    for slot in slots {
        if slot.is_none() {
            return false;
        }
    }
    true
}

fn values_there(alloc: Global, slots: Vec<Option<Val>>) -> Result<Vec<Val>, AllocError>
    ensures { IfOk result (λ v. v.items ≡ values_there slots.items) }
{
    let mut values = Vec::with_capacity(alloc, slots.len())?;
    for slot in slots {
        if let Some(value) = slot {
            values.push(value)?;
        }
    }
    Ok(values)
}
