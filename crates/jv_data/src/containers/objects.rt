// Objects that several values share.
ghost use Rattle.std.specs.Prelude.{◌≡◌, IfOk, IfSome, OnErr, OnOk, String, length, option_map};
ghost use Rattle.std.specs.declared.alloc.Global.{Global};
ghost use Rattle.std.specs.List.{zip};
ghost use Rattle.std.specs.Str.{chars};
ghost use Rattle.std.specs.Map.Iter.{ShowsInOrder, ShowsValuesInOrder, deref_pair};
ghost use Rattle.jv_data.specs.Held.{members_in};
ghost use Rattle.jv_data.specs.Members.{IsInOrder, member_at, put, without};
ghost use Rattle.jv_data.specs.Shared.{entries_in};
ghost use Rattle.jv_data.specs.Text.{text_of};
ghost use Rattle.jv_data.specs.Value.{no_members};
ghost use Rattle.jv_data.specs.View.{view, members_view};

use super::iterating::Iter;
use super::members::Members;
use super::names::Names;
use super::sharing::KnownNames;
use crate::Val;
use std::alloc::{AllocError, Global};
use std::collections::BTreeMap;
use std::rc::Rc;

/// Members with a reference count.
#[derive(Drop)]
pub struct Object<T> {
    members: Rc<Members<T>>,
}

impl<T: Drop> Object<T> {
    /// The members, with reference count 1. It allocates the block of memory that holds the count.
    pub fn from_map(alloc: Global, members: BTreeMap<String, T>) -> Result<Object<T>, AllocError>
        ensures { IfOk result (λ o. entries_in o ≡ members.entries) }
    {
        Ok(Object {
            members: Rc::new(alloc, Members::Many(members))?,
        })
    }
}

impl<T: Drop> Object<T> {
    // The members whose names and values are at the same indices of the lists, with reference count 1.
    pub(crate) fn from_lists(
        alloc: Global,
        names: Rc<Names>,
        values: Vec<T>,
    ) -> Result<Object<T>, AllocError>
        ensures { IfOk result (λ o. entries_in o ≡ zip names.value.texts.items values.items) }
    {
        Ok(Object {
            members: Rc::new(alloc, Members::Few(names, values))?,
        })
    }
}

impl<T> Object<T> {
    // The members, if this is the last reference to them. Otherwise there is one reference less.
    pub(crate) fn into_last(self) -> Option<Members<T>>
        ensures { IfSome result (λ m. m ≡ self.members.value) }
    {
        let Object { members } = self;
        Rc::into_inner(members)
    }

    // The members, if this is the only reference to them.
    pub(crate) fn if_only(&self) -> Option<&Members<T>> {
        if Rc::strong_count(&self.members) == 1 {
            Some(self.members.as_ref())
        } else {
            None
        }
    }

    // The same, to change them.
    pub(crate) fn only(&mut self) -> Option<&mut Members<T>> {
        Rc::get_mut(&mut self.members)
    }
}

impl Object<Val> {
    /// No members, with reference count 1. It allocates the block of memory that holds the count.
    pub fn new(alloc: Global) -> Result<Object<Val>, AllocError>
        ensures { IfOk result (λ o. members_in o ≡ no_members) }
    {
        Ok(Object {
            members: Rc::new(alloc, Members::new(alloc)?)?,
        })
    }

    /// One more reference to the same members. It fails only if the reference count is at its maximum.
    pub fn share(&self) -> Result<Object<Val>, AllocError>
        ensures entries { IfOk result (λ o. entries_in o ≡ entries_in self.now) }
        ensures members { IfOk result (λ o. members_in o ≡ members_in self.now) }
    {
        Ok(Object {
            members: self.members.clone()?,
        })
    }

    /// The number of members. The clause `ordered` states what `laws::keys_rise` states.
    pub fn len(&self) -> usize
        ensures len { result ≡ length (entries_in self.now) }
        ensures ordered { IsInOrder (members_in self.now) }
    {
        self.members.len()
    }

    /// The value at a key.
    pub fn get(&self, key: &str) -> Option<&Val>
        ensures { option_map (λ v. view v.now) result ≡ member_at (chars key.now) (members_in self.now) }
    {
        self.members.get(key)
    }

    /// The members in the order of their keys, which is that of their code points.
    pub fn iter(&self) -> Iter<'_, Val>
        ensures rest { result ≡ entries_in self.now }
        ensures runs { ShowsInOrder (deref_pair {K = String Global} {X = Val}) }
        ensures values_run { ShowsValuesInOrder (deref_pair {K = String Global} {X = Val}) }
        ensures members { members_view result ≡ members_in self.now }
        ensures ordered { IsInOrder (members_in self.now) }
    {
        self.members.iter()
    }

    /// Puts a value at a key, replacing the one that is there. Shared members are copied first.
    pub fn insert(&mut self, key: String, value: Val) -> Result<(), AllocError>
        ensures ok { OnOk result (members_in self.new ≡ put (text_of key) (view value) (members_in self.old)) }
        ensures err { OnErr result (members_in self.new ≡ members_in self.old) }
    {
        Rc::make_mut(&mut self.members)?.insert(key, value)
    }

    /// Takes the list of names of an earlier object that has the same names, if it is known, and frees memory that no member
    /// needs. It does nothing to an object with other references.
    pub(crate) fn share_names(&mut self, known: &mut KnownNames)
        ensures { members_in self.new ≡ members_in self.old }
    {
        if let Some(members) = Rc::get_mut(&mut self.members) {
            members.share_names(known)
        }
    }

    /// Removes a key and returns its value. Shared members are copied first.
    pub fn remove(&mut self, key: &str) -> Result<Option<Val>, AllocError>
        ensures value { IfOk result (λ v. option_map view v ≡ member_at (chars key.now) (members_in self.old)) }
        ensures left { OnOk result (members_in self.new ≡ without (chars key.now) (members_in self.old)) }
        ensures err { OnErr result (members_in self.new ≡ members_in self.old) }
    {
        Rc::make_mut(&mut self.members)?.remove(key)
    }
}
