// The members of an object: lists of names and of values, or a map if they are many.
ghost use Rattle.std.specs.Prelude.{◌≡◌, ◌<◌, ◌≤◌, IfOk, OnErr, OnOk, String, length, map, option_copied, option_map, string_bytes, string_cmp};
ghost use Rattle.std.specs.declared.alloc.Global.{Global};
ghost use Rattle.std.specs.Map.Iter.{ShowsInOrder, ShowsValuesInOrder, deref_pair};
ghost use Rattle.std.specs.Cmp.Lexicographic.{slice_cmp};
ghost use Rattle.std.specs.List.{zip};
ghost use Rattle.std.specs.List.Sorted.{IsStrictlySortedBy};
ghost use Rattle.std.specs.Map.{keys_of, lookup};
ghost use Rattle.std.specs.Ordering.{is_eq, nat_cmp};
ghost use Rattle.std.specs.Str.{chars};
ghost use Rattle.jv_data.specs.Shared.{entries_held};
ghost use Rattle.jv_data.specs.View.{view, members_view};
ghost use Rattle.jv_data.specs.private.Names.{GoesTo};
ghost use Rattle.jv_data.specs.Members.{member_at, put, without};
ghost use Rattle.jv_data.specs.Text.{text_of};

use super::iterating::Iter;
use super::names::Names;
use super::sharing::KnownNames;
use crate::{Val, copies};
use std::alloc::{AllocError, Global};
use std::collections::BTreeMap;
use std::rc::Rc;

// How many members are kept in lists.
const FEW: usize = 64;

#[derive(Drop)]
pub(crate) enum Members<T> {
    // The value at each index is that of the name at the index.
    Few(Rc<Names>, Vec<T>),
    Many(BTreeMap<String, T>),
}

impl<T> Members<T> {
    pub(crate) fn new(alloc: Global) -> Result<Members<T>, AllocError>
        ensures { IfOk result (λ m. length (entries_held m) ≡ 0) }
    {
        let names = Rc::new(alloc, Names::new(alloc))?;
        Ok(Members::Few(names, Vec::new(alloc)))
    }

    pub(crate) fn len(&self) -> usize
        ensures len { result ≡ length (entries_held self.now) }
        ensures ordered { IsStrictlySortedBy string_cmp (keys_of (entries_held self.now)) }
    {
        match self {
            Members::Few(names, values) => count(names.as_slice(), values.as_slice()),
            Members::Many(map) => map.len(),
        }
    }

    pub(crate) fn iter(&self) -> Iter<'_, T>
        ensures rest { result ≡ entries_held self.now }
        ensures runs { ShowsInOrder (deref_pair {K = String Global} {X = T}) }
        ensures values_run { ShowsValuesInOrder (deref_pair {K = String Global} {X = T}) }
        ensures ordered { IsStrictlySortedBy string_cmp (keys_of (entries_held self.now)) }
    {
        match self {
            Members::Few(names, values) => {
                runs_of_members::<T>(*values.allocator());
                Iter {
                    names: names.as_slice().iter(),
                    values: values.iter(),
                    rest: None,
                }
            }
            Members::Many(map) => {
                let names: &[String] = &[];
                let values: &[T] = &[];
                Iter {
                    names: names.iter(),
                    values: values.iter(),
                    rest: Some(map.iter()),
                }
            }
        }
    }

    pub(crate) fn first_mut(&mut self) -> Option<&mut T> {
        match self {
            Members::Few(_, values) => values.first_mut(),
            Members::Many(map) => match map.first_entry() {
                Some(entry) => Some(entry.into_mut()),
                None => None,
            },
        }
    }

    pub(crate) fn pop_last(&mut self) -> Option<T> {
        match self {
            Members::Few(_, values) => values.pop(),
            Members::Many(map) => match map.pop_last() {
                Some((_, member)) => Some(member),
                None => None,
            },
        }
    }
}

impl Clone for Members<Val> {
    ghost is_clone = { λ m n. members_view (entries_held n) ≡ members_view (entries_held m) };

    fn clone(&self) -> Result<Members<Val>, AllocError> {
        match self {
            Members::Few(names, values) => Ok(Members::Few(
                names.clone()?,
                copies(*values.allocator(), values.as_slice())?,
            )),
            Members::Many(map) => Ok(Members::Many(map.clone()?)),
        }
    }
}

impl Members<Val> {
    pub(crate) fn get(&self, key: &str) -> Option<&Val>
        ensures { option_copied result ≡ lookup (λ l. is_eq (slice_cmp nat_cmp key.now (string_bytes l))) (entries_held self.now) }
    {
        match self {
            Members::Few(names, values) => match names.find(key) {
                Ok(index) => values.get(index),
                Err(_) => None,
            },
            Members::Many(map) => map.get(key),
        }
    }

    pub(crate) fn insert(&mut self, key: String, value: Val) -> Result<(), AllocError>
        ensures ok { OnOk result (members_view (entries_held self.new) ≡ put (text_of key) (view value) (members_view (entries_held self.old))) }
        ensures err { OnErr result (members_view (entries_held self.new) ≡ members_view (entries_held self.old)) }
    {
        match self {
            Members::Few(names, values) => match names.find(key.as_str()) {
                Ok(index) => {
                    if index < values.len() {
                        values[index] = value;
                        Ok(())
                    } else {
                        self.insert_many(key, value)
                    }
                }
                Err(index) => {
                    if index <= values.len() && values.len() < FEW {
                        insert_at(names, values, index, key, value)
                    } else {
                        self.insert_many(key, value)
                    }
                }
            },
            Members::Many(_) => self.insert_many(key, value),
        }
    }

    // The same in a map.
    fn insert_many(&mut self, key: String, value: Val) -> Result<(), AllocError>
        ensures ok { OnOk result (members_view (entries_held self.new) ≡ put (text_of key) (view value) (members_view (entries_held self.old))) }
        ensures err { OnErr result (members_view (entries_held self.new) ≡ members_view (entries_held self.old)) }
    {
        match self {
            Members::Few(names, values) => {
                let mut map = to_map(names.as_slice(), values.as_slice(), *values.allocator())?;
                drop(map.insert(key, value)?);
                *self = Members::Many(map);
                Ok(())
            }
            Members::Many(map) => {
                drop(map.insert(key, value)?);
                Ok(())
            }
        }
    }

    // Takes a known list of the same names, and frees the memory in which no value is.
    pub(crate) fn share_names(&mut self, known: &mut KnownNames)
        ensures { members_view (entries_held self.new) ≡ members_view (entries_held self.old) }
    {
        match self {
            Members::Few(names, values) => {
                values.shrink_to_fit();
                if let Some(list) = known.known(names) {
                    *names = list;
                }
            }
            Members::Many(_) => {}
        }
    }

    pub(crate) fn remove(&mut self, key: &str) -> Result<Option<Val>, AllocError>
        ensures value { IfOk result (λ v. option_map view v ≡ member_at (chars key.now) (members_view (entries_held self.old))) }
        ensures left { OnOk result (members_view (entries_held self.new) ≡ without (chars key.now) (members_view (entries_held self.old))) }
        ensures err { OnErr result (members_view (entries_held self.new) ≡ members_view (entries_held self.old)) }
    {
        match self {
            Members::Few(names, values) => match names.find(key) {
                Ok(index) => {
                    if index < values.len() {
                        Rc::make_mut(names)?.remove(index);
                        Ok(Some(values.remove(index)))
                    } else {
                        Ok(None)
                    }
                }
                Err(_) => Ok(None),
            },
            Members::Many(map) => Ok(map.remove(key)),
        }
    }
}

// What the iterator of a map ensures of each iterator that steps in the same way.
fn runs_of_members<T>(alloc: Global)
    ensures runs { ShowsInOrder (deref_pair {K = String Global} {X = T}) }
    ensures values_run { ShowsValuesInOrder (deref_pair {K = String Global} {X = T}) }
{
    let none: BTreeMap<String, T> = BTreeMap::new(alloc);
    none.iter();
    none.destroy_empty()
}

// How many names have a value.
fn count<T>(names: &[String], values: &[T]) -> usize
    ensures count { result ≡ length (zip names.now values.now) }
    ensures names { result ≤ length names.now }
    ensures values { result ≤ length values.now }
{
    if names.len() < values.len() {
        names.len()
    } else {
        values.len()
    }
}

// Puts a new member at an index of both lists.
fn insert_at(
    names: &mut Rc<Names>,
    values: &mut Vec<Val>,
    index: usize,
    key: String,
    value: Val,
) -> Result<(), AllocError>
    requires goes { GoesTo (string_bytes key) (map string_bytes names.old.value.texts.items) index }
    requires within { index ≤ length values.old.items }
    ensures ok { OnOk result (members_view (zip names.new.value.texts.items values.new.items) ≡ put (text_of key) (view value) (members_view (zip names.old.value.texts.items values.old.items))) }
    ensures err { OnErr result (members_view (zip names.new.value.texts.items values.new.items) ≡ members_view (zip names.old.value.texts.items values.old.items)) }
{
    let own = Rc::make_mut(names)?;
    values.insert(index, value)?;
    match own.insert(index, key) {
        Ok(()) => Ok(()),
        Err(failed) => {
            drop(values.remove(index));
            Err(failed)
        }
    }
}

// Copies of the members, in a map. The last one comes first, so that each goes before the others.
fn to_map(
    names: &[String],
    values: &[Val],
    alloc: Global,
) -> Result<BTreeMap<String, Val>, AllocError>
    requires { IsStrictlySortedBy (slice_cmp nat_cmp) (map string_bytes names.now) }
    ensures { IfOk result (λ m. members_view m.entries ≡ members_view (zip names.now values.now)) }
{
    let mut map = BTreeMap::new(alloc);
    let mut left = count(names, values);
    while left > 0 {
        left -= 1;
        drop(map.insert(names[left].clone()?, values[left].clone()?)?);
    }
    Ok(map)
}
