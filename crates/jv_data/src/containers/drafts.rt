// An object that is made of members in any order, as they come in a text.
ghost use Rattle.std.specs.Prelude.{◌≡◌, ℕ, List, IfOk, IfSome, OnOk};
ghost use Rattle.std.specs.Str.{chars, IsUtf8};
ghost use Rattle.jv_data.specs.Drafts.{drafted, members_of_parts, IsPlace, IsPlaceOf};
ghost use Rattle.jv_data.specs.declared.containers.drafts.Place.TheVariants.{Known};
ghost use Rattle.jv_data.specs.Held.{members_in};
ghost use Rattle.jv_data.specs.View.{view};
ghost use Rattle.jv_data.specs.Members.{put};
ghost use Rattle.jv_data.specs.Value.{no_members};

use super::objects::Object;
use super::sharing::KnownNames;
use super::slots::Slots;
use crate::Val;
use std::alloc::{AllocError, Global};

/// The members of an object that is not complete. Its list of names is that of an earlier object while its names are in it.
/// After an error it is of no more use.
#[derive(Drop)]
pub struct Draft {
    parts: Parts,
}

#[derive(Drop)]
pub(crate) enum Parts {
    Empty,
    // The names are those of an earlier object.
    Known(Slots),
    Own(Object<Val>),
}

/// Where the value of a name goes.
#[derive(Drop)]
pub enum Place {
    Known(usize),
    Own(String),
}

impl Draft {
    /// No members. It takes no memory.
    pub fn new() -> Draft
        ensures { drafted result ≡ no_members }
    {
        Draft {
            parts: Parts::Empty,
        }
    }

    /// The place of a name, for the next `put`.
    #[inline(always)]
    pub fn place(
        &mut self,
        alloc: Global,
        name: &str,
        known: &mut KnownNames,
    ) -> Result<Place, AllocError>
        ensures place { IfOk result (λ p. IsPlace self.new p name.now) }
        ensures members { OnOk result (drafted self.new ≡ drafted self.old) }
        ensures utf8 { IsUtf8 name.now }
    {
        match find(&mut self.parts, name, known) {
            Some(index) => Ok(Place::Known(index)),
            None => own_place(&mut self.parts, alloc, name, known),
        }
    }

    /// Puts a value at a place, replacing the one that is there.
    #[inline(always)]
    pub fn put(&mut self, place: Place, value: Val) -> Result<(), AllocError>
        requires { (name : List ℕ) × IsPlace self.old place name }
        ensures { OnOk result ((name : List ℕ) → IsUtf8 name → IsPlace self.old place name → drafted self.new ≡ put (chars name) (view value) (drafted self.old)) }
    {
        match place {
            Place::Known(index) => match &mut self.parts {
                Parts::Known(slots) => {
                    slots.put(index, value);
                    Ok(())
                }
                _ => unreachable!(),
            },
            Place::Own(name) => match &mut self.parts {
                Parts::Own(object) => object.insert(name, value),
                _ => unreachable!(),
            },
        }
    }

    /// The object. Later objects may have its list of names.
    pub fn finish(self, alloc: Global, known: &mut KnownNames) -> Result<Object<Val>, AllocError>
        ensures { IfOk result (λ o. members_in o ≡ drafted self) }
    {
        match self.parts {
            Parts::Empty => Object::new(alloc),
            Parts::Known(slots) => slots.finish(alloc, known),
            Parts::Own(mut object) => {
                object.share_names(known);
                Ok(object)
            }
        }
    }
}

// The index of a name among those of an earlier object.
#[inline(always)]
fn find(parts: &mut Parts, name: &str, known: &mut KnownNames) -> Option<usize>
    ensures place { IfSome result (λ i. IsPlaceOf parts.new (Known i) name.now) }
    ensures members { members_of_parts parts.new ≡ members_of_parts parts.old }
{
    match parts {
        Parts::Known(slots) => slots.find(name, known),
        _ => None,
    }
}

// The place of the first name, or of a name that is not among those of an earlier object.
#[inline(never)]
fn own_place(
    parts: &mut Parts,
    alloc: Global,
    name: &str,
    known: &mut KnownNames,
) -> Result<Place, AllocError>
    ensures place { IfOk result (λ p. IsPlaceOf parts.new p name.now) }
    ensures members { OnOk result (members_of_parts parts.new ≡ members_of_parts parts.old) }
{
    match parts {
        Parts::Empty => match known.begin(alloc, name)? {
            Some((slots, index)) => {
                *parts = Parts::Known(slots);
                Ok(Place::Known(index))
            }
            None => {
                *parts = Parts::Own(Object::new(alloc)?);
                Ok(Place::Own(String::from_str(alloc, name)?))
            }
        },
        Parts::Known(slots) => {
            let object = slots.to_object(alloc)?;
            *parts = Parts::Own(object);
            Ok(Place::Own(String::from_str(alloc, name)?))
        }
        Parts::Own(_) => Ok(Place::Own(String::from_str(alloc, name)?)),
    }
}
