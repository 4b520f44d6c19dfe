// The locations in a value that a path names.
ghost use Rattle.std.specs.Prelude.{◌≡◌, ◌++◌, ◌-◌, ◌≤◌, ◌∷◌, [], IfOk, Ok, OnOk, map};
ghost use Rattle.std.specs.List.{flat_map, range_with_len};
ghost use Rattle.std.specs.Str.{chars};
ghost use Rattle.jv_data.specs.Fails.{FailsAs, raised};
ghost use Rattle.jv_data.specs.Held.{members_in};
ghost use Rattle.jv_data.specs.Shared.{text_in};
ghost use Rattle.jv_data.specs.Value.{Items, array, items_of, number, object, string};
ghost use Rattle.jv_data.specs.View.{view};
ghost use Rattle.jv_value.specs.ErrorTexts.{cannot_index, key_name};
ghost use Rattle.jv_value.specs.private.FoundLocations.{FindsLocations};
ghost use Rattle.jv_value.specs.private.Steps.{LeadsOn, TakesStep, before, before_all, place_view, stride, stride_of};
ghost use Rattle.jv_value.specs.Locations.{after, at, locations_of, unsliced};
ghost use Rattle.jv_value.specs.private.Locations.{location_in, locations_in, selector_of};

use crate::error_texts::{cannot_index, cannot_slice, not_slice_bounds};
use crate::indexing::{position, range_in};
use crate::locations::{Child, Location};
use crate::slicing::char_count;
use jv_data::{Array, Fail, Object, SharedText, Val};
use std::alloc::{AllocError, Global};

// What a path has led to: a value, or the array of some items.
#[derive(Clone, Copy)]
pub enum Place<'a> {
    Value(&'a Val),
    Items(&'a [Val]),
}

// What a key of a path leads through.
#[derive(Drop)]
pub enum Step {
    Child(Child),
    // A slice from one index to another.
    Slice(usize, usize),
}

// The locations that a path names, key by key. No part of the value is copied.
pub(crate) fn locations_of(alloc: Global, value: &Val, path: &[Val]) -> Result<Vec<Location>, Fail>
    ensures { FindsLocations result (locations_of (view value.now) (map view path.now)) }
{
    let mut steps = Vec::new(alloc);
    let mut place = Place::Value(value);
    for key in path {
        match next_step(alloc, place, key)? {
            None => return Ok(Vec::new(alloc)),
            Some((step, part)) => {
                steps.push(step)?;
                place = part;
            }
        }
    }
    Ok(after_steps(alloc, steps, itself(alloc)?)?)
}

// Where a key leads, or `None` if it names no locations.
fn next_step<'a>(
    alloc: Global,
    place: Place<'a>,
    key: &Val,
) -> Result<Option<(Step, Place<'a>)>, Fail>
    ensures { TakesStep (place_view place.entry) (view key.now) result }
{
    match place {
        Place::Value(value) => step_in_value(alloc, value, key),
        Place::Items(items) => step_in_items(alloc, items, key),
    }
}

fn step_in_value<'a>(
    alloc: Global,
    value: &'a Val,
    key: &Val,
) -> Result<Option<(Step, Place<'a>)>, Fail>
    ensures { TakesStep (view value.now) (view key.now) result }
{
    match (value, key) {
        (Val::Null, _) => Ok(None),
        (Val::Table(members), Val::Text(name)) => step_to_member(members, name),
        (Val::List(items), Val::Num(place)) => Ok(step_to_item(items.as_slice(), place)),
        (Val::List(items), Val::Table(bounds)) => step_to_slice(alloc, items.as_slice(), bounds),
        (Val::Text(text), Val::Table(bounds)) => {
            Err(refuse_text(alloc, value, text.as_str(), bounds))
        }
        _ => Err(cannot_index(alloc, value, key)),
    }
}

fn step_in_items<'a>(
    alloc: Global,
    items: &'a [Val],
    key: &Val,
) -> Result<Option<(Step, Place<'a>)>, Fail>
    ensures { TakesStep (array (items_of (map view items.now))) (view key.now) result }
{
    match key {
        Val::Num(place) => Ok(step_to_item(items, place)),
        Val::Table(bounds) => step_to_slice(alloc, items, bounds),
        _ => Err(refuse_key(alloc, key)),
    }
}

fn step_to_member<'a>(
    members: &'a Object<Val>,
    name: &SharedText,
) -> Result<Option<(Step, Place<'a>)>, Fail>
    ensures { TakesStep (object (members_in members.now)) (string (text_in name.now)) result }
{
    match members.get(name.as_str()) {
        None => Ok(None),
        Some(part) => {
            let child = Child::Member(name.share()?);
            Ok(Some((Step::Child(child), Place::Value(part))))
        }
    }
}

fn step_to_item<'a>(items: &'a [Val], place: &i64) -> Option<(Step, Place<'a>)>
    ensures { LeadsOn (array (items_of (map view items.now))) (number place.now) result }
{
    match position(items.len(), place) {
        None => None,
        Some(index) => {
            let step = Step::Child(Child::Item(index));
            Some((step, Place::Value(&items[index])))
        }
    }
}

fn step_to_slice<'a>(
    alloc: Global,
    items: &'a [Val],
    bounds: &Object<Val>,
) -> Result<Option<(Step, Place<'a>)>, Fail>
    ensures { TakesStep (array (items_of (map view items.now))) (object (members_in bounds.now)) result }
{
    match range_in(items.len(), bounds) {
        None => Err(not_slice_bounds(alloc)),
        Some((from, to)) => {
            let part = Place::Items(&items[from..to]);
            Ok(Some((Step::Slice(from, to), part)))
        }
    }
}

// Locations in the last part, as locations in the whole value.
fn after_steps(
    alloc: Global,
    steps: Vec<Step>,
    locations: Vec<Location>,
) -> Result<Vec<Location>, AllocError>
    ensures { IfOk result (λ v. locations_in v.items ≡ before_all (map stride_of steps.items) (locations_in locations.items)) }
{
    let mut steps = steps;
    let mut locations = locations;
    while let Some(step) = steps.pop() {
        locations = after_step(alloc, step, locations)?;
    }
    Ok(locations)
}

fn after_step(
    alloc: Global,
    step: Step,
    locations: Vec<Location>,
) -> Result<Vec<Location>, AllocError>
    ensures { IfOk result (λ v. locations_in v.items ≡ before (stride_of step) (locations_in locations.items)) }
{
    match step {
        Step::Child(child) => after(alloc, &child, locations),
        Step::Slice(from, to) => unsliced(alloc, from, to, locations),
    }
}

fn itself(alloc: Global) -> Result<Vec<Location>, AllocError>
    ensures { IfOk result (λ v. locations_in v.items ≡ [] ∷ []) }
{
    let mut locations = Vec::new(alloc);
    locations.push(Vec::new(alloc))?;
    Ok(locations)
}

// The error of a key that no array accepts.
fn refuse_key(alloc: Global, key: &Val) -> Fail
    ensures { (vs : Items) → FailsAs result (raised (cannot_index (array vs) (key_name (view key.now)))) }
{
    match Array::from_vec(alloc, Vec::new(alloc)) {
        Ok(items) => cannot_index(alloc, &Val::List(items), key),
        Err(_) => Fail::NoMemory,
    }
}

// The error of a slice of a string.
fn refuse_text(alloc: Global, value: &Val, text: &str, bounds: &Object<Val>) -> Fail
    requires { view value.now ≡ string (chars text.now) }
    ensures { FailsAs result (stride (string (chars text.now)) (object (members_in bounds.now))) }
{
    match range_in(char_count(text), bounds) {
        Some(_) => cannot_slice(alloc, value),
        None => not_slice_bounds(alloc),
    }
}

// Locations in a part, as locations in the whole value.
fn after(
    alloc: Global,
    child: &Child,
    locations: Vec<Location>,
) -> Result<Vec<Location>, AllocError>
    ensures { IfOk result (λ v. locations_in v.items ≡ after (selector_of child.now) (locations_in locations.items)) }
{
    let mut all = Vec::with_capacity(alloc, locations.len())?;
    for location in locations {
        all.push(lengthened(location, child.clone()?)?)?;
    }
    Ok(all)
}

fn lengthened(mut location: Location, child: Child) -> Result<Location, AllocError>
    ensures { IfOk result (λ t. location_in t ≡ selector_of child ∷ location_in location) }
{
    location.push(child)?;
    Ok(location)
}

// Locations in a slice, as locations in the whole array.
fn unsliced(
    alloc: Global,
    from: usize,
    to: usize,
    locations: Vec<Location>,
) -> Result<Vec<Location>, AllocError>
    ensures { IfOk result (λ v. locations_in v.items ≡ flat_map (unsliced from to) (locations_in locations.items)) }
{
    let mut all = Vec::with_capacity(alloc, locations.len())?;
    for location in locations {
        push_unsliced(alloc, &mut all, from, to, location)?;
    }
    Ok(all)
}

fn push_unsliced(
    alloc: Global,
    all: &mut Vec<Location>,
    from: usize,
    to: usize,
    mut location: Location,
) -> Result<(), AllocError>
    ensures { OnOk result (locations_in all.new.items ≡ locations_in all.old.items ++ unsliced from to (location_in location)) }
{
    match location.pop() {
        None => push_items(alloc, all, from, to),
        Some(Child::Item(index)) => {
            if index < to.saturating_sub(from) {
                all.push(lengthened(location, Child::Item(from + index))?)?;
            }
            Ok(())
        }
        Some(Child::Member(_)) => Ok(()),
    }
}

// Each item of a slice is a location.
fn push_items(
    alloc: Global,
    all: &mut Vec<Location>,
    from: usize,
    to: usize,
) -> Result<(), AllocError>
    ensures { OnOk result (locations_in all.new.items ≡ locations_in all.old.items ++ map (λ i. at i ∷ []) (range_with_len from (to - from))) }
{
    let count = to.saturating_sub(from);
    for offset in 0..count {
        all.push(lengthened(Vec::new(alloc), Child::Item(from + offset))?)?;
    }
    Ok(())
}
