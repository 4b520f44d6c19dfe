// A value without the parts at some locations.
ghost use Rattle.std.specs.Prelude.{◌≡◌, ◌∷◌, [], IfOk, OnOk, map};
ghost use Rattle.std.specs.Str.{chars};
ghost use Rattle.jv_data.specs.Held.{members_in};
ghost use Rattle.jv_data.specs.Value.{Value};
ghost use Rattle.jv_data.specs.View.{view};
ghost use Rattle.jv_value.specs.private.ItemGroups.{AddsLocation, grouped_from, groups_in};
ghost use Rattle.jv_value.specs.private.Removals.{GoesOn, GroupsLeave, Leaves, TakesMember, items_with};
ghost use Rattle.jv_value.specs.DeletePaths.{names_itself, removed, without_locations};
ghost use Rattle.jv_value.specs.Locations.{at};
ghost use Rattle.jv_value.specs.private.Locations.{location_in, locations_in};

use crate::grouping::by_name;
use crate::locations::{Child, Location};
use jv_data::{Array, Object, Val};
use std::alloc::{AllocError, Global};
use std::collections::BTreeMap;
use std::vec::IntoIter;

// An item, and the locations in it that are deleted.
#[derive(Drop)]
pub struct ItemGroup {
    item: Val,
    locations: Vec<Location>,
}

// An array or an object while what is left of one of its parts is found.
#[derive(Drop)]
pub enum Open {
    // The items that are left before the part, and the items after it.
    Items(Vec<Val>, IntoIter<ItemGroup>),
    // The other members, the locations in those that are not done, and the key of the part.
    Members(Object<Val>, BTreeMap<String, Vec<Location>>, String),
}

pub(crate) fn removed(
    alloc: Global,
    value: Val,
    locations: Vec<Location>,
) -> Result<Val, AllocError>
    ensures { IfOk result (λ v. view v ≡ removed (locations_in locations.items) (view value)) }
{
    if locations.is_empty() {
        return Ok(value);
    }
    if names_itself(locations.as_slice()) {
        return Ok(Val::Null);
    }
    without_locations(alloc, value, locations)
}

fn names_itself(locations: &[Location]) -> bool
    ensures { result ≡ names_itself (locations_in locations.now) }
{
    for location in locations {
        if location.is_empty() {
            return true;
        }
    }
    false
}

fn without_locations(alloc: Global, value: Val, locations: Vec<Location>) -> Result<Val, AllocError>
    ensures { IfOk result (λ v. view v ≡ without_locations (locations_in locations.items) (view value)) }
{
    let mut opened = Vec::new(alloc);
    let mut part = value;
    let mut within = locations;
    // (this many steps are never made, but show that the loop ends)
    for _ in 0..u64::MAX {
        if within.is_empty() {
            match opened.pop() {
                None => return Ok(part),
                Some(container) => {
                    let next = go_on(alloc, container, part, &mut opened)?;
                    part = next.0;
                    within = next.1;
                    continue;
                }
            }
        }
        let next = go_in(alloc, part, within, &mut opened)?;
        part = next.0;
        within = next.1;
    }
    Err(AllocError)
}

// The first part to go into, and the locations in it; or the value without the locations, and no locations.
fn go_in(
    alloc: Global,
    value: Val,
    locations: Vec<Location>,
    opened: &mut Vec<Open>,
) -> Result<(Val, Vec<Location>), AllocError>
    ensures { IfOk result (λ r. GoesOn opened.old.items (without_locations (locations_in locations.items) (view value)) opened.new.items r) }
{
    match &value {
        Val::List(_) => {
            let items = value.into_list().into_values()?;
            let left = Vec::with_capacity(alloc, items.len())?;
            let groups = by_item(alloc, items, locations)?;
            next_item(alloc, left, groups.into_iter(), opened)
        }
        Val::Table(_) => {
            let groups = by_name(alloc, locations)?;
            next_member(alloc, value.into_table(), groups, opened)
        }
        _ => Ok((value, Vec::new(alloc))),
    }
}

// The same after a part of the container, which takes its place again.
fn go_on(
    alloc: Global,
    container: Open,
    part: Val,
    opened: &mut Vec<Open>,
) -> Result<(Val, Vec<Location>), AllocError>
    ensures { IfOk result (λ r. (w : Value) → Leaves container (view part) w → GoesOn opened.old.items w opened.new.items r) }
{
    match container {
        Open::Items(mut left, groups) => {
            left.push(part)?;
            next_item(alloc, left, groups, opened)
        }
        Open::Members(mut members, groups, name) => {
            members.insert(name, part)?;
            next_member(alloc, members, groups, opened)
        }
    }
}

fn next_item(
    alloc: Global,
    left: Vec<Val>,
    groups: IntoIter<ItemGroup>,
    opened: &mut Vec<Open>,
) -> Result<(Val, Vec<Location>), AllocError>
    ensures { IfOk result (λ r. GoesOn opened.old.items (items_with (map view left.items) groups.rest.items) opened.new.items r) }
{
    let mut left = left;
    let mut groups = groups;
    while let Some(group) = groups.next() {
        let ItemGroup { item, locations } = group;
        if locations.is_empty() {
            left.push(item)?;
        } else if !names_itself(locations.as_slice()) {
            opened.push(Open::Items(left, groups))?;
            return Ok((item, locations));
        }
    }
    let items = Array::from_vec(alloc, left)?;
    Ok((Val::List(items), Vec::new(alloc)))
}

fn next_member(
    alloc: Global,
    members: Object<Val>,
    groups: BTreeMap<String, Vec<Location>>,
    opened: &mut Vec<Open>,
) -> Result<(Val, Vec<Location>), AllocError>
    ensures { IfOk result (λ r. (w : Value) → GroupsLeave groups (members_in members) w → GoesOn opened.old.items w opened.new.items r) }
{
    let mut members = members;
    let mut groups = groups;
    while let Some((name, locations)) = groups.pop_first() {
        match taken_out(&mut members, name.as_str(), locations.as_slice())? {
            None => {}
            Some(part) => {
                opened.push(Open::Members(members, groups, name))?;
                return Ok((part, locations));
            }
        }
    }
    Ok((Val::Table(members), Vec::new(alloc)))
}

// Takes a member out of an object. `None` if nothing is left of it.
fn taken_out(
    members: &mut Object<Val>,
    name: &str,
    locations: &[Location],
) -> Result<Option<Val>, AllocError>
    ensures { IfOk result (λ part. TakesMember (chars name.now) (locations_in locations.now) part (members_in members.old) (members_in members.new)) }
{
    // The proof needs the clause of `len` that the keys are in order.
    if members.len() == 0 {
        return Ok(None);
    }
    match members.remove(name)? {
        None => Ok(None),
        Some(part) => {
            if names_itself(locations) {
                return Ok(None);
            }
            Ok(Some(part))
        }
    }
}

// Each item with the locations in it.
fn by_item(
    alloc: Global,
    items: Vec<Val>,
    locations: Vec<Location>,
) -> Result<Vec<ItemGroup>, AllocError>
    ensures { IfOk result (λ a. groups_in a.items ≡ grouped_from (locations_in locations.items) 0 (map view items.items)) }
{
    let mut groups = ungrouped(alloc, items)?;
    for location in locations {
        add_location(&mut groups, location)?;
    }
    Ok(groups)
}

fn ungrouped(alloc: Global, items: Vec<Val>) -> Result<Vec<ItemGroup>, AllocError>
    ensures { IfOk result (λ a. groups_in a.items ≡ grouped_from [] 0 (map view items.items)) }
{
    let mut groups = Vec::with_capacity(alloc, items.len())?;
    for item in items {
        let locations = Vec::new(alloc);
        groups.push(ItemGroup { item, locations })?;
    }
    Ok(groups)
}

fn add_location(groups: &mut Vec<ItemGroup>, location: Location) -> Result<(), AllocError>
    ensures { OnOk result (AddsLocation (location_in location) groups.old.items groups.new.items) }
{
    let mut rest = location;
    match rest.pop() {
        Some(Child::Item(index)) => add_to_item(groups, index, rest),
        Some(Child::Member(_)) => Ok(()),
        None => Ok(()),
    }
}

fn add_to_item(groups: &mut Vec<ItemGroup>, index: usize, rest: Location) -> Result<(), AllocError>
    ensures { OnOk result (AddsLocation (at index ∷ location_in rest) groups.old.items groups.new.items) }
{
    if index < groups.len() {
        let target = &mut groups[index];
        target.locations.push(rest)?;
    }
    Ok(())
}
