// The locations in the members of an object, by the name of the member.
ghost use Rattle.std.specs.Prelude.{◌++◌, ◌∷◌, [], IfOk, List, OnOk};
ghost use Rattle.std.specs.Str.{chars};
ghost use Rattle.jv_value.specs.private.Groups.{AreGrouped};
ghost use Rattle.jv_value.specs.Locations.{Location, key};
ghost use Rattle.jv_value.specs.private.Locations.{location_in, locations_in};

use crate::locations::{Child, Location};
use std::alloc::{AllocError, Global};
use std::collections::BTreeMap;

// The locations in each member, relative to the member. A location that does not begin with a name is in no member.
pub(crate) fn by_name(
    alloc: Global,
    locations: Vec<Location>,
) -> Result<BTreeMap<String, Vec<Location>>, AllocError>
    ensures { IfOk result (λ g. AreGrouped g (locations_in locations.items)) }
{
    let mut groups = BTreeMap::new(alloc);
    for location in locations {
        group_location(alloc, &mut groups, location)?;
    }
    Ok(groups)
}

fn group_location(
    alloc: Global,
    groups: &mut BTreeMap<String, Vec<Location>>,
    location: Location,
) -> Result<(), AllocError>
    ensures { OnOk result ((qs : List Location) → AreGrouped groups.old qs → AreGrouped groups.new (qs ++ location_in location ∷ [])) }
{
    let mut rest = location;
    match rest.pop() {
        Some(Child::Member(name)) => push_named(alloc, groups, name.as_str(), rest),
        Some(Child::Item(_)) => Ok(()),
        None => Ok(()),
    }
}

fn push_named(
    alloc: Global,
    groups: &mut BTreeMap<String, Vec<Location>>,
    name: &str,
    rest: Location,
) -> Result<(), AllocError>
    ensures { OnOk result ((qs : List Location) → AreGrouped groups.old qs → AreGrouped groups.new (qs ++ (key (chars name.now) ∷ location_in rest) ∷ [])) }
{
    let mut group = groups.remove(name).unwrap_or(Vec::new(alloc));
    group.push(rest)?;
    groups.insert(String::from_str(alloc, name)?, group)?;
    Ok(())
}
