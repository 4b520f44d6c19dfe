// A value without the parts at some paths.
ghost use Rattle.jv_data.specs.Fails.{AnswersAs};
ghost use Rattle.jv_data.specs.View.{view};
ghost use Rattle.jv_value.specs.DeletePaths.{all_locations, delpaths_of, paths_in};
ghost use Rattle.jv_value.specs.private.FoundLocations.{FindsLocations};

use crate::finding::locations_of;
use crate::locations::Location;
use crate::removing::removed;
use jv_data::{Fail, Val};
use std::alloc::Global;

/// The value without the parts at the paths (manual of jq 1.7, "delpaths(PATHS)"). Each path names locations in the original
/// value, a slice names each of its items, and all locations are deleted at once. A missing part and a part of null are no
/// locations, and the empty path leaves null. If paths have errors, that of the first path in order is raised. A value that
/// is not shared is changed in place.
pub fn delpaths(alloc: Global, value: Val, paths: Vec<Vec<Val>>) -> Result<Val, Fail>
    ensures { AnswersAs result (delpaths_of (view value) (paths_in paths.items)) }
{
    let mut paths = paths;
    paths.sort()?;
    match all_locations(alloc, &value, paths.as_slice()) {
        Ok(locations) => Ok(removed(alloc, value, locations)?),
        Err(failure) => Err(failure),
    }
}

fn all_locations(alloc: Global, value: &Val, paths: &[Vec<Val>]) -> Result<Vec<Location>, Fail>
    ensures { FindsLocations result (all_locations (view value.now) (paths_in paths.now)) }
{
    let mut locations = Vec::new(alloc);
    for path in paths {
        let mut found = locations_of(alloc, value, path.as_slice())?;
        locations.append(&mut found)?;
    }
    Ok(locations)
}
