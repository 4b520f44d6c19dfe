// The value at a path.
ghost use Rattle.std.specs.Prelude.{◌≡◌, map};
ghost use Rattle.jv_data.specs.Fails.{AnswersAs};
ghost use Rattle.jv_data.specs.View.{view};
ghost use Rattle.jv_value.specs.GetPath.{getpath_of, is_null};

use crate::indexing::index;
use jv_data::{Fail, Val};
use std::alloc::Global;

/// The value at a path: the part at each key in turn, as by [`index`]. If a part is null, the result is null, for any
/// remaining keys (manual of jq 1.7, "getpath(PATHS)").
pub fn getpath(alloc: Global, value: &Val, path: &[Val]) -> Result<Val, Fail>
    ensures { AnswersAs result (getpath_of (view value.now) (map view path.now)) }
{
    let mut part = value.clone()?;
    for key in path {
        if is_null(&part) {
            return Ok(Val::Null);
        }
        part = index(alloc, &part, key)?;
    }
    Ok(part)
}

fn is_null(value: &Val) -> bool
    ensures { result ≡ is_null (view value.now) }
{
    matches!(value, Val::Null)
}
