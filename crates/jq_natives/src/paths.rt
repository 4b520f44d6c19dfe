// Natives that take paths.
ghost use Rattle.jv_data.specs.Fails.{AnswersAs, FailsAs};
ghost use Rattle.jv_data.specs.View.{view};
ghost use Rattle.jq_natives.specs.PathNatives.{getpath_native_of, setpath_native_of, delpaths_native_of, path_error, paths_error};

use crate::lists::lists_of;
use jv_data::{Fail, Val, raise};
use jv_value::{delpaths, getpath, setpath};
use std::alloc::Global;

/// `getpath(path)`.
pub(crate) fn part_at(alloc: Global, value: &Val, path: &Val) -> Result<Val, Fail>
    ensures { AnswersAs result (getpath_native_of (view value.now) (view path.now)) }
{
    match path {
        Val::List(keys) => getpath(alloc, value, keys.as_slice()),
        _ => Err(not_path(alloc)),
    }
}

/// `setpath(path; new)`. A value that is not shared is changed in place.
pub(crate) fn with_part(alloc: Global, value: Val, path: &Val, new: Val) -> Result<Val, Fail>
    ensures { AnswersAs result (setpath_native_of (view value) (view path.now) (view new)) }
{
    match path {
        Val::List(keys) => setpath(alloc, value, keys.as_slice(), new),
        _ => Err(not_path(alloc)),
    }
}

/// `delpaths(paths)`. A value that is not shared is changed in place.
pub(crate) fn without_parts(alloc: Global, value: Val, paths: &Val) -> Result<Val, Fail>
    ensures { AnswersAs result (delpaths_native_of (view value) (view paths.now)) }
{
    let Val::List(list) = paths else {
        return Err(not_paths(alloc));
    };
    match lists_of(alloc, list.as_slice())? {
        Some(paths) => delpaths(alloc, value, paths),
        None => Err(not_paths(alloc)),
    }
}

fn not_path(alloc: Global) -> Fail
    ensures { FailsAs result path_error }
{
    raise(alloc, "Path must be an array")
}

fn not_paths(alloc: Global) -> Fail
    ensures { FailsAs result paths_error }
{
    raise(alloc, "Paths must be an array of arrays")
}
