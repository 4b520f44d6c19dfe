// Calls of natives and of `range`, whose arguments are known.
ghost use Rattle.std.specs.Prelude.{◌≡◌, ◌++◌, IfOk, map, option_map};
ghost use Rattle.jv_data.specs.Held.{values_in};
ghost use Rattle.jv_data.specs.View.{view};
ghost use Rattle.jq_meaning.specs.machine.Operations.{applied, native_of};
ghost use Rattle.jq_meaning.specs.Builtins.{path_native, values_in_array};
ghost use Rattle.jq_natives.specs.declared.native.Native.TheVariants.{GetPath};
ghost use Rattle.jq_state.specs.Items.{item_of, keys_of};
ghost use Rattle.jq_state.specs.Steps.{builtin_of};
ghost use Rattle.jq_operations.specs.Outputs.{outputs_of};
ghost use Rattle.jq_operations.specs.private.Paths.{path_with};

use crate::answers::answered;
use crate::halts::halt;
use crate::outputs::Outputs;
use crate::ranges::range;
use jq_natives::{Native, call, call_in_place};
use jq_state::items::{Item, Path};
use jq_state::steps::Builtin;
use jv_data::{Array, Fail, NoMemory, Val};
use std::alloc::Global;

/// The outputs of a builtin for an item and its arguments.
pub fn apply(
    alloc: Global,
    builtin: Builtin,
    item: Item,
    arguments: Array<Val>,
) -> Result<Outputs, NoMemory>
    ensures { IfOk result (λ o. outputs_of o ≡ applied (builtin_of builtin) (item_of item) (values_in arguments)) }
{
    match builtin {
        Builtin::Range => range(alloc, arguments.as_slice()),
        Builtin::Halts => halt(alloc, &item.value, arguments.as_slice()),
        Builtin::Native(native) => apply_native(alloc, native, item, arguments.as_slice()),
    }
}

fn apply_native(
    alloc: Global,
    native: Native,
    item: Item,
    arguments: &[Val],
) -> Result<Outputs, NoMemory>
    ensures { IfOk result (λ o. outputs_of o ≡ native_of native (item_of item) (map view arguments.now)) }
{
    match native {
        Native::GetPath => part_at_path(alloc, item, arguments),
        _ => answered(call_in_place(alloc, native, item.value, arguments)),
    }
}

// `getpath`, which keeps paths.
fn part_at_path(alloc: Global, item: Item, arguments: &[Val]) -> Result<Outputs, NoMemory>
    ensures { IfOk result (λ o. outputs_of o ≡ path_native GetPath (item_of item) (map view arguments.now)) }
{
    let Item { value, path } = item;
    match call(alloc, Native::GetPath, &value, arguments) {
        Ok(value) => Ok(Outputs::One(Item {
            value,
            path: longer_path(alloc, path, arguments)?,
        })),
        Err(Fail::Raised(error)) => Ok(Outputs::Error(error)),
        Err(Fail::NoMemory) => Err(NoMemory),
    }
}

// The path, followed by the keys of the first argument.
fn longer_path(alloc: Global, path: Path, arguments: &[Val]) -> Result<Path, NoMemory>
    ensures { IfOk result (λ p. keys_of p ≡ path_with (keys_of path) (map view arguments.now)) }
{
    match arguments {
        [] => Ok(path),
        [keys, ..] => with_keys_in(alloc, path, keys),
    }
}

fn with_keys_in(alloc: Global, path: Path, keys: &Val) -> Result<Path, NoMemory>
    ensures { IfOk result (λ p. keys_of p ≡ option_map (λ ks. ks ++ values_in_array (view keys.now)) (keys_of path)) }
{
    match keys {
        Val::List(keys) => with_keys(alloc, path, keys.as_slice()),
        _ => Ok(path),
    }
}

fn with_keys(alloc: Global, mut path: Path, keys: &[Val]) -> Result<Path, NoMemory>
    ensures { IfOk result (λ p. keys_of p ≡ option_map (λ ks. ks ++ map view keys.now) (keys_of path)) }
{
    if path.is_present() {
        for key in keys {
            path.push(alloc, key.copy()?)?;
        }
    }
    Ok(path)
}
