// Arrays under `+` and `-`.
ghost use Rattle.std.specs.Prelude.{◌≡◌, IfOk, OnOk, map};
ghost use Rattle.jv_data.specs.Held.{values_in};
ghost use Rattle.jv_data.specs.Value.{items_of};
ghost use Rattle.jv_data.specs.View.{view, items_view};
ghost use Rattle.jv_arith.specs.Arrays.{joined, is_among, left_over};

use jv_data::{Array, Val};
use std::alloc::{AllocError, Global};

/// Appends the items of the right to those of the left, in place if these are not shared.
pub(crate) fn append(left: &mut Array<Val>, right: &Array<Val>) -> Result<(), AllocError>
    ensures { OnOk result (items_of (values_in left.new) ≡ joined (items_of (values_in left.old)) (items_of (values_in right.now))) }
{
    for item in right.as_slice() {
        left.push(item.clone()?)?;
    }
    Ok(())
}

/// The items of the left that are equal to none of the right.
pub(crate) fn left_over(
    alloc: Global,
    left: &Array<Val>,
    right: &Array<Val>,
) -> Result<Vec<Val>, AllocError>
    ensures { IfOk result (λ v. items_view v.items ≡ left_over (items_of (values_in left.now)) (items_of (values_in right.now))) }
{
    let mut items = Vec::new(alloc);
    for item in left.as_slice() {
        if !is_among(right.as_slice(), item) {
            items.push(item.clone()?)?;
        }
    }
    Ok(items)
}

fn is_among(items: &[Val], item: &Val) -> bool
    ensures { result ≡ is_among (map view items.now) (view item.now) }
{
    items.contains(item)
}
