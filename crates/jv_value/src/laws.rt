// Laws of paths, as contracts of functions that do nothing.
ghost use Rattle.jv_value.specs.laws.AtOnce.{IndexesGoAtOnce, KeysGoAtOnce};
ghost use Rattle.jv_value.specs.laws.PlainPaths.{DeletingNothing, DeletionHasNoOrder, SetIsGot, SetLeavesOthers};

/// A value that is set at a path of keys and indexes is the value that is got there.
pub fn what_is_set_is_got()
    ensures { SetIsGot }
{}

/// Setting a path keeps the value at every path that diverges from it: at a different key of one object, or at a different
/// index of one array, both counted from the start or both from the end.
pub fn a_set_leaves_other_paths()
    ensures { SetLeavesOthers }
{}

/// Deleting no path changes nothing.
pub fn deleting_no_path_changes_nothing()
    ensures { DeletingNothing }
{}

/// A deletion does not depend on the order in which the paths are given.
pub fn a_deletion_has_no_order()
    ensures { DeletionHasNoOrder }
{}

/// Deleting indexes of an array at once leaves exactly the items that none of them names in the original array. Deleting
/// one item does not shift the item that another index names.
pub fn indexes_go_at_once()
    ensures { IndexesGoAtOnce }
{}

/// Deleting keys of an object at once leaves exactly the members of other keys, each with its value.
pub fn keys_go_at_once()
    ensures { KeysGoAtOnce }
{}
