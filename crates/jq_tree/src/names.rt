//! The names of a filter: laws of their list.

ghost use Rattle.jq_tree.specs.laws.Standing.{UsesAreTheNames, ClosedHasNoUnbound};

/// The list of a tree's names has exactly those that occur in it. A filter is closed exactly when each of its names has a
/// binder or is a part of the language.
pub fn no_name_is_forgotten()
    ensures names { UsesAreTheNames }
    ensures closed { ClosedHasNoUnbound }
{}
