//! The count of `inputs` in a tree: a law.

ghost use Rattle.jq_tree.specs.laws.Names.{InputsAreCounted};

/// The count of `inputs` is the number of times it is among the names of a tree, bound by the language.
pub fn inputs_are_counted()
    ensures { InputsAreCounted }
{}
