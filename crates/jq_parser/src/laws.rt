//! Laws of the grammar (manual of jq 1.7, "Basic filters" to "Assignment").

ghost use Rattle.jq_parser.specs.laws.OneTree.{OnePipe, OneTree, TreeOrNone};
ghost use Rattle.jq_parser.specs.laws.Parsed.{ParsedIsTheTree};

/// Tokens have at most one tree: as a filter, and as a pipe inside a filter.
pub fn one_tree()
    ensures filter { OneTree }
    ensures phrase { OnePipe }
{}

/// Whether a list of tokens is a filter is decidable: it has a tree, or it is refused.
pub fn one_outcome()
    ensures { TreeOrNone }
{}

/// The tree that `parsed` computes for tokens is their tree.
pub fn computed_tree()
    ensures { ParsedIsTheTree }
{}
