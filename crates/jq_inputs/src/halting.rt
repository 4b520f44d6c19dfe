// Whether a filter calls a function that halts. The walk ends at the first such call, and needs little stack.
ghost use Rattle.std.specs.Prelude.{◌≡◌, ◌↔◌, map, false};
ghost use Rattle.jq_tree.specs.Tree.{trees_of, entries_of, patterns_of, parts_of};
ghost use Rattle.jq_ast.specs.Named.{named, named_as_pattern, named_as_part, named_entry};
ghost use Rattle.jq_inputs.specs.Halting.{CallsNoHalt};
ghost use Rattle.jq_inputs.specs.private.Halts.{halts_in, halts_in_trees, halts_in_pieces, halts_in_entries, halts_in_pattern, halts_in_patterns, halts_in_part, halts_in_parts};
ghost use Rattle.jq_inputs.specs.private.Pieces.{pieces_in};

use crate::hidden::Hidden;
use jq_ast::{Entry, Member, Pattern, Piece, Tree};

/// Whether the filter calls `halt`, `halt_error` or `halt_error(f)` and does not bind the name itself. A call in a function that
/// is never called counts too.
#[tactic(auto, using(crate::proofs::shared::Halting::found_exactly))]
pub fn may_halt(tree: &Tree) -> bool
    ensures { (result ≡ false) ↔ CallsNoHalt (named tree.now) }
{
    halts(tree, Hidden::nothing())
}

#[cycle(halting)]
fn halts(tree: &Tree, hidden: Hidden) -> bool
    ensures { result ≡ halts_in hidden (named tree.now) }
{
    match tree {
        Tree::Identity
        | Tree::Empty
        | Tree::Literal(_)
        | Tree::Format(_)
        | Tree::Variable(_)
        | Tree::Break(_) => false,
        Tree::Text(_, pieces, _) => in_pieces(pieces.as_slice(), hidden),
        Tree::Field(part, _, _)
        | Tree::Iterate(part, _)
        | Tree::Negation(part)
        | Tree::Array(part)
        | Tree::Label(_, part) => halts(part, hidden),
        Tree::Index(first, second, _)
        | Tree::Pipe(first, second)
        | Tree::Comma(first, second)
        | Tree::Binary(_, first, second)
        | Tree::And(first, second)
        | Tree::Or(first, second)
        | Tree::Alternative(first, second)
        | Tree::TryCatch(first, second) => halts(first, hidden) || halts(second, hidden),
        Tree::Slice(first, second, third, _) | Tree::Choice(first, second, third) => {
            halts(first, hidden) || halts(second, hidden) || halts(third, hidden)
        }
        Tree::Object(entries) => in_entries(entries.as_slice(), hidden),
        Tree::BindAs(source, pattern, body) => {
            halts(source, hidden) || in_pattern(pattern, hidden) || halts(body, hidden)
        }
        Tree::Reduce(source, pattern, start, update) => {
            halts(source, hidden)
                || in_pattern(pattern, hidden)
                || halts(start, hidden)
                || halts(update, hidden)
        }
        Tree::Foreach(source, pattern, start, update, extract) => {
            halts(source, hidden)
                || in_pattern(pattern, hidden)
                || halts(start, hidden)
                || halts(update, hidden)
                || halts(extract, hidden)
        }
        Tree::Define(function, rest) => {
            let parameters = function.parameters.as_slice();
            let outside = hidden.with(function.name.as_str(), parameters.len());
            let inside = outside.with_parameters(parameters);
            halts(&function.body, inside) || halts(rest, outside)
        }
        Tree::Call(name, arguments) => {
            hidden.is_halt(name.text.as_str(), arguments.len())
                || in_trees(arguments.as_slice(), hidden)
        }
        Tree::PreludeCall(name, arguments) => {
            Hidden::nothing().is_halt(name.text.as_str(), arguments.len())
                || in_trees(arguments.as_slice(), hidden)
        }
        Tree::Update(_, parts) => in_trees(&**parts, hidden),
    }
}

#[cycle(halting)]
fn in_trees(trees: &[Tree], hidden: Hidden) -> bool
    ensures { result ≡ halts_in_trees hidden (trees_of (map named trees.now)) }
{
    for tree in trees {
        if halts(tree, hidden) {
            return true;
        }
    }
    false
}

#[cycle(halting)]
fn in_pieces(pieces: &[Piece<Tree>], hidden: Hidden) -> bool
    ensures { result ≡ halts_in_pieces hidden (pieces_in pieces.now) }
{
    for piece in pieces {
        if halts(&piece.tree, hidden) {
            return true;
        }
    }
    false
}

#[cycle(halting)]
fn in_entries(entries: &[Entry<Tree>], hidden: Hidden) -> bool
    ensures { result ≡ halts_in_entries hidden (entries_of (map named_entry entries.now)) }
{
    for entry in entries {
        let found = match entry {
            Entry::Named(_, value) | Entry::Own(value) => halts(value, hidden),
            Entry::Computed(key, value) => halts(key, hidden) || halts(value, hidden),
        };
        if found {
            return true;
        }
    }
    false
}

#[cycle(halting)]
fn in_pattern(pattern: &Pattern, hidden: Hidden) -> bool
    ensures { result ≡ halts_in_pattern hidden (named_as_pattern pattern.now) }
{
    match pattern {
        Pattern::Whole(_) => false,
        Pattern::Items(items) => in_items(items.as_slice(), hidden),
        Pattern::Members(members) => in_members(members.as_slice(), hidden),
    }
}

#[cycle(halting)]
fn in_items(items: &[Pattern], hidden: Hidden) -> bool
    ensures { result ≡ halts_in_patterns hidden (patterns_of (map named_as_pattern items.now)) }
{
    for item in items {
        if in_pattern(item, hidden) {
            return true;
        }
    }
    false
}

#[cycle(halting)]
fn in_members(members: &[Member], hidden: Hidden) -> bool
    ensures { result ≡ halts_in_parts hidden (parts_of (map named_as_part members.now)) }
{
    for member in members {
        if in_member(member, hidden) {
            return true;
        }
    }
    false
}

#[cycle(halting)]
fn in_member(member: &Member, hidden: Hidden) -> bool
    ensures { result ≡ halts_in_part hidden (named_as_part member.now) }
{
    match member {
        Member::Keyed(key, pattern) => halts(key, hidden) || in_pattern(pattern, hidden),
        Member::KeyedVariable(_, pattern) => in_pattern(pattern, hidden),
    }
}
