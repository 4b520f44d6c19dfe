// The walk over a filter. It visits each part once, and needs little stack.
ghost use Rattle.std.specs.Prelude.{◌≡◌, map, false};
ghost use Rattle.std.specs.Str.{chars};
ghost use Rattle.jq_tree.specs.Inputs.{at_most_one, at_most_one_of, at_most_one_each};
ghost use Rattle.jq_tree.specs.Tree.{trees_of, entries_of, patterns_of, parts_of};
ghost use Rattle.jq_ast.specs.Named.{named, named_as_pattern, named_as_part, named_entry};
ghost use Rattle.jq_inputs.specs.private.Walk.{count_in, count_call, count_trees, count_pieces, count_entry, count_entries, count_pattern, count_patterns, count_part, count_parts, once_in, once_call, once_entry, once_entries};
ghost use Rattle.jq_inputs.specs.private.Pieces.{pieces_in};

use crate::hidden::Hidden;
use crate::surveys::{Count, Survey};
use jq_ast::{Entry, Member, Pattern, Piece, Tree};

#[cycle(walk)]
pub(crate) fn survey(tree: &Tree, hidden: Hidden) -> Survey
    ensures count { result.count ≡ count_in hidden (named tree.now) }
    ensures at_most_one { result.at_most_one ≡ at_most_one (named tree.now) }
    ensures once { result.once ≡ once_in hidden (named tree.now) }
{
    match tree {
        Tree::Identity | Tree::Literal(_) | Tree::Variable(_) => Survey::leaf(true),
        Tree::Empty | Tree::Format(_) | Tree::Break(_) => Survey::leaf(false),
        Tree::Text(_, pieces, _) => Survey::often(in_pieces(pieces.as_slice(), hidden)),
        Tree::Field(target, _, guarded) => survey(target, hidden).in_field(*guarded),
        Tree::Index(target, key, _) => survey(target, hidden).for_outputs_of(survey(key, hidden)),
        Tree::Slice(target, from, to, _) => {
            let count = survey(target, hidden).count;
            let count = count.plus(survey(from, hidden).count);
            Survey::often(count.plus(survey(to, hidden).count))
        }
        Tree::Iterate(inner, _) | Tree::Label(_, inner) => survey(inner, hidden).many(),
        Tree::Pipe(first, second)
        | Tree::Alternative(first, second)
        | Tree::TryCatch(first, second) => {
            survey(first, hidden).with(survey(second, hidden).count)
        }
        Tree::Comma(first, second) => survey(first, hidden).either(survey(second, hidden)),
        Tree::Binary(_, left, right) => survey(left, hidden).operands(survey(right, hidden)),
        Tree::And(left, right) | Tree::Or(left, right) => {
            let left = survey(left, hidden).count;
            Survey::often(left.plus(survey(right, hidden).count))
        }
        Tree::Negation(operand) => survey(operand, hidden).negated(),
        Tree::Array(filter) => survey(filter, hidden).collected(),
        Tree::Object(entries) => survey_entries(entries.as_slice(), hidden),
        Tree::Choice(test, holds, fails) => {
            let first = survey(test, hidden).with(survey(holds, hidden).count);
            first.with(survey(fails, hidden).count)
        }
        Tree::BindAs(source, pattern, body) => {
            let first = survey(source, hidden).with(survey(body, hidden).count);
            first.with(in_pattern(pattern, hidden))
        }
        Tree::Reduce(source, pattern, start, update) => {
            let update = survey(update, hidden).count;
            survey(source, hidden).fold(survey(start, hidden), in_pattern(pattern, hidden), update)
        }
        Tree::Foreach(source, pattern, start, update, extract) => {
            let update = survey(update, hidden).count;
            survey(source, hidden)
                .fold(survey(start, hidden), in_pattern(pattern, hidden), update)
                .with(survey(extract, hidden).count)
        }
        Tree::Define(function, rest) => {
            let parameters = function.parameters.as_slice();
            let outside = hidden.with(function.name.as_str(), parameters.len());
            let inside = outside.with_parameters(parameters);
            let body = survey(&function.body, inside).count;
            survey(rest, outside).with(body)
        }
        Tree::Call(name, arguments) => {
            survey_call(name.text.as_str(), arguments.as_slice(), hidden)
        }
        Tree::PreludeCall(_, arguments) => Survey::often(in_trees(arguments.as_slice(), hidden)),
        Tree::Update(_, parts) => Survey::often(in_trees(&**parts, hidden)),
    }
}

#[cycle(walk)]
fn survey_call(name: &str, arguments: &[Tree], hidden: Hidden) -> Survey
    ensures count { result.count ≡ count_call hidden (chars name.now) (trees_of (map named arguments.now)) }
    ensures at_most_one { result.at_most_one ≡ false }
    ensures once { result.once ≡ once_call hidden (chars name.now) (trees_of (map named arguments.now)) }
{
    match arguments {
        [] => Survey::of_call(hidden.is_inputs(name)),
        [only] => survey(only, hidden).argument(hidden.is_first(name)),
        [first, second] => {
            let second = survey(second, hidden);
            survey(first, hidden).arguments(second, hidden.is_any(name), hidden.is_limit(name))
        }
        _ => Survey::often(in_trees(arguments, hidden)),
    }
}

#[cycle(walk)]
fn survey_entries(entries: &[Entry<Tree>], hidden: Hidden) -> Survey
    ensures count { result.count ≡ count_entries hidden (entries_of (map named_entry entries.now)) }
    ensures at_most_one { result.at_most_one ≡ at_most_one_each (entries_of (map named_entry entries.now)) }
    ensures once { result.once ≡ once_entries hidden (entries_of (map named_entry entries.now)) }
{
    let mut found = Survey::leaf(true);
    for entry in entries {
        let next = match entry {
            Entry::Named(_, value) => survey(value, hidden),
            Entry::Computed(key, value) => {
                let key = survey(key, hidden).count;
                Survey::often(key.plus(survey(value, hidden).count))
            }
            Entry::Own(key) => Survey::often(survey(key, hidden).count),
        };
        found = found.beside(next);
    }
    found
}

#[cycle(walk)]
fn in_trees(trees: &[Tree], hidden: Hidden) -> Count
    ensures { result ≡ count_trees hidden (trees_of (map named trees.now)) }
{
    let mut count = Count::Zero;
    for tree in trees {
        count = count.plus(survey(tree, hidden).count);
    }
    count
}

#[cycle(walk)]
fn in_pieces(pieces: &[Piece<Tree>], hidden: Hidden) -> Count
    ensures { result ≡ count_pieces hidden (pieces_in pieces.now) }
{
    let mut count = Count::Zero;
    for piece in pieces {
        count = count.plus(survey(&piece.tree, hidden).count);
    }
    count
}

#[cycle(walk)]
fn in_pattern(pattern: &Pattern, hidden: Hidden) -> Count
    ensures { result ≡ count_pattern hidden (named_as_pattern pattern.now) }
{
    match pattern {
        Pattern::Whole(_) => Count::Zero,
        Pattern::Items(items) => in_items(items.as_slice(), hidden),
        Pattern::Members(members) => in_members(members.as_slice(), hidden),
    }
}

#[cycle(walk)]
fn in_items(items: &[Pattern], hidden: Hidden) -> Count
    ensures { result ≡ count_patterns hidden (patterns_of (map named_as_pattern items.now)) }
{
    let mut count = Count::Zero;
    for item in items {
        count = count.plus(in_pattern(item, hidden));
    }
    count
}

#[cycle(walk)]
fn in_members(members: &[Member], hidden: Hidden) -> Count
    ensures { result ≡ count_parts hidden (parts_of (map named_as_part members.now)) }
{
    let mut count = Count::Zero;
    for member in members {
        count = count.plus(in_member(member, hidden));
    }
    count
}

#[cycle(walk)]
fn in_member(member: &Member, hidden: Hidden) -> Count
    ensures { result ≡ count_part hidden (named_as_part member.now) }
{
    match member {
        Member::Keyed(key, pattern) => survey(key, hidden).count.plus(in_pattern(pattern, hidden)),
        Member::KeyedVariable(_, pattern) => in_pattern(pattern, hidden),
    }
}
