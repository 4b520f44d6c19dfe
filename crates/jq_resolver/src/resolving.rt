// Sets what all names of a tree refer to.
ghost use Rattle.std.specs.Prelude.{◌≡◌, true, length, OnOk};
ghost use Rattle.jq_ast.specs.Named.{name_of, named};
ghost use Rattle.jq_resolver.specs.private.Forms.{is_binder, is_pair};
ghost use Rattle.jq_resolver.specs.private.Resolved.{Chain, IsDefinitionResolved, IsEntryResolved, IsInPrelude, IsPartResolved, IsPatternResolved, IsPieceResolved, IsResolved};
ghost use Rattle.jq_resolver.specs.private.Scopes.{ResolvedIn, bound_names};

use crate::bindings::Kind;
use crate::referents::{
    refer_to_format, refer_to_function, refer_to_label, refer_to_prelude, refer_to_variable,
};
use crate::scope::Scope;
use jq_ast::{Entry, Function, Member, Modify, Name, Pattern, Piece, Tree};
use jv_data::NoMemory;

#[cycle(resolving)]
#[inline(never)]
pub(crate) fn resolve_tree(scope: &mut Scope, tree: &mut Tree) -> Result<(), NoMemory>
    ensures { OnOk result (IsResolved (bound_names scope.old) (bound_names scope.new) tree.old tree.new) }
{
    match tree {
        Tree::Identity | Tree::Empty | Tree::Literal(_) => Ok(()),
        Tree::Text(format, pieces, _) => {
            refer_to_format(scope, format);
            resolve_pieces(scope, pieces)?;
            Ok(())
        }
        Tree::Format(format) => {
            refer_to_format(scope, format);
            Ok(())
        }
        Tree::Variable(name) => refer_to_variable(scope, name),
        Tree::Break(name) => refer_to_label(scope, name),
        Tree::Field(target, _, _) => resolve_tree(scope, target),
        Tree::Iterate(target, _) => resolve_tree(scope, target),
        Tree::Negation(inner) => resolve_tree(scope, inner),
        Tree::Array(inner) => resolve_tree(scope, inner),
        Tree::Object(entries) => {
            resolve_entries(scope, entries)?;
            Ok(())
        }
        Tree::Slice(target, from, to, _) => resolve_three(scope, target, from, to),
        Tree::Choice(test, holds, fails) => resolve_three(scope, test, holds, fails),
        Tree::Call(name, arguments) => resolve_call(scope, name, arguments),
        Tree::PreludeCall(name, arguments) => resolve_prelude_call(scope, name, arguments),
        Tree::Update(modify, parts) => {
            resolve_update(scope, modify, &mut **parts)?;
            Ok(())
        }
        Tree::Index(_, _, _)
        | Tree::Pipe(_, _)
        | Tree::Comma(_, _)
        | Tree::Binary(_, _, _)
        | Tree::And(_, _)
        | Tree::Or(_, _)
        | Tree::Alternative(_, _)
        | Tree::TryCatch(_, _) => resolve_pair(scope, tree),
        Tree::Label(_, _)
        | Tree::BindAs(_, _, _)
        | Tree::Reduce(_, _, _, _)
        | Tree::Foreach(_, _, _, _, _)
        | Tree::Define(_, _) => resolve_binder(scope, tree),
    }
}

// A form of two parts in one scope.
#[cycle(resolving)]
#[inline(never)]
fn resolve_pair(scope: &mut Scope, tree: &mut Tree) -> Result<(), NoMemory>
    requires { is_pair (named tree.now) ≡ true }
    ensures { OnOk result (IsResolved (bound_names scope.old) (bound_names scope.new) tree.old tree.new) }
{
    match tree {
        Tree::Index(target, key, _) => resolve_two(scope, target, key),
        Tree::Pipe(first, second) => resolve_two(scope, first, second),
        Tree::Comma(first, second) => resolve_two(scope, first, second),
        Tree::Binary(_, left, right) => resolve_two(scope, left, right),
        Tree::And(left, right) => resolve_two(scope, left, right),
        Tree::Or(left, right) => resolve_two(scope, left, right),
        Tree::Alternative(left, right) => resolve_two(scope, left, right),
        Tree::TryCatch(body, handler) => resolve_two(scope, body, handler),
        _ => unreachable!(),
    }
}

// A form that binds names around its last parts.
#[cycle(resolving)]
#[inline(never)]
fn resolve_binder(scope: &mut Scope, tree: &mut Tree) -> Result<(), NoMemory>
    requires { is_binder (named tree.now) ≡ true }
    ensures { OnOk result (IsResolved (bound_names scope.old) (bound_names scope.new) tree.old tree.new) }
{
    match tree {
        Tree::Label(name, body) => resolve_label(scope, name, body),
        Tree::BindAs(source, pattern, body) => resolve_binding(scope, source, pattern, body),
        Tree::Reduce(source, pattern, start, update) => {
            resolve_reduce(scope, source, pattern, start, update)
        }
        Tree::Foreach(source, pattern, start, update, extract) => {
            resolve_foreach(scope, source, pattern, start, update, extract)
        }
        Tree::Define(function, rest) => resolve_define(scope, function, rest),
        _ => unreachable!(),
    }
}

#[cycle(resolving)]
#[inline(never)]
fn resolve_two(
    scope: &mut Scope,
    first: &mut Box<Tree>,
    second: &mut Box<Tree>,
) -> Result<(), NoMemory>
    ensures { OnOk result (ResolvedIn scope.old scope.new first.old.value first.new.value × ResolvedIn scope.old scope.new second.old.value second.new.value) }
{
    resolve_tree(scope, first)?;
    resolve_tree(scope, second)?;
    Ok(())
}

#[cycle(resolving)]
#[inline(never)]
fn resolve_three(
    scope: &mut Scope,
    first: &mut Box<Tree>,
    second: &mut Box<Tree>,
    third: &mut Box<Tree>,
) -> Result<(), NoMemory>
    ensures first { OnOk result (ResolvedIn scope.old scope.new first.old.value first.new.value) }
    ensures second { OnOk result (ResolvedIn scope.old scope.new second.old.value second.new.value) }
    ensures third { OnOk result (ResolvedIn scope.old scope.new third.old.value third.new.value) }
{
    resolve_tree(scope, first)?;
    resolve_tree(scope, second)?;
    resolve_tree(scope, third)?;
    Ok(())
}

#[cycle(resolving)]
#[inline(never)]
fn resolve_label(scope: &mut Scope, name: &String, body: &mut Box<Tree>) -> Result<(), NoMemory>
    ensures { OnOk result (IsResolved (bound_names scope.old) (bound_names scope.new) (Tree.Label name.now body.old) (Tree.Label name.now body.new)) }
{
    let around = scope.len();
    scope.enter(Kind::Label, name.as_str())?;
    resolve_tree(scope, body)?;
    scope.leave(around);
    Ok(())
}

#[cycle(resolving)]
#[inline(never)]
fn resolve_binding(
    scope: &mut Scope,
    source: &mut Box<Tree>,
    pattern: &mut Box<Pattern>,
    body: &mut Box<Tree>,
) -> Result<(), NoMemory>
    ensures { OnOk result (IsResolved (bound_names scope.old) (bound_names scope.new)
        (Tree.BindAs source.old pattern.old body.old) (Tree.BindAs source.new pattern.new body.new)) }
{
    resolve_tree(scope, source)?;
    let around = scope.len();
    resolve_pattern(scope, pattern)?;
    resolve_tree(scope, body)?;
    scope.leave(around);
    Ok(())
}

#[cycle(resolving)]
#[inline(never)]
fn resolve_reduce(
    scope: &mut Scope,
    source: &mut Box<Tree>,
    pattern: &mut Box<Pattern>,
    start: &mut Box<Tree>,
    update: &mut Box<Tree>,
) -> Result<(), NoMemory>
    ensures { OnOk result (IsResolved (bound_names scope.old) (bound_names scope.new)
        (Tree.Reduce source.old pattern.old start.old update.old) (Tree.Reduce source.new pattern.new start.new update.new)) }
{
    resolve_two(scope, source, start)?;
    let around = scope.len();
    resolve_pattern(scope, pattern)?;
    resolve_tree(scope, update)?;
    scope.leave(around);
    Ok(())
}

#[cycle(resolving)]
#[inline(never)]
fn resolve_foreach(
    scope: &mut Scope,
    source: &mut Box<Tree>,
    pattern: &mut Box<Pattern>,
    start: &mut Box<Tree>,
    update: &mut Box<Tree>,
    extract: &mut Box<Tree>,
) -> Result<(), NoMemory>
    ensures { OnOk result (ResolvedIn scope.old scope.new
        (Tree.Foreach source.old pattern.old start.old update.old extract.old)
        (Tree.Foreach source.new pattern.new start.new update.new extract.new)) }
{
    resolve_two(scope, source, start)?;
    let around = scope.len();
    resolve_pattern(scope, pattern)?;
    resolve_two(scope, update, extract)?;
    scope.leave(around);
    Ok(())
}

#[cycle(resolving)]
#[inline(never)]
fn resolve_define(
    scope: &mut Scope,
    function: &mut Box<Function<Tree>>,
    rest: &mut Box<Tree>,
) -> Result<(), NoMemory>
    ensures { OnOk result (IsResolved (bound_names scope.old) (bound_names scope.new)
        (Tree.Define function.old rest.old) (Tree.Define function.new rest.new)) }
{
    let around = scope.len();
    resolve_definition(scope, function)?;
    resolve_tree(scope, rest)?;
    scope.leave(around);
    Ok(())
}

#[cycle(resolving)]
#[inline(never)]
fn resolve_call(
    scope: &mut Scope,
    name: &mut Name,
    arguments: &mut Vec<Tree>,
) -> Result<(), NoMemory>
    ensures { OnOk result (IsResolved (bound_names scope.old) (bound_names scope.new)
        (Tree.Call name.old arguments.old) (Tree.Call name.new arguments.new)) }
{
    refer_to_function(scope, name, arguments.len())?;
    resolve_trees(scope, arguments)?;
    Ok(())
}

#[cycle(resolving)]
#[inline(never)]
fn resolve_prelude_call(
    scope: &mut Scope,
    name: &mut Name,
    arguments: &mut Vec<Tree>,
) -> Result<(), NoMemory>
    ensures { OnOk result (IsResolved (bound_names scope.old) (bound_names scope.new)
        (Tree.PreludeCall name.old arguments.old) (Tree.PreludeCall name.new arguments.new)) }
{
    refer_to_prelude(scope, name, arguments.len())?;
    resolve_trees(scope, arguments)?;
    Ok(())
}

#[cycle(resolving)]
#[inline(never)]
fn resolve_trees(scope: &mut Scope, trees: &mut Vec<Tree>) -> Result<(), NoMemory>
    ensures { OnOk result (Chain IsResolved (bound_names scope.old) (bound_names scope.new) trees.old.items trees.new.items) }
{
    for i in 0..trees.len() {
        resolve_tree(scope, &mut trees[i])?;
    }
    Ok(())
}

// The name and the parts of an update.
#[cycle(resolving)]
#[inline(never)]
fn resolve_update(
    scope: &mut Scope,
    modify: &mut Modify,
    parts: &mut [Tree; 2],
) -> Result<(), NoMemory>
    ensures same { OnOk result (name_of modify.new.name ≡ name_of modify.old.name) }
    ensures bound { OnOk result (IsInPrelude (bound_names scope.old) (length parts.old) modify.old.name modify.new.name) }
    ensures resolved { OnOk result (Chain IsResolved (bound_names scope.old) (bound_names scope.new) parts.old parts.new) }
{
    refer_to_prelude(scope, &mut modify.name, 2)?;
    resolve_tree(scope, &mut parts[0])?;
    resolve_tree(scope, &mut parts[1])?;
    Ok(())
}

#[cycle(resolving)]
#[inline(never)]
fn resolve_pieces(scope: &mut Scope, pieces: &mut Vec<Piece<Tree>>) -> Result<(), NoMemory>
    ensures { OnOk result (Chain IsPieceResolved (bound_names scope.old) (bound_names scope.new) pieces.old.items pieces.new.items) }
{
    for i in 0..pieces.len() {
        resolve_tree(scope, &mut pieces[i].tree)?;
    }
    Ok(())
}

#[cycle(resolving)]
#[inline(never)]
fn resolve_entries(scope: &mut Scope, entries: &mut Vec<Entry<Tree>>) -> Result<(), NoMemory>
    ensures { OnOk result (Chain IsEntryResolved (bound_names scope.old) (bound_names scope.new) entries.old.items entries.new.items) }
{
    for i in 0..entries.len() {
        resolve_entry(scope, &mut entries[i])?;
    }
    Ok(())
}

#[cycle(resolving)]
#[inline(never)]
fn resolve_entry(scope: &mut Scope, entry: &mut Entry<Tree>) -> Result<(), NoMemory>
    ensures { OnOk result (IsEntryResolved (bound_names scope.old) (bound_names scope.new) entry.old entry.new) }
{
    match entry {
        Entry::Named(_, value) => {
            resolve_tree(scope, value)?;
            Ok(())
        }
        Entry::Computed(key, value) => {
            resolve_tree(scope, key)?;
            resolve_tree(scope, value)?;
            Ok(())
        }
        Entry::Own(key) => {
            resolve_tree(scope, key)?;
            Ok(())
        }
    }
}

// The variables of the pattern stay in the scope.
#[cycle(resolving)]
#[inline(never)]
fn resolve_pattern(scope: &mut Scope, pattern: &mut Pattern) -> Result<(), NoMemory>
    ensures { OnOk result (IsPatternResolved (bound_names scope.old) (bound_names scope.new) pattern.old pattern.new) }
{
    match pattern {
        Pattern::Whole(name) => scope.enter(Kind::Variable, name.as_str()),
        Pattern::Items(patterns) => {
            resolve_patterns(scope, patterns)?;
            Ok(())
        }
        Pattern::Members(members) => {
            resolve_members(scope, members)?;
            Ok(())
        }
    }
}

#[cycle(resolving)]
#[inline(never)]
fn resolve_patterns(scope: &mut Scope, patterns: &mut Vec<Pattern>) -> Result<(), NoMemory>
    ensures { OnOk result (Chain IsPatternResolved (bound_names scope.old) (bound_names scope.new) patterns.old.items patterns.new.items) }
{
    for i in 0..patterns.len() {
        resolve_pattern(scope, &mut patterns[i])?;
    }
    Ok(())
}

#[cycle(resolving)]
#[inline(never)]
fn resolve_members(scope: &mut Scope, members: &mut Vec<Member>) -> Result<(), NoMemory>
    ensures { OnOk result (Chain IsPartResolved (bound_names scope.old) (bound_names scope.new) members.old.items members.new.items) }
{
    for i in 0..members.len() {
        resolve_member(scope, &mut members[i])?;
    }
    Ok(())
}

#[cycle(resolving)]
#[inline(never)]
fn resolve_member(scope: &mut Scope, member: &mut Member) -> Result<(), NoMemory>
    ensures { OnOk result (IsPartResolved (bound_names scope.old) (bound_names scope.new) member.old member.new) }
{
    match member {
        Member::Keyed(key, pattern) => {
            resolve_tree(scope, key)?;
            resolve_pattern(scope, pattern)?;
            Ok(())
        }
        Member::KeyedVariable(name, pattern) => {
            scope.enter(Kind::Variable, name.as_str())?;
            resolve_pattern(scope, pattern)?;
            Ok(())
        }
    }
}

// The function stays in the scope; its parameters do not.
#[cycle(resolving)]
#[inline(never)]
pub(crate) fn resolve_definition(
    scope: &mut Scope,
    function: &mut Function<Tree>,
) -> Result<(), NoMemory>
    ensures { OnOk result (IsDefinitionResolved (bound_names scope.old) (bound_names scope.new) function.old function.new) }
{
    let kind = Kind::Function(function.parameters.len());
    scope.enter(kind, function.name.as_str())?;
    let own = scope.len();
    scope.enter_parameters(function.parameters.as_slice())?;
    resolve_tree(scope, &mut function.body)?;
    scope.leave(own);
    Ok(())
}
