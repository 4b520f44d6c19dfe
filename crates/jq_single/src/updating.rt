// Updates (`f |= g`): the paths of f are gathered once, and each part becomes the first output of g, the only one that counts.
ghost use Rattle.std.specs.Prelude.{◌≡◌, ◌++◌, ◌∷◌, [], IfSome, OnOk, if◌then◌else◌, length, map};
ghost use Rattle.jv_data.specs.Value.{Value};
ghost use Rattle.jv_data.specs.View.{view};
ghost use Rattle.jq_natives.specs.declared.native.Native.TheVariants.{DelPaths, SetPath};
ghost use Rattle.jq_ast.specs.Named.{named};
ghost use Rattle.jq_tree.specs.WrittenOut.{modify};
ghost use Rattle.jq_meaning.specs.Builtins.{plain_native};
ghost use Rattle.jq_single.specs.Single.{Changed, Comes, Keeps};
ghost use Rattle.jq_meaning.specs.Runs.{Item, Run, one, plain, then_run};
ghost use Rattle.jq_single.specs.private.Parts.{ChangesTo};
ghost use Rattle.jq_single.specs.private.Updates.{ChangesToFirst, TakesPart, TakesTurn, TakesTurns, first_alone, listed};
ghost use Rattle.jq_tree.specs.Tree as form;

use crate::changing::call_on;
use crate::contexts::Context;
use crate::finding::has_modify;
use crate::rests::Rest;
use crate::stops::Stop;
use jq_ast::Tree;
use jq_heuristics::pays_for_copy;
use jq_meaning::updates::an_update_is_its_turns;
use jq_natives::Native;
use jv_data::{Array, NoMemory, Val};
use jv_value::getpath;
use jv_value::laws::deleting_no_path_changes_nothing;
use std::alloc::Global;

// The most paths that are kept in a list.
const MOST: usize = 1_048_576;

impl<'s> Context<'s> {
    /// `f |= g`, where both filters are two calls deep. If `_modify` is not known to be the prelude's, it is not run at once. One part is
    /// changed in place. With more of them a copy of the value is changed, since `g` may not run at once on a later part.
    #[cycle(single)]
    #[inline(never)]
    pub(crate) fn change_update(&self, tree: &'s Tree, value: &mut Val) -> Result<(), Stop>
        ensures runs { ChangesTo self.now (named tree.now) (view value.old) (view value.new) result }
        ensures keeps { Keeps result (view value.old) (view value.new) }
    {
        an_update_is_its_turns();
        let Some((paths, update)) = filters_of_update(tree) else {
            return Err(Stop::Unknown);
        };
        if self.depth < 2 || !has_modify(self.scope) {
            return Err(Stop::Unknown);
        }
        let inside = Context {
            depth: self.depth - 2,
            ..*self
        };
        let mut found = Vec::new(self.alloc);
        let end = Rest::End(MOST);
        let Ok(()) = (&inside).gather_paths(paths, value, &end, &mut found) else {
            return Err(Stop::Unknown);
        };
        let found = found.as_slice();
        if found.len() == 1 && !self.kept {
            return inside.change_each(found, update, value);
        }
        if !pays_for_copy(value, found) {
            return Err(Stop::Unknown);
        }
        let mut changed = value.copy()?;
        inside.change_each(found, update, &mut changed)?;
        *value = changed;
        Ok(())
    }

    // One part after the other. The parts at the listed paths are deleted at the end.
    #[cycle(single)]
    fn change_each(&self, paths: &[Val], update: &'s Tree, value: &mut Val) -> Result<(), Stop>
        ensures runs { TakesTurns self.now (named update.now) (map view paths.now) (view value.old) (view value.new) result }
        ensures keeps { length paths.now ≡ 1 → Keeps result (view value.old) (view value.new) }
    {
        let mut without = Vec::new(self.alloc);
        for path in paths {
            self.change_part(path, update, value, &mut without)?;
        }
        delete_listed(self.alloc, value, without)
    }

    // The part at a path becomes the first output of a filter. Without output the path is listed.
    #[cycle(single)]
    fn change_part(
        &self,
        path: &Val,
        update: &'s Tree,
        value: &mut Val,
        without: &mut Vec<Val>,
    ) -> Result<(), Stop>
        ensures turn { TakesTurn self.now (named update.now) (view path.now) (view value.old) (listed without.old.items) (view value.new) (listed without.new.items) result }
        ensures keeps { Keeps result (view value.old) (view value.new) }
    {
        let Val::List(keys) = path else {
            return Err(Stop::Unknown);
        };
        let Ok(mut part) = getpath(self.alloc, value, keys.as_slice()) else {
            return Err(Stop::Unknown);
        };
        let done = self.change_first(update, &mut part);
        placed(self.alloc, done, part, path, value, without)
    }

    // Replaces the value by the first output of a filter.
    #[cycle(single)]
    fn change_first(&self, tree: &'s Tree, value: &mut Val) -> Result<(), Stop>
        ensures runs { ChangesToFirst self.now (named tree.now) (view value.old) (view value.new) result }
        ensures keeps { Keeps result (view value.old) (view value.new) }
    {
        match tree {
            Tree::Comma(left, right) => self.change_first_of_two(left, right, value),
            _ => self.change(tree, value),
        }
    }

    // `f, g`: the first output of `g` counts if `f` has none, so `f` changes a copy. Filters other than `f, g` are run at once only
    // if they have at most one output.
    #[cycle(single)]
    #[inline(never)]
    fn change_first_of_two(
        &self,
        left: &'s Tree,
        right: &'s Tree,
        value: &mut Val,
    ) -> Result<(), Stop>
        ensures runs { ChangesToFirst self.now (form.comma (named left.now) (named right.now)) (view value.old) (view value.new) result }
        ensures keeps { Keeps result (view value.old) (view value.new) }
    {
        if self.fuel == 0 {
            return Err(Stop::Unknown);
        }
        let inside = Context {
            fuel: self.fuel - 1,
            kept: true,
            ..*self
        };
        let mut output = value.copy()?;
        if has_output(inside.change_first(left, &mut output))? {
            *value = output;
            Ok(())
        } else {
            inside.change_first(right, value)
        }
    }
}

// Whether the left side of `f, g` has an output.
fn has_output(done: Result<(), Stop>) -> Result<bool, Stop>
    ensures { (w : Value) (left right : Run Item) → Changed done w (first_alone left) → Comes (λ b. if b then one (plain w) else first_alone right) result (first_alone (then_run left right)) }
{
    match done {
        Ok(()) => Ok(true),
        Err(Stop::Nothing) => Ok(false),
        Err(stop) => Err(stop),
    }
}

/// The two filters of an update `f |= g`, if a filter is one.
pub fn filters_of_update(tree: &Tree) -> Option<(&Tree, &Tree)>
    ensures { IfSome result (λ r. named tree.now ≡ modify (named r.0.now) (named r.1.now)) }
{
    match tree {
        Tree::Update(_, filters) => {
            let [paths, update] = &**filters;
            Some((paths, update))
        }
        _ => None,
    }
}

// Puts a part that was changed back at its path. Without output the path is listed.
#[tactic(auto, using(crate::proofs::UpdateTurns::listed_more))]
fn placed(
    alloc: Global,
    done: Result<(), Stop>,
    part: Val,
    path: &Val,
    value: &mut Val,
    without: &mut Vec<Val>,
) -> Result<(), Stop>
    ensures turn { TakesPart done (view part) (view path.now) (view value.old) (listed without.old.items) (view value.new) (listed without.new.items) result }
    ensures keeps { Keeps result (view value.old) (view value.new) }
{
    match done {
        Ok(()) => put_at(alloc, value, path, part),
        Err(Stop::Nothing) => Ok(add_copy(without, path)?),
        Err(stop) => Err(stop),
    }
}

// Puts a part at a path.
fn put_at(alloc: Global, value: &mut Val, path: &Val, part: Val) -> Result<(), Stop>
    ensures runs { Changed result (view value.new) (plain_native SetPath (view value.old) (view path.now ∷ view part ∷ [])) }
    ensures keeps { (v : Value) → Keeps result v (view value.new) }
{
    let path = path.copy()?;
    call_on(alloc, Native::SetPath, value, &[path, part])
}

fn add_copy(without: &mut Vec<Val>, path: &Val) -> Result<(), NoMemory>
    ensures { OnOk result (map view without.new.items ≡ map view without.old.items ++ view path.now ∷ []) }
{
    without.push(path.copy()?)?;
    Ok(())
}

// Deletes the parts at the listed paths.
fn delete_listed(alloc: Global, value: &mut Val, without: Vec<Val>) -> Result<(), Stop>
    ensures runs { Changed result (view value.new) (plain_native DelPaths (view value.old) (listed without.items ∷ [])) }
    ensures keeps { (v : Value) → Keeps result v (view value.new) }
{
    deleting_no_path_changes_nothing();
    if without.is_empty() {
        return Ok(());
    }
    let paths = Val::List(Array::from_vec(alloc, without)?);
    call_on(alloc, Native::DelPaths, value, &[paths])
}
