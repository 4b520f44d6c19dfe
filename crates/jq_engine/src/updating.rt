// Updates (`f |= g`): at once, or in turns, one for each path of `f`, which change a value that nobody else holds in place. Then `f` and
// `g` have runs apart.
ghost use Rattle.std.specs.Prelude.{◌≡◌, ◌<◌, ◌^◌, ◌-◌, ℕ, [], ◌∷◌, IfOk};
ghost use Rattle.jv_arith.specs.Arith.{add_of};
ghost use Rattle.jv_data.specs.Fails.{AnswersAs};
ghost use Rattle.jv_data.specs.Value.{array, items_of};
ghost use Rattle.jv_data.specs.View.{view};
ghost use Rattle.jq_ast.specs.Named.{named};
ghost use Rattle.jq_meaning.specs.Runs.{answered, go_on, one, plain};
ghost use Rattle.jq_natives.specs.Answers.{Answer};
ghost use Rattle.jq_natives.specs.PathNatives.{delpaths_native_of, setpath_native_of};
ghost use Rattle.jq_state.specs.Environments.{count_of};
ghost use Rattle.jq_state.specs.Nexts.{NextFits};
ghost use Rattle.jq_transitions.specs.Outcomes.{ending_of};
ghost use Rattle.jq_engine.specs.private.Updates.{EndsTurn, FollowsTurns, TakesAnswer, TakesTurn, TurnsTo, UpdatesTo, run_in, turns_in};

use crate::apart::{Around, Found};
use crate::at_once::change;
use crate::guards::Guard;
use crate::running::Reached;
use jq_ast::Tree;
use jq_meaning::updates::an_update_is_its_turns;
use jq_natives::{Native, call, call_in_place};
use jq_operations::has_modify;
use jq_single::{Stop, filters_of_update};
use jq_state::frames::Scope;
use jq_state::items::Item;
use jq_state::next::Next;
use jq_transitions::Ending;
use jv_arith::add_to;
use jv_data::{Array, Fail, NoMemory, Val};
use std::alloc::{AllocError, Global};
use std::mem::replace;

// The most environments that are copied for a run apart.
const MOST: u32 = 1_000;

impl<'a, 'p> Around<'a, 'p> {
    /// What is done next where an update is to be evaluated on a value: it runs at once, or turn by turn, or is left to the machine.
    #[cycle(running)]
    #[inline(never)]
    pub(crate) fn update(
        &self,
        tree: &'p Tree,
        scope: Scope,
        value: Val,
        guard: &mut Guard,
    ) -> Result<Next<'p>, NoMemory>
        requires { scope.env < count_of self.now.state.now.nodes }
        ensures fits { IfOk result (NextFits (count_of self.now.state.now.nodes)) }
        ensures run { IfOk result (UpdatesTo (named tree.now) scope (view value) (run_in self.now (named tree.now) scope (view value))) }
    {
        if !guard.has_credit() {
            return self.update_in_turns(tree, scope, value, guard);
        }
        let mut value = value;
        match change(self.alloc, self.state.nodes(), tree, scope, &mut value) {
            Ok(()) => {
                guard.gain();
                Ok(Next::Give(Item::plain(value)))
            }
            Err(Stop::Raised(error)) => Ok(Next::Raise(error)),
            Err(Stop::Nothing) => Ok(Next::GoBack),
            Err(Stop::NoMemory) => Err(NoMemory),
            Err(Stop::Unknown) => {
                guard.pay();
                self.update_in_turns(tree, scope, value, guard)
            }
        }
    }

    // The same turn by turn. The paths are gathered first; both filters are two calls deep.
    #[cycle(running)]
    #[inline(never)]
    fn update_in_turns(
        &self,
        tree: &'p Tree,
        scope: Scope,
        value: Val,
        guard: &mut Guard,
    ) -> Result<Next<'p>, NoMemory>
        requires { scope.env < count_of self.now.state.now.nodes }
        ensures fits { IfOk result (NextFits (count_of self.now.state.now.nodes)) }
        ensures run { IfOk result (UpdatesTo (named tree.now) scope (view value) (run_in self.now (named tree.now) scope (view value))) }
    {
        an_update_is_its_turns();
        let Some((paths, part)) = filters_of_update(tree) else {
            return Ok(Next::Evaluate(tree, scope, Item::plain(value)));
        };
        if self.nesting == 0
            || scope.depth < 2
            || scope.level == u32::MAX
            || self.state.nodes().count() > MOST
            || !has_modify(self.state.nodes(), scope.env)
        {
            return Ok(Next::Evaluate(tree, scope, Item::plain(value)));
        }
        let inside = Scope {
            depth: scope.depth - 2,
            ..scope
        };
        let Some(found) = self.paths_apart(paths, inside, &value, guard)? else {
            return Ok(Next::Evaluate(tree, scope, Item::plain(value)));
        };
        let mut value = value;
        let ended = self.take_turns(part, inside, found, &mut value, guard)?;
        Ok(next_after(ended, value))
    }

    // A turn for each path, and the end of the update. Without an ending the value is the output.
    #[cycle(running)]
    fn take_turns(
        &self,
        part: &'p Tree,
        scope: Scope,
        found: Found,
        value: &mut Val,
        guard: &mut Guard,
    ) -> Result<Option<Ending>, NoMemory>
        requires env { scope.env < count_of self.now.state.now.nodes }
        requires level { scope.level < 2 ^ 32 - 1 }
        requires nesting { 0 < self.now.nesting }
        ensures { IfOk result (λ o. TurnsTo o (one (plain (view value.new))) (turns_in self.now (named part.now) scope found (view value.old))) }
    {
        let mut listed = no_paths(self.alloc)?;
        for path in found.paths.as_slice() {
            if let Some(ending) = self.take_turn(part, scope, path, value, &mut listed, guard)? {
                return Ok(Some(ending));
            }
        }
        finish(self.alloc, found.ending, value, listed)
    }

    // The part at a path becomes the first output of `g`. Without an output the path is listed.
    #[cycle(running)]
    fn take_turn(
        &self,
        part: &'p Tree,
        scope: Scope,
        path: &Val,
        value: &mut Val,
        listed: &mut Val,
        guard: &mut Guard,
    ) -> Result<Option<Ending>, NoMemory>
        requires env { scope.env < count_of self.now.state.now.nodes }
        requires level { scope.level < 2 ^ 32 - 1 }
        requires nesting { 0 < self.now.nesting }
        ensures { IfOk result (TakesTurn self.now (named part.now) scope (view path.now) (view value.old) (view listed.old) (view value.new) (view listed.new)) }
    {
        let old = match call(self.alloc, Native::GetPath, &*value, &[path.copy()?]) {
            Ok(old) => old,
            Err(Fail::Raised(error)) => return Ok(Some(Ending::Raised(error))),
            Err(Fail::NoMemory) => return Err(NoMemory),
        };
        let inside = Scope {
            level: scope.level + 1,
            ..scope
        };
        let own = scope.level;
        match self.first_output(part, inside, old, guard)? {
            Reached::Output(item) => put(self.alloc, value, path, item.value),
            Reached::End(ending) => without_part(self.alloc, ending, own, value, listed, path),
        }
    }
}

// A turn in which `g` had no output. A break of the turn's own label leaves nothing of the update's state.
fn without_part(
    alloc: Global,
    ending: Ending,
    own: u32,
    value: &mut Val,
    listed: &mut Val,
    path: &Val,
) -> Result<Option<Ending>, NoMemory>
    ensures { IfOk result (EndsTurn own (ending_of ending) (view path.now) (view value.old) (view listed.old) (view value.new) (view listed.new)) }
{
    match ending {
        Ending::Done => list(alloc, listed, path),
        Ending::Broken(level) => {
            if level == own {
                *value = Val::Null;
                *listed = Val::Null;
                return Ok(None);
            }
            Ok(Some(Ending::Broken(level)))
        }
        Ending::Raised(error) => Ok(Some(Ending::Raised(error))),
        Ending::Stopped(stop) => Ok(Some(Ending::Stopped(stop))),
    }
}

// An empty list of paths.
fn no_paths(alloc: Global) -> Result<Val, AllocError>
    ensures { IfOk result (λ v. view v ≡ array (items_of [])) }
{
    Ok(Val::List(Array::from_vec(alloc, Vec::new(alloc))?))
}

// The value gets a part at a path.
fn put(alloc: Global, value: &mut Val, path: &Val, part: Val) -> Result<Option<Ending>, NoMemory>
    ensures { IfOk result (λ o. TakesAnswer o (view value.new) (setpath_native_of (view value.old) (view path.now) (view part))) }
{
    let taken = replace(value, Val::Null);
    let arguments = [path.copy()?, part];
    let answer = call_in_place(alloc, Native::SetPath, taken, &arguments);
    take_answer(value, answer)
}

// A path is added to a list.
fn list(alloc: Global, listed: &mut Val, path: &Val) -> Result<Option<Ending>, NoMemory>
    ensures { IfOk result (λ o. TakesAnswer o (view listed.new) (add_of (view listed.old) (array (items_of (view path.now ∷ []))))) }
{
    let taken = replace(listed, Val::Null);
    let items = vec![in alloc; path.copy()?]?;
    let more = Val::List(Array::from_vec(alloc, items)?);
    take_answer(listed, add_to(alloc, taken, &more))
}

// The parts at the listed paths are deleted.
fn delete(alloc: Global, value: &mut Val, listed: Val) -> Result<Option<Ending>, NoMemory>
    ensures { IfOk result (λ o. TakesAnswer o (view value.new) (delpaths_native_of (view value.old) (view listed))) }
{
    let taken = replace(value, Val::Null);
    let answer = call_in_place(alloc, Native::DelPaths, taken, &[listed]);
    take_answer(value, answer)
}

// An answer takes the place of a value. An error ends the update.
fn take_answer(value: &mut Val, answer: Result<Val, Fail>) -> Result<Option<Ending>, NoMemory>
    ensures { IfOk result (λ o. (expected : Answer) → AnswersAs answer expected → TakesAnswer o (view value.new) expected) }
{
    match answer {
        Ok(found) => {
            *value = found;
            Ok(None)
        }
        Err(Fail::Raised(error)) => Ok(Some(Ending::Raised(error))),
        Err(Fail::NoMemory) => Err(NoMemory),
    }
}

// If the paths ended without an error or a break, the parts at the listed paths are deleted.
fn finish(
    alloc: Global,
    ending: Ending,
    value: &mut Val,
    listed: Val,
) -> Result<Option<Ending>, NoMemory>
    ensures { IfOk result (λ o. TurnsTo o (one (plain (view value.new))) (go_on (ending_of ending) (answered plain (delpaths_native_of (view value.old) (view listed))))) }
{
    match ending {
        Ending::Done => delete(alloc, value, listed),
        Ending::Raised(error) => Ok(Some(Ending::Raised(error))),
        Ending::Broken(level) => Ok(Some(Ending::Broken(level))),
        Ending::Stopped(stop) => Ok(Some(Ending::Stopped(stop))),
    }
}

// What is done next after the turns: the value is the output, unless they ended so.
fn next_after<'p>(ended: Option<Ending>, value: Val) -> Next<'p>
    ensures fits { (count : ℕ) → NextFits count result }
    ensures run { FollowsTurns ended (view value) result }
{
    match ended {
        None => Next::Give(Item::plain(value)),
        Some(Ending::Done) => Next::GoBack,
        Some(Ending::Raised(error)) => Next::Raise(error),
        Some(Ending::Broken(level)) => Next::Leave(level),
        Some(Ending::Stopped(stop)) => Next::Quit(stop),
    }
}
