// Folds (`reduce`), whose state each step changes in place.
ghost use Rattle.std.specs.Prelude.{◌≡◌, IfSome, IsTrue, Ok, OnOk};
ghost use Rattle.jv_data.specs.Text.{text_of};
ghost use Rattle.jv_data.specs.View.{view};
ghost use Rattle.jq_ast.specs.Named.{named, named_as_pattern};
ghost use Rattle.jq_tree.specs.Tree as form;
ghost use Rattle.jq_meaning.specs.Runs.{Run, plain};
ghost use Rattle.jq_meaning.specs.Runs as runs;
ghost use Rattle.jq_meaning.specs.Folds.{next_state};
ghost use Rattle.jv_data.specs.Value.{Value};
ghost use Rattle.jq_single.specs.Single.{Changed, Keeps};
ghost use Rattle.jq_single.specs.private.Gathering.{FoldsAs, GathersTurn, GoesOn, Turns, state_in};
ghost use Rattle.jq_single.specs.private.Parts.{ChangesTo};

use crate::contexts::Context;
use crate::rests::Rest;
use crate::scopes::Scope;
use crate::stops::Stop;
use jq_ast::{Pattern, Tree};
use jq_heuristics::{is_cheap, pays_for_copy};
use jq_state::items::Item;
use jv_data::{NoMemory, Val};

// The most outputs of a source that are kept in a list.
const MOST: usize = 65_536;

impl<'s> Context<'s> {
    /// `reduce f as $x (g; h)`, whose result replaces the input. A pattern other than one variable is not matched at once.
    ///
    /// If the input is the first state, and is dear to copy, with one output of the source it is changed in place. With more a copy
    /// of it is, since a later step may be one that is not run at once; the machine runs the filter if the outputs are few.
    /// A source that is run only to find this out has half of the fuel, so that folds in the sources of folds are not run more
    /// often at each level.
    #[cycle(single)]
    #[inline(never)]
    pub(crate) fn change_reduce(
        &self,
        source: &'s Tree,
        pattern: &'s Pattern,
        start: &'s Tree,
        update: &'s Tree,
        value: &mut Val,
    ) -> Result<(), Stop>
        ensures runs { ChangesTo self.now (form.reduce (named source.now) (named_as_pattern pattern.now) (named start.now) (named update.now)) (view value.old) (view value.new) result }
        ensures keeps { Keeps result (view value.old) (view value.new) }
    {
        let Pattern::Whole(name) = pattern else {
            return Err(Stop::Unknown);
        };
        let Tree::Identity = start else {
            return self.change_from(source, name, start, update, value);
        };
        if is_cheap(value) {
            return self.change_from(source, name, start, update, value);
        }
        let mut values = Vec::new(self.alloc);
        let tried = Context {
            fuel: self.fuel / 2,
            ..*self
        };
        let are_all = is_done(tried.collect(source, value, MOST, &mut values));
        match values.as_slice() {
            [single] if are_all && !self.kept => self.step(name, update, single, value),
            several if several.len() >= MOST || are_all && pays_for_copy(value, several) => {
                self.change_from(source, name, start, update, value)
            }
            _ => Err(Stop::Unknown),
        }
    }

    // The fold of a state that is made first, and whose last one replaces the input. The list has one value, the state, which each
    // output of the source changes.
    #[cycle(single)]
    #[inline(never)]
    fn change_from(
        &self,
        source: &'s Tree,
        name: &'s String,
        start: &'s Tree,
        update: &'s Tree,
        value: &mut Val,
    ) -> Result<(), Stop>
        ensures runs { FoldsAs self.now (named source.now) (text_of name.now) (named start.now) (named update.now) (view value.old) (view value.new) result }
        ensures keeps { Keeps result (view value.old) (view value.new) }
    {
        let state = self.get(start, value)?;
        let mut states = Vec::new(self.alloc);
        keep(&mut states, state)?;
        let input = Item::plain(value.copy()?);
        let update = Rest::Fold(&*name, &*update, &*self);
        (&*self).gather(&*source, &input, &update, &mut states)?;
        let Some(last) = take(&mut states) else {
            return Err(Stop::Unknown);
        };
        *value = last;
        Ok(())
    }

    /// A step of a fold on the last value of a list, its state.
    #[cycle(single)]
    #[inline(never)]
    pub(crate) fn turn<'r>(
        &self,
        name: &'r String,
        update: &'r Tree,
        context: &Context<'r>,
        value: &Val,
        states: &mut Vec<Val>,
    ) -> Result<(), Stop>
        ensures { GathersTurn context.now (text_of name.now) (named update.now) (view value.now) result states.old.items states.new.items }
    {
        let Some(mut state) = take(states) else {
            return Err(Stop::Unknown);
        };
        let inside = Context {
            alloc: self.alloc,
            scope: context.scope,
            depth: context.depth,
            fuel: self.fuel,
            kept: false,
        };
        inside.step(name, update, value, &mut state)?;
        Ok(keep(states, state)?)
    }

    // A step of a fold: the variable is bound to a value, and the output of the update replaces the state, or null if it has none.
    #[cycle(single)]
    #[inline(always)]
    fn step(
        &self,
        name: &'s String,
        update: &'s Tree,
        single: &Val,
        state: &mut Val,
    ) -> Result<(), Stop>
        ensures runs { Turns self.now (text_of name.now) (named update.now) (view single.now) (view state.old) (view state.new) result }
        ensures keeps { Keeps result (view state.old) (view state.new) }
    {
        let scope = Scope::Value(&*self.scope, &*name, &*single);
        let inside = Context {
            scope: &scope,
            ..*self
        };
        let done = inside.change(&*update, state);
        settled(done, state)
    }
}

// Whether all outputs were made.
fn is_done(made: Result<(), Stop>) -> bool
    ensures { IsTrue result → made ≡ Ok (tt {0}) }
{
    made.is_ok()
}

// The next state. It is null if the update has no output.
#[inline(always)]
fn settled(done: Result<(), Stop>, state: &mut Val) -> Result<(), Stop>
    ensures runs { (v : Value) (r : Run runs.Item) (go : runs.Item → Run runs.Item) → Changed done (view state.old) r → GoesOn result (go (plain (view state.new))) (next_state (plain v) r go) }
    ensures keeps { (v : Value) → Keeps done v (view state.old) → Keeps result v (view state.new) }
{
    match done {
        Err(Stop::Nothing) => {
            *state = Val::Null;
            Ok(())
        }
        done => done,
    }
}

// The state is the last value of a list.
#[tactic(auto, using(crate::proofs::Binding::last_or_end))]
fn keep(states: &mut Vec<Val>, state: Val) -> Result<(), NoMemory>
    ensures { OnOk result (state_in states.new.items ≡ plain (view state)) }
{
    states.push(state)?;
    Ok(())
}

fn take(states: &mut Vec<Val>) -> Option<Val>
    ensures { IfSome result (λ state. state_in states.old.items ≡ plain (view state)) }
{
    states.pop()
}
