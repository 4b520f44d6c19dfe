// The outputs of a filter, each passed on to the rest of the filter: paths, and the numbers of `range(f; g)`, too. No list of them is kept.
ghost use Rattle.std.specs.Prelude.{map, ◌≡◌, ◌++◌, ◌∷◌, [], IfSome, MatchOption, OnOk, ℕ, List};
ghost use Rattle.jq_ast.specs.Named.{named, named_as_pattern};
ghost use Rattle.jq_tree.specs.Tree.{trees_of};
ghost use Rattle.jq_operations.specs.Language.{meaning_of};
ghost use Rattle.jq_state.specs.Items.{item_of};
ghost use Rattle.jq_operations.specs.Entering.{defined};
ghost use Rattle.jq_single.specs.private.Gathering.{GathersAll, GathersBound, GathersBuiltin, GathersOf, GathersPaths, Gathers, GathersRun, GathersStep, led, made, numbers_from, step_run, supplied};
ghost use Rattle.jv_data.specs.Text.{text_of};
ghost use Rattle.jv_data.specs.Value.{Value};
ghost use Rattle.jv_data.specs.View.{view};
ghost use Rattle.jq_meaning.specs.Runs.{Run, before, none, one, value_in, plain};
ghost use Rattle.jq_single.specs.Single.{Comes, Ends};
ghost use Rattle.jq_tree.specs.Tree as form;
ghost use Rattle.jq_meaning.specs.Runs as runs;
ghost use Rattle.jq_meaning.specs.Builtins as meaning;

use crate::changing::scope_of_call;
use crate::contexts::Context;
use crate::finding::Called;
use crate::rests::{Rest, Step};
use crate::scopes::Scope;
use crate::stops::Stop;
use jq_ast::{Function, Pattern, Tree};
use jq_natives::truth;
use jq_operations::{Builtin, Outputs, run};
use jq_state::items::Item;
use jq_state::numbers::{is_before, number_after};
use jq_state::steps::Operation;
use jv_data::{NoMemory, Val};
use std::alloc::Global;

/// Items that are given one by one: those of a vector, the last one first, or whole numbers.
#[derive(Drop)]
pub(crate) enum Supply {
    Items(Vec<Item>),
    Numbers(Numbers),
}

/// Where a step leads to.
#[derive(Drop)]
pub(crate) enum Led {
    One(Item),
    Several(Supply),
}

/// The whole numbers from `next` on, if there is one, up to but not including `end`.
#[derive(Drop)]
pub(crate) struct Numbers {
    next: Option<i64>,
    end: i64,
}

impl<'s> Context<'s> {
    /// Runs a filter in a scope, and the rest on each of its outputs. The values at the end are added to a list.
    #[cycle(single)]
    pub(crate) fn gather<'r>(
        &self,
        tree: &'s Tree,
        item: &Item,
        rest: &Rest<'r>,
        into: &mut Vec<Val>,
    ) -> Result<(), Stop>
        ensures { GathersOf self.now (named tree.now) (item_of item.now) rest.now result into.old.items into.new.items }
    {
        if self.fuel == 0 {
            return Err(Stop::Unknown);
        }
        let inside = Context {
            fuel: self.fuel - 1,
            ..*self
        };
        match tree {
            Tree::Identity => inside.give(item.copy()?, rest, into),
            Tree::Iterate(target, guarded) => {
                inside.gather_step(target, &Step::Parts(*guarded), item, rest, into)
            }
            Tree::Field(target, key, guarded) if item.path.is_present() => {
                inside.gather_step(target, &Step::At(key.value(), *guarded), item, rest, into)
            }
            Tree::Index(target, key, guarded) if item.path.is_present() => {
                inside.gather_index(target, key, *guarded, item, rest, into)
            }
            Tree::Pipe(first, second) => inside.gather_pipe(first, second, item, rest, into),
            Tree::Comma(first, second) => inside.gather_comma(first, second, item, rest, into),
            Tree::Choice(condition, holds, fails) => {
                inside.gather_choice(condition, holds, fails, item, rest, into)
            }
            Tree::BindAs(source, pattern, body) => {
                inside.gather_binding(source, pattern, body, item, rest, into)
            }
            Tree::Define(function, later) => {
                inside.gather_define(function, later, item, rest, into)
            }
            Tree::Call(_, _) | Tree::PreludeCall(_, _) => {
                inside.gather_call(tree, item, rest, into)
            }
            _ => inside.gather_one(tree, item, rest, into),
        }
    }

    /// All outputs of a filter on a value, in a list that takes at most so many.
    #[cycle(single)]
    #[inline(never)]
    pub(crate) fn collect(
        &self,
        tree: &'s Tree,
        value: &Val,
        most: usize,
        into: &mut Vec<Val>,
    ) -> Result<(), Stop>
        requires { into.old.items ≡ [] }
        ensures { GathersAll self.now (named tree.now) (view value.now) result into.new.items }
    {
        let input = Item::plain(value.copy()?);
        let end = Rest::End(most);
        (&*self).gather(&*tree, &input, &end, into)
    }

    // A filter of at most one output. On an item with a path it is not run at once.
    #[cycle(single)]
    #[inline(never)]
    fn gather_one<'r>(
        &self,
        tree: &'s Tree,
        item: &Item,
        rest: &Rest<'r>,
        into: &mut Vec<Val>,
    ) -> Result<(), Stop>
        ensures { GathersOf self.now (named tree.now) (item_of item.now) rest.now result into.old.items into.new.items }
    {
        if item.path.is_present() {
            return Err(Stop::Unknown);
        }
        match self.get(tree, &item.value) {
            Ok(found) => {
                let output = Item::plain(found);
                self.give(output, rest, into)
            }
            Err(stop) => ended(stop),
        }
    }

    // `f | g`. If `g` calls a body, it is found once for all outputs of `f`.
    #[cycle(single)]
    #[inline(never)]
    fn gather_pipe<'r>(
        &self,
        first: &'s Tree,
        second: &'s Tree,
        item: &Item,
        rest: &Rest<'r>,
        into: &mut Vec<Val>,
    ) -> Result<(), Stop>
        ensures { GathersOf self.now (form.pipe (named first.now) (named second.now)) (item_of item.now) rest.now result into.old.items into.new.items }
    {
        let called = self.called(second);
        let (filter, scope, depth) = (&*self).entered(&*second, &called);
        let next = Rest::Then(filter, &scope, depth, &*rest);
        (&*self).gather(&*first, item, &next, into)
    }

    // `f, g`.
    #[cycle(single)]
    #[inline(never)]
    fn gather_comma<'r>(
        &self,
        first: &'s Tree,
        second: &'s Tree,
        item: &Item,
        rest: &Rest<'r>,
        into: &mut Vec<Val>,
    ) -> Result<(), Stop>
        ensures { GathersOf self.now (form.comma (named first.now) (named second.now)) (item_of item.now) rest.now result into.old.items into.new.items }
    {
        self.gather(first, item, rest, into)?;
        self.gather(second, item, rest, into)
    }

    // `if f then g else h end`.
    #[cycle(single)]
    #[inline(never)]
    fn gather_choice<'r>(
        &self,
        condition: &'s Tree,
        holds: &'s Tree,
        fails: &'s Tree,
        item: &Item,
        rest: &Rest<'r>,
        into: &mut Vec<Val>,
    ) -> Result<(), Stop>
        ensures { GathersOf self.now (form.choice (named condition.now) (named holds.now) (named fails.now)) (item_of item.now) rest.now result into.old.items into.new.items }
    {
        match self.get(condition, &item.value) {
            Ok(test) => {
                if truth(&test) {
                    self.gather(holds, item, rest, into)
                } else {
                    self.gather(fails, item, rest, into)
                }
            }
            Err(stop) => ended(stop),
        }
    }

    // `f as $x | g`, where f may have several outputs.
    #[cycle(single)]
    #[inline(never)]
    fn gather_binding<'r>(
        &self,
        source: &'s Tree,
        pattern: &'s Pattern,
        body: &'s Tree,
        item: &Item,
        rest: &Rest<'r>,
        into: &mut Vec<Val>,
    ) -> Result<(), Stop>
        ensures { GathersOf self.now (form.bind_as (named source.now) (named_as_pattern pattern.now) (named body.now)) (item_of item.now) rest.now result into.old.items into.new.items }
    {
        match pattern {
            Pattern::Whole(name) => {
                let input = Item::plain(item.value.copy()?);
                let next = Rest::Bind(&*name, &*body, &*self.scope, self.depth, &*item, &*rest);
                (&*self).gather(&*source, &input, &next, into)
            }
            _ => Err(Stop::Unknown),
        }
    }

    // `def a(b): f; g`.
    #[cycle(single)]
    #[inline(never)]
    fn gather_define<'r>(
        &self,
        function: &'s Function<Tree>,
        later: &'s Tree,
        item: &Item,
        rest: &Rest<'r>,
        into: &mut Vec<Val>,
    ) -> Result<(), Stop>
        ensures { GathersOf self.now (defined function.now (named later.now)) (item_of item.now) rest.now result into.old.items into.new.items }
    {
        let scope = Scope::Function(&*self.scope, &*function);
        let inside = Context {
            scope: &scope,
            ..*self
        };
        inside.gather(&*later, item, &*rest, into)
    }

    // A call, by what it runs. A body is run with a call depth that is smaller by one.
    #[cycle(single)]
    #[inline(never)]
    fn gather_call<'r>(
        &self,
        tree: &'s Tree,
        item: &Item,
        rest: &Rest<'r>,
        into: &mut Vec<Val>,
    ) -> Result<(), Stop>
        ensures { GathersOf self.now (named tree.now) (item_of item.now) rest.now result into.old.items into.new.items }
    {
        match &self.called(tree) {
            Called::Body(body, parameters, own, arguments) => {
                if self.depth == 0 {
                    return Err(Stop::Unknown);
                }
                let scope = scope_of_call(own, &**parameters, &**arguments, &*self.scope);
                let inside = Context {
                    scope: &scope,
                    depth: self.depth - 1,
                    ..*self
                };
                inside.gather(&**body, item, &*rest, into)
            }
            Called::Builtin(builtin, arguments) => {
                self.gather_builtin(*builtin, *arguments, item, rest, into)
            }
            Called::Unknown => Err(Stop::Unknown),
        }
    }

    // A name of the language, whose answer replaces a copy of the input. On an item with a path `empty` alone is run at once.
    #[cycle(single)]
    #[inline(never)]
    fn gather_builtin<'r>(
        &self,
        builtin: Builtin,
        arguments: &'s [Tree],
        item: &Item,
        rest: &Rest<'r>,
        into: &mut Vec<Val>,
    ) -> Result<(), Stop>
        ensures { GathersBuiltin self.now (meaning_of builtin) (trees_of (map named arguments.now)) (item_of item.now) rest.now result into.old.items into.new.items }
    {
        if let Builtin::NoOutputs = builtin {
            return Ok(());
        }
        if item.path.is_present() {
            return Err(Stop::Unknown);
        }
        match builtin {
            Builtin::Range => self.gather_range(arguments, &item.value, rest, into),
            Builtin::Paths => match arguments {
                [argument] => self.gather_paths(argument, &item.value, rest, into),
                _ => Err(Stop::Unknown),
            },
            _ => {
                let inside = Context {
                    kept: true,
                    ..*self
                };
                let mut found = item.value.copy()?;
                match inside.change_builtin(builtin, arguments, &mut found) {
                    Ok(()) => self.give(Item::plain(found), rest, into),
                    Err(stop) => ended(stop),
                }
            }
        }
    }

    // Runs the rest of the filter on an output.
    #[cycle(single)]
    fn give<'r>(&self, item: Item, rest: &Rest<'r>, into: &mut Vec<Val>) -> Result<(), Stop>
        ensures { GathersRun (one (item_of item)) rest.now result into.old.items into.new.items }
    {
        match rest {
            Rest::End(most) => {
                if into.len() >= *most {
                    return Err(Stop::Unknown);
                }
                Ok(add(into, item)?)
            }
            Rest::Then(tree, scope, depth, later) => {
                let inside = Context {
                    alloc: self.alloc,
                    scope: *scope,
                    depth: *depth,
                    fuel: self.fuel,
                    kept: true,
                };
                inside.gather(*tree, &item, *later, into)
            }
            Rest::Bind(name, body, outer, depth, input, later) => {
                self.give_bound(
                    *name,
                    *body,
                    *outer,
                    *depth,
                    &item.value,
                    *input,
                    *later,
                    into,
                )
            }
            Rest::Step(step, later) => self.give_step(*step, item, *later, into),
            Rest::Fold(name, update, context) => {
                self.turn(*name, *update, *context, &item.value, into)
            }
        }
    }

    // Binds a value to a variable, and runs the body and the rest on an input.
    #[cycle(single)]
    #[inline(never)]
    fn give_bound<'r>(
        &self,
        name: &'r String,
        body: &'r Tree,
        outer: &'r Scope<'r>,
        depth: u32,
        value: &Val,
        input: &Item,
        later: &Rest<'r>,
        into: &mut Vec<Val>,
    ) -> Result<(), Stop>
        ensures { GathersBound outer.now depth (text_of name.now) (named body.now) (view value.now) (item_of input.now) later.now result into.old.items into.new.items }
    {
        let scope = Scope::Value(&*outer, &*name, &*value);
        let inside = Context {
            alloc: self.alloc,
            scope: &scope,
            depth,
            fuel: self.fuel,
            kept: true,
        };
        inside.gather(&*body, input, &*later, into)
    }

    // Takes a step, and runs the rest on where it leads to.
    #[cycle(single)]
    #[inline(never)]
    fn give_step<'r>(
        &self,
        step: &Step<'r>,
        item: Item,
        later: &Rest<'r>,
        into: &mut Vec<Val>,
    ) -> Result<(), Stop>
        ensures { GathersRun (step_run step.now (item_of item)) later.now result into.old.items into.new.items }
    {
        if self.fuel == 0 {
            return Err(Stop::Unknown);
        }
        let inside = Context {
            fuel: self.fuel - 1,
            ..*self
        };
        match led_to(self.alloc, step, item) {
            Ok(Led::One(item)) => inside.give(item, later, into),
            Ok(Led::Several(supply)) => inside.give_all(supply, later, into),
            Err(stop) => ended(stop),
        }
    }

    // Runs the rest of the filter on items that are given one by one.
    #[cycle(single)]
    fn give_all<'r>(
        &self,
        mut supply: Supply,
        rest: &Rest<'r>,
        into: &mut Vec<Val>,
    ) -> Result<(), Stop>
        ensures { GathersRun (supplied supply) rest.now result into.old.items into.new.items }
    {
        while let Some(item) = take_item(&mut supply) {
            self.give(item, rest, into)?;
        }
        Ok(())
    }

    // `f[g]` on an item with a path: the key is run first.
    #[cycle(single)]
    #[inline(never)]
    fn gather_index<'r>(
        &self,
        target: &'s Tree,
        key: &'s Tree,
        guarded: bool,
        item: &Item,
        rest: &Rest<'r>,
        into: &mut Vec<Val>,
    ) -> Result<(), Stop>
        ensures { GathersOf self.now (form.index (named target.now) (named key.now) guarded) (item_of item.now) rest.now result into.old.items into.new.items }
    {
        match self.get(key, &item.value) {
            Ok(found) => { self.gather_step(target, &Step::At(&found, guarded), item, rest, into) }
            Err(stop) => ended(stop),
        }
    }

    // The rest on where a step from each output leads to.
    #[cycle(single)]
    #[inline(never)]
    fn gather_step<'r>(
        &self,
        tree: &'s Tree,
        step: &Step<'_>,
        item: &Item,
        rest: &Rest<'r>,
        into: &mut Vec<Val>,
    ) -> Result<(), Stop>
        ensures { GathersStep self.now (named tree.now) (item_of item.now) step.now rest.now result into.old.items into.new.items }
    {
        let next = Rest::Step(&*step, &*rest);
        (&*self).gather(&*tree, item, &next, into)
    }

    /// `path(f)`.
    #[cycle(single)]
    #[inline(never)]
    pub(crate) fn gather_paths<'r>(
        &self,
        tree: &'s Tree,
        value: &Val,
        rest: &Rest<'r>,
        into: &mut Vec<Val>,
    ) -> Result<(), Stop>
        ensures { GathersPaths self.now (named tree.now) (view value.now) rest.now result into.old.items into.new.items }
    {
        let start = Item::start(value.copy()?);
        self.gather_step(tree, &Step::Path, &start, rest, into)
    }

    // `range(f; g)`, where f and g have at most one output.
    #[cycle(single)]
    #[inline(never)]
    fn gather_range<'r>(
        &self,
        arguments: &'s [Tree],
        value: &Val,
        rest: &Rest<'r>,
        into: &mut Vec<Val>,
    ) -> Result<(), Stop>
        ensures { GathersBuiltin self.now meaning.range (trees_of (map named arguments.now)) (plain (view value.now)) rest.now result into.old.items into.new.items }
    {
        match arguments {
            [start, end] => match self.get(start, value) {
                Ok(first) => match self.get(end, value) {
                    Ok(last) => match supply_of(&first, &last) {
                        Some(numbers) => self.give_all(numbers, rest, into),
                        None => Err(Stop::Unknown),
                    },
                    Err(stop) => ended(stop),
                },
                Err(stop) => ended(stop),
            },
            _ => Err(Stop::Unknown),
        }
    }
}

// The numbers between two values. If one of them is not a number, the machine runs the filter.
fn supply_of(start: &Val, end: &Val) -> Option<Supply>
    ensures { IfSome result (λ s. supplied s ≡ meaning.range_of (view start.now ∷ view end.now ∷ [])) }
{
    match (start, end) {
        (Val::Num(start), Val::Num(end)) => {
            let numbers = Numbers {
                next: Some(*start),
                end: *end,
            };
            Some(Supply::Numbers(numbers))
        }
        _ => None,
    }
}

// Takes a step.
fn led_to(alloc: Global, step: &Step<'_>, item: Item) -> Result<Led, Stop>
    ensures { Comes led result (step_run step.now (item_of item)) }
{
    let operation = match step {
        Step::At(key, guarded) => Operation::PartAtKey(*guarded, key.copy()?),
        Step::Parts(guarded) => Operation::EveryPart(*guarded),
        Step::Path => Operation::PathValue,
    };
    match run(alloc, operation, item)? {
        Outputs::Nothing => Ok(Led::Several(Supply::Items(Vec::new(alloc)))),
        Outputs::One(item) => Ok(Led::One(item)),
        Outputs::Several(items) => Ok(Led::Several(Supply::Items(items))),
        Outputs::Error(error) => Err(Stop::Raised(error)),
        // A step neither makes numbers of a range nor halts.
        Outputs::Numbers(_, _, _) | Outputs::Stopped(_) => Err(Stop::Unknown),
    }
}

// Adds the value of an item to a list.
#[tactic(auto, using(crate::proofs::Binding::added))]
fn add(into: &mut Vec<Val>, item: Item) -> Result<(), NoMemory>
    ensures { OnOk result (map view into.new.items ≡ map view into.old.items ++ value_in (item_of item) ∷ []) }
{
    into.push(item.value)?;
    Ok(())
}

// A run without output has ended, or ends with an error, whatever the rest of the filter is.
fn ended(stop: Stop) -> Result<(), Stop>
    ensures { (inputs : Run Value) (level : ℕ) (later : Rest) (r : Run runs.Item) (xs : List Val) → Ends stop r → Gathers (made inputs level later) result xs xs r }
{
    match stop {
        Stop::Nothing => Ok(()),
        Stop::Raised(error) => Err(Stop::Raised(error)),
        Stop::NoMemory => Err(Stop::NoMemory),
        Stop::Unknown => Err(Stop::Unknown),
    }
}

// Takes the first item out of a supply: the last element of a vector.
#[tactic(auto, using(crate::proofs::Binding::last_given))]
#[inline(always)]
fn take_item(supply: &mut Supply) -> Option<Item>
    ensures { MatchOption result (supplied supply.old ≡ none) (λ x. supplied supply.old ≡ before (item_of x ∷ []) (supplied supply.new)) }
{
    match supply {
        Supply::Items(items) => Some(items.pop()?),
        Supply::Numbers(numbers) => Some(Item::plain(take_number(numbers)?)),
    }
}

// Takes the first number out.
fn take_number(numbers: &mut Numbers) -> Option<Val>
    ensures { MatchOption result (numbers_from numbers.old ≡ none) (λ v. numbers_from numbers.old ≡ before (plain (view v) ∷ []) (numbers_from numbers.new)) }
{
    let number = numbers.next?;
    if !is_before(number, numbers.end, 1) {
        return None;
    }
    numbers.next = number_after(number, numbers.end, 1);
    Some(Val::Num(number))
}
