// The output of a filter on a value that is kept: forms that make a value from those of their parts, and copies that others change.
ghost use Rattle.std.specs.Prelude.{◌≡◌, ◌∷◌, [], IfOk, Ok};
ghost use Rattle.std.specs.Str.{chars};
ghost use Rattle.jv_data.specs.Value.{Value, array, items_of};
ghost use Rattle.jv_data.specs.View.{view};
ghost use Rattle.jq_ast.specs.Leaves.{operator_of};
ghost use Rattle.jq_ast.specs.Named.{named, name_of, named_entry};
ghost use Rattle.jq_single.specs.private.Parts.{RunsTo, Answers, Catches, Follows, found_or};
ghost use Rattle.jq_meaning.specs.Continuations.{on_target, format_of, put_between, text_item};
ghost use Rattle.jq_meaning.specs.Runs.{Item, Run, alternative, bind, catch, one, plain};
ghost use Rattle.jq_single.specs.Single.{Comes};
ghost use Rattle.jv_data.specs.Shared.{text_in};
ghost use Rattle.jq_operations.specs.Pieces.{named_pieces};
ghost use Rattle.jq_single.specs.private.Making.{AddsEntry, AddsMember, RunsPieces, TextAnswers};
ghost use Rattle.jv_data.specs.Held.{members_in};
ghost use Rattle.jq_state.specs.Steps.{named_entries};
ghost use Rattle.jq_tree.specs.Tree as form;

use crate::contexts::Context;
use crate::finding::value_of;
use crate::stops::{Stop, answer, refused};
use jq_ast::{Entry, Name, Operator, Piece, Tree};
use jq_natives::truth;
use jq_operations::entries::with_member;
use jq_operations::{Inserted, entry_key, key_error, literal, operated, slice_key, text_in_format};
use jv_arith::neg;
use jv_data::{Array, Fail, NoMemory, Object, SharedText, Val};
use jv_value::index;
use std::alloc::Global;

impl<'s> Context<'s> {
    /// The output of a filter in a scope. It is unknown if the filter has a form that is not run at once, or is nested too deep.
    #[cycle(single)]
    pub(crate) fn get(&self, tree: &'s Tree, value: &Val) -> Result<Val, Stop>
        ensures { RunsTo self.now (named tree.now) (view value.now) result }
    {
        if self.fuel == 0 {
            return Err(Stop::Unknown);
        }
        let inside = Context {
            fuel: self.fuel - 1,
            ..*self
        };
        match tree {
            Tree::Choice(_, _, _)
            | Tree::BindAs(_, _, _)
            | Tree::Define(_, _)
            | Tree::Call(_, _)
            | Tree::PreludeCall(_, _)
            | Tree::Update(_, _)
            | Tree::Reduce(_, _, _, _) => inside.get_changed(tree, value),
            _ => inside.get_made(tree, value),
        }
    }

    /// The same for a part that is often the input, a constant or a variable.
    #[cycle(single)]
    #[inline(always)]
    pub(crate) fn get_part(&self, tree: &'s Tree, value: &Val) -> Result<Val, Stop>
        ensures { RunsTo self.now (named tree.now) (view value.now) result }
    {
        match tree {
            Tree::Identity => Ok(value.copy()?),
            Tree::Literal(constant) => Ok(literal(constant)?),
            Tree::Variable(name) => Ok(value_of(self.scope, name)?),
            _ => self.get(tree, value),
        }
    }

    /// The output of a filter that makes a value from those of its parts.
    #[cycle(single)]
    #[inline(never)]
    pub(crate) fn get_made(&self, tree: &'s Tree, value: &Val) -> Result<Val, Stop>
        ensures { RunsTo self.now (named tree.now) (view value.now) result }
    {
        match tree {
            Tree::Identity => Ok(value.copy()?),
            Tree::Empty => Err(Stop::Nothing),
            Tree::Literal(constant) => Ok(literal(constant)?),
            Tree::Text(format, pieces, last) => {
                let text = self.pieces(format, pieces.as_slice(), last, value)?;
                Ok(Val::Text(text))
            }
            Tree::Format(format) => get_format(self.alloc, format, value),
            Tree::Variable(name) => Ok(value_of(self.scope, name)?),
            Tree::Field(target, key, guarded) => self.field(target, key.value(), *guarded, value),
            Tree::Index(target, key, guarded) => self.index(target, key, *guarded, value),
            Tree::Slice(target, from, to, guarded) => self.slice(target, from, to, *guarded, value),
            Tree::Pipe(first, second) => self.pipe(first, second, value),
            Tree::Binary(operator, left, right) => self.binary(*operator, left, right, value),
            Tree::And(left, right) => self.conjunction(left, right, value),
            Tree::Or(left, right) => self.disjunction(left, right, value),
            Tree::Alternative(left, right) => self.alternative(left, right, value),
            Tree::Negation(operand) => self.negation(operand, value),
            Tree::Array(filter) => self.array(filter, value),
            Tree::Object(entries) => self.object(entries.as_slice(), value),
            Tree::TryCatch(body, handler) => self.try_catch(body, handler, value),
            _ => Err(Stop::Unknown),
        }
    }

    // The output replaces a copy of the value.
    #[cycle(single)]
    #[inline(never)]
    fn get_changed(&self, tree: &'s Tree, value: &Val) -> Result<Val, Stop>
        ensures { RunsTo self.now (named tree.now) (view value.now) result }
    {
        let inside = Context {
            kept: true,
            ..*self
        };
        let mut output = value.copy()?;
        inside.change_form(tree, &mut output)?;
        Ok(output)
    }

    // `f.a`, or the part of the output of a filter at a key that is known.
    #[cycle(single)]
    #[inline(never)]
    fn field(&self, target: &'s Tree, key: &Val, guarded: bool, value: &Val) -> Result<Val, Stop>
        ensures { Follows self.now (named target.now) (view value.now) (on_target guarded (view key.now)) result }
    {
        let found = self.get_part(target, value)?;
        part_at(self.alloc, guarded, &found, key)
    }

    // `f[g]`: the key is run first.
    #[cycle(single)]
    #[inline(never)]
    fn index(
        &self,
        target: &'s Tree,
        key: &'s Tree,
        guarded: bool,
        value: &Val,
    ) -> Result<Val, Stop>
        ensures { RunsTo self.now (form.index (named target.now) (named key.now) guarded) (view value.now) result }
    {
        let at = self.get_part(key, value)?;
        self.field(target, &at, guarded, value)
    }

    // `f[g:h]`: the start is run first, and then the end.
    #[cycle(single)]
    #[inline(never)]
    fn slice(
        &self,
        target: &'s Tree,
        from: &'s Tree,
        to: &'s Tree,
        guarded: bool,
        value: &Val,
    ) -> Result<Val, Stop>
        ensures { RunsTo self.now (form.slice (named target.now) (named from.now) (named to.now) guarded) (view value.now) result }
    {
        let start = self.get(from, value)?;
        let end = self.get(to, value)?;
        let bounds = slice_key(self.alloc, start, end)?;
        self.field(target, &bounds, guarded, value)
    }

    // `f | g`: the output of `g` replaces that of `f`, as it replaces a copy in `get_changed`.
    #[cycle(single)]
    #[inline(never)]
    fn pipe(&self, first: &'s Tree, second: &'s Tree, value: &Val) -> Result<Val, Stop>
        ensures { RunsTo self.now (form.pipe (named first.now) (named second.now)) (view value.now) result }
    {
        let inside = Context {
            kept: true,
            ..*self
        };
        let mut output = self.get_part(first, value)?;
        inside.change(second, &mut output)?;
        Ok(output)
    }

    // `f + g`: the right operand is run first.
    #[cycle(single)]
    #[inline(never)]
    fn binary(
        &self,
        operator: Operator,
        left: &'s Tree,
        right: &'s Tree,
        value: &Val,
    ) -> Result<Val, Stop>
        ensures { RunsTo self.now (form.binary (operator_of operator) (named left.now) (named right.now)) (view value.now) result }
    {
        if let Some(told) = self.compared(operator, left, right, value) {
            return Ok(Val::Bool(told));
        }
        let second = self.get_part(right, value)?;
        let first = self.get_part(left, value)?;
        answer(operated(self.alloc, operator, first, &second))
    }

    // `-f`.
    #[cycle(single)]
    #[inline(never)]
    fn negation(&self, operand: &'s Tree, value: &Val) -> Result<Val, Stop>
        ensures { RunsTo self.now (form.negation (named operand.now)) (view value.now) result }
    {
        let found = self.get(operand, value)?;
        answer(neg(self.alloc, &found))
    }

    // `[f]`.
    #[cycle(single)]
    #[inline(never)]
    fn array(&self, filter: &'s Tree, value: &Val) -> Result<Val, Stop>
        ensures { RunsTo self.now (form.array (named filter.now)) (view value.now) result }
    {
        if matches!(
            filter,
            Tree::Identity | Tree::Literal(_) | Tree::Variable(_)
        ) {
            if let Ok(item) = self.get_part(filter, value) {
                return Ok(array_of_one(self.alloc, item)?);
            }
        }
        let mut items = Vec::new(self.alloc);
        self.collect(filter, value, usize::MAX, &mut items)?;
        Ok(Val::List(Array::from_vec(self.alloc, items)?))
    }

    // `f and g`: if the left side is false, the right one is not run.
    #[cycle(single)]
    #[inline(never)]
    #[tactic(auto, unfolding(jq_meaning::specs::Continuations::on_conjunct, jq_meaning::specs::Continuations::truth))]
    fn conjunction(&self, left: &'s Tree, right: &'s Tree, value: &Val) -> Result<Val, Stop>
        ensures { RunsTo self.now (form.conjunction (named left.now) (named right.now)) (view value.now) result }
    {
        let first = self.get(left, value)?;
        if !truth(&first) {
            return Ok(Val::Bool(false));
        }
        let second = self.get(right, value)?;
        Ok(Val::Bool(truth(&second)))
    }

    // `f or g`: if the left side is true, the right one is not run.
    #[cycle(single)]
    #[inline(never)]
    #[tactic(auto, unfolding(jq_meaning::specs::Continuations::on_disjunct, jq_meaning::specs::Continuations::truth))]
    fn disjunction(&self, left: &'s Tree, right: &'s Tree, value: &Val) -> Result<Val, Stop>
        ensures { RunsTo self.now (form.disjunction (named left.now) (named right.now)) (view value.now) result }
    {
        let first = self.get(left, value)?;
        if truth(&first) {
            return Ok(Val::Bool(true));
        }
        let second = self.get(right, value)?;
        Ok(Val::Bool(truth(&second)))
    }

    // `f // g`. An error ends the left side.
    #[cycle(single)]
    #[inline(never)]
    fn alternative(&self, left: &'s Tree, right: &'s Tree, value: &Val) -> Result<Val, Stop>
        ensures { RunsTo self.now (form.alternative (named left.now) (named right.now)) (view value.now) result }
    {
        match counted(self.get(left, value))? {
            Some(found) => Ok(found),
            None => self.get(right, value),
        }
    }

    // `try f catch g`.
    #[cycle(single)]
    #[inline(never)]
    fn try_catch(&self, body: &'s Tree, handler: &'s Tree, value: &Val) -> Result<Val, Stop>
        ensures { RunsTo self.now (form.try_catch (named body.now) (named handler.now)) (view value.now) result }
    {
        match uncaught(self.get(body, value)) {
            Ok(answer) => answer,
            Err(error) => self.get(handler, &error),
        }
    }

    // The text of the remaining pieces of `"a\(f)b"` or `@name "a\(f)b"`. A piece is run after those that follow it.
    #[cycle(single)]
    fn pieces(
        &self,
        format: &Name,
        pieces: &'s [Piece<Tree>],
        last: &String,
        value: &Val,
    ) -> Result<SharedText, Stop>
        ensures { RunsPieces self.now (name_of format.now) (named_pieces pieces.now last.now) (view value.now) result }
    {
        match pieces {
            [] => {
                let text = String::from_str(self.alloc, last.as_str())?;
                Ok(SharedText::from_string(self.alloc, text)?)
            }
            [piece, later @ ..] => {
                if self.fuel == 0 {
                    return Err(Stop::Unknown);
                }
                let inside = Context {
                    fuel: self.fuel - 1,
                    ..*self
                };
                let back = inside.pieces(format, later, last, value)?;
                let found = self.get(&piece.tree, value)?;
                text_between(
                    self.alloc,
                    format,
                    piece.before.as_str(),
                    &found,
                    back.as_str(),
                )
            }
        }
    }

    // `{..}`. An entry that has a computed key and no value is not run at once.
    #[cycle(single)]
    #[inline(never)]
    fn object(&self, entries: &'s [Entry<Tree>], value: &Val) -> Result<Val, Stop>
        ensures { RunsTo self.now (form.object (named_entries entries.now)) (view value.now) result }
    {
        let mut made = Object::new(self.alloc)?;
        for entry in entries {
            made = self.with_entry(entry, made, value)?;
        }
        Ok(Val::Table(made))
    }

    // The object that is made so far with the member of an entry.
    #[cycle(single)]
    fn with_entry(
        &self,
        entry: &'s Entry<Tree>,
        made: Object<Val>,
        value: &Val,
    ) -> Result<Object<Val>, Stop>
        ensures { AddsEntry self.now (named_entry entry.now) (members_in made) (view value.now) result }
    {
        match entry {
            Entry::Named(key, filter) => {
                let key = entry_key(key)?;
                self.member(&key, filter, made, value)
            }
            // The key is run first. It must be a string.
            Entry::Computed(key, filter) => {
                let found = self.get(key, value)?;
                let Val::Text(_) = &found else {
                    return Err(Stop::Raised(key_error(self.alloc)?));
                };
                self.member(&found.into_text(), filter, made, value)
            }
            Entry::Own(_) => Err(Stop::Unknown),
        }
    }

    // An entry whose key is known.
    #[cycle(single)]
    #[inline(never)]
    fn member(
        &self,
        key: &SharedText,
        filter: &'s Tree,
        made: Object<Val>,
        value: &Val,
    ) -> Result<Object<Val>, Stop>
        ensures { AddsMember self.now (text_in key.now) (named filter.now) (members_in made) (view value.now) result }
    {
        let found = self.get(filter, value)?;
        Ok(with_member(self.alloc, made, key, found)?)
    }
}

fn array_of_one(alloc: Global, item: Val) -> Result<Val, NoMemory>
    ensures { IfOk result (λ v. view v ≡ array (items_of (view item ∷ []))) }
{
    Ok(Val::List(Array::from_vec(alloc, vec![in alloc; item]?)?))
}

// The output of the left side of `f // g`, if it counts: it is neither false nor null. An error ends the left side.
#[inline(always)]
fn counted(left: Result<Val, Stop>) -> Result<Option<Val>, Stop>
    ensures { (r : Run Item) (g : Item → Run Item) (x : Item) → Answers left r → Comes (λ o. found_or o (g x)) result (alternative r g x) }
{
    match left {
        Ok(found) if truth(&found) => Ok(Some(found)),
        Ok(_) | Err(Stop::Nothing) | Err(Stop::Raised(_)) => Ok(None),
        Err(stop) => Err(stop),
    }
}

// The answer of `f` in `try f catch g`, or the error that `g` is run on.
#[inline(always)]
fn uncaught(answer: Result<Val, Stop>) -> Result<Result<Val, Stop>, Val>
    ensures { (r : Run Item) (handler : Value → Run Item) → Answers answer r → Catches result handler (catch r handler) }
{
    match answer {
        Err(Stop::Raised(error)) => Err(error),
        answer => Ok(answer),
    }
}

// The part of a value at a key.
#[tactic(auto, unfolding(jq_meaning::specs::Continuations::on_target))]
fn part_at(alloc: Global, guarded: bool, target: &Val, key: &Val) -> Result<Val, Stop>
    ensures { Answers result (on_target guarded (view key.now) (plain (view target.now))) }
{
    match index(alloc, target, key) {
        Ok(part) => Ok(part),
        Err(Fail::Raised(error)) => Err(refused(guarded, error)),
        Err(Fail::NoMemory) => Err(Stop::NoMemory),
    }
}

// The text of a value in a format between two others, or the error of the format.
fn text_between(
    alloc: Global,
    format: &Name,
    front: &str,
    value: &Val,
    back: &str,
) -> Result<SharedText, Stop>
    ensures { TextAnswers result (put_between (chars front.now) (chars back.now) (format_of (name_of format.now) (view value.now))) }
{
    match text_in_format(alloc, format, front, value, back)? {
        Inserted::Text(text) => Ok(text),
        Inserted::Error(error) => Err(Stop::Raised(error)),
    }
}

// `@name`.
fn get_format(alloc: Global, format: &Name, value: &Val) -> Result<Val, Stop>
    ensures { Answers result (bind (put_between [] [] (format_of (name_of format.now) (view value.now))) text_item) }
{
    let text = text_between(alloc, format, "", value, "")?;
    Ok(Val::Text(text))
}
