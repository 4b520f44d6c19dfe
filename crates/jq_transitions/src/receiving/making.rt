// Items that are given to the frames of objects, strings and calls, which are made part by part.
ghost use Rattle.std.specs.Prelude.{◌<◌, ℕ, IfOk, List, Result};
ghost use Rattle.jv_data.specs.Held.{members_in};
ghost use Rattle.jv_data.specs.Value.{Value};
ghost use Rattle.jv_data.specs.View.{view};
ghost use Rattle.jq_ast.specs.Named.{named};
ghost use Rattle.jq_meaning.specs.machine.Giving as machine;
ghost use Rattle.jq_operations.specs.Outputs.{Inserts};
ghost use Rattle.jq_state.specs.Environments.{count_of};
ghost use Rattle.jq_state.specs.Items.{item_of};
ghost use Rattle.jv_text.specs.Formats.{Text};
ghost use Rattle.jq_transitions.specs.private.Transitions.{filled};
ghost use Rattle.jq_state.specs.Nexts.{ComesTo, transition};
ghost use Rattle.jq_state.specs.Steps.{making_in, named_entries};

use crate::receiving::items::into_value;
use crate::receiving::parts::{Part, part_at};
use jq_ast::{Entry, Name, Piece, Tree};
use jq_operations::arguments::next_argument;
use jq_operations::entries::{next_entry, with_member};
use jq_operations::pieces::next_hole;
use jq_operations::waiting::run_part;
use jq_operations::{Inserted, key_error, text_in_format};
use jq_state::frames::Scope;
use jq_state::items::Item;
use jq_state::next::Next;
use jq_state::states::State;
use jq_state::steps::Making;
use jv_data::{NoMemory, Object, Val};
use std::alloc::Global;

pub(crate) fn make<'p>(
    alloc: Global,
    state: &mut State<'p>,
    step: Making<'p>,
    scope: Scope,
    item: Item,
) -> Result<Next<'p>, NoMemory>
    requires { scope.env < count_of state.old.nodes }
    ensures { IfOk result (λ n. ComesTo (transition state.old scope (λ p. machine.receive (making_in step.entry p) (item_of item))) state.new n) }
{
    let value = into_value(item);
    match step {
        Making::EntryValue(key, later, made, input) => {
            let made = with_member(alloc, made, &key, value)?;
            next_entry(alloc, state, later, made, scope, input)
        }
        Making::EntryKey(filter, later, made, input) => {
            value_of_entry(alloc, state, value, filter, later, made, scope, input)
        }
        Making::OwnEntry(later, made, input) => {
            own_value(alloc, state, value, later, made, scope, input)
        }
        Making::Hole(format, front, back, earlier, input) => {
            let text = text_in_format(alloc, format, front.as_str(), &value, back.as_str())?;
            fill_hole(alloc, state, text, format, earlier, scope, input)
        }
        Making::Argument(builtin, later, mut known, input) => {
            known.push(value)?;
            next_argument(alloc, state, builtin, later, known, scope, input)
        }
    }
}

// The key of an entry is known, so its value is run. The key must be a string.
fn value_of_entry<'p>(
    alloc: Global,
    state: &mut State<'p>,
    key: Val,
    filter: &'p Tree,
    later: &'p [Entry<Tree>],
    made: Object<Val>,
    scope: Scope,
    input: Val,
) -> Result<Next<'p>, NoMemory>
    requires { scope.env < count_of state.old.nodes }
    ensures { IfOk result (λ n. ComesTo (transition state.old scope (λ p. machine.value_of_entry (view key) (named filter.now) (named_entries later.now) (members_in made) p (view input))) state.new n) }
{
    let Val::Text(_) = &key else {
        return Ok(Next::Raise(key_error(alloc)?));
    };
    let item = Item::plain(input.copy()?);
    let form = Making::EntryValue(key.into_text(), later, made, input);
    run_part(alloc, state, filter, form, scope, item)
}

// The key of an entry `{"a"}` is known: its value is the part of the input at that key.
fn own_value<'p>(
    alloc: Global,
    state: &mut State<'p>,
    key: Val,
    later: &'p [Entry<Tree>],
    made: Object<Val>,
    scope: Scope,
    input: Val,
) -> Result<Next<'p>, NoMemory>
    requires { scope.env < count_of state.old.nodes }
    ensures { IfOk result (λ n. ComesTo (transition state.old scope (λ p. machine.own_value (view key) (named_entries later.now) (members_in made) p (view input))) state.new n) }
{
    let Val::Text(text) = &key else {
        return Ok(Next::Raise(key_error(alloc)?));
    };
    match part_at(alloc, &input, &key)? {
        Part::Value(part) => {
            let made = with_member(alloc, made, text, part)?;
            next_entry(alloc, state, later, made, scope, input)
        }
        Part::Error(error) => Ok(Next::Raise(error)),
    }
}

// The text of a filter in a string is known, with the text in front of it and after it.
fn fill_hole<'p>(
    alloc: Global,
    state: &mut State<'p>,
    text: Inserted,
    format: &'p Name,
    earlier: &'p [Piece<Tree>],
    scope: Scope,
    input: Item,
) -> Result<Next<'p>, NoMemory>
    requires { scope.env < count_of state.old.nodes }
    ensures { (front back : List ℕ) (t : Text) → Inserts front t back text → IfOk result (ComesTo (transition state.old scope (filled t front back format.now earlier.now (item_of input))) state.new) }
{
    match text {
        Inserted::Text(back) => next_hole(alloc, state, format, back, earlier, scope, input),
        Inserted::Error(error) => Ok(Next::Raise(error)),
    }
}
