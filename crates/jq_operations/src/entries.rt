// Objects that are made entry by entry.
ghost use Rattle.std.specs.Prelude.{◌≡◌, ◌<◌, IfOk};
ghost use Rattle.jv_data.specs.Held.{members_in};
ghost use Rattle.jv_data.specs.Members.{put};
ghost use Rattle.jv_data.specs.Shared.{text_in};
ghost use Rattle.jv_data.specs.View.{view};
ghost use Rattle.jq_meaning.specs.machine.Evaluating as machine;
ghost use Rattle.jq_state.specs.Environments.{count_of};
ghost use Rattle.jq_state.specs.Nexts.{ComesTo, transition};
ghost use Rattle.jq_state.specs.Steps.{named_entries};

use crate::constants::entry_key;
use crate::waiting::run_part;
use jq_ast::{Entry, Tree};
use jq_state::frames::Scope;
use jq_state::items::Item;
use jq_state::next::Next;
use jq_state::states::State;
use jq_state::steps::Making;
use jv_data::{NoMemory, Object, SharedText, Val};
use std::alloc::Global;

/// Runs the next entry of an object. If none remains, the object is given.
pub fn next_entry<'p>(
    alloc: Global,
    state: &mut State<'p>,
    later: &'p [Entry<Tree>],
    made: Object<Val>,
    scope: Scope,
    input: Val,
) -> Result<Next<'p>, NoMemory>
    requires { scope.env < count_of state.old.nodes }
    ensures { IfOk result (λ n. ComesTo (transition state.old scope (λ p. machine.next_entry (named_entries later.now) (members_in made) p (view input))) state.new n) }
{
    let Some((entry, later)) = later.split_first() else {
        return Ok(Next::Give(Item::plain(Val::Table(made))));
    };
    let item = Item::plain(input.copy()?);
    match entry {
        Entry::Named(key, value) => {
            let form = Making::EntryValue(entry_key(key)?, later, made, input);
            run_part(alloc, state, value, form, scope, item)
        }
        Entry::Computed(key, value) => {
            let form = Making::EntryKey(value, later, made, input);
            run_part(alloc, state, key, form, scope, item)
        }
        Entry::Own(key) => {
            let form = Making::OwnEntry(later, made, input);
            run_part(alloc, state, key, form, scope, item)
        }
    }
}

/// An object with a value at a key. It replaces the value that the object has at this key.
pub fn with_member(
    alloc: Global,
    mut made: Object<Val>,
    key: &SharedText,
    value: Val,
) -> Result<Object<Val>, NoMemory>
    ensures { IfOk result (λ o. members_in o ≡ put (text_in key.now) (view value) (members_in made)) }
{
    made.insert(String::from_str(alloc, key.as_str())?, value)?;
    Ok(made)
}
