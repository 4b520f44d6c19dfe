// Strings that are built from their end.
ghost use Rattle.std.specs.Prelude.{◌<◌, IfOk, map, reverse, []};
ghost use Rattle.jv_data.specs.Shared.{text_in};
ghost use Rattle.jq_ast.specs.Named.{name_of};
ghost use Rattle.jq_meaning.specs.machine.Evaluating as machine;
ghost use Rattle.jq_state.specs.Environments.{count_of};
ghost use Rattle.jq_state.specs.Items.{item_of};
ghost use Rattle.jq_state.specs.Nexts.{ComesTo, transition};
ghost use Rattle.jq_state.specs.Steps.{hole_of};
ghost use Rattle.jq_operations.specs.Pieces.{named_pieces};

use crate::waiting::run_part;
use jq_ast::{Name, Piece, Tree};
use jq_state::frames::Scope;
use jq_state::items::Item;
use jq_state::next::Next;
use jq_state::states::State;
use jq_state::steps::Making;
use jv_data::{NoMemory, SharedText, Val};
use std::alloc::Global;

/// Runs the last filter that remains in a string. If none remains, the string is given.
pub fn next_hole<'p>(
    alloc: Global,
    state: &mut State<'p>,
    format: &'p Name,
    back: SharedText,
    earlier: &'p [Piece<Tree>],
    scope: Scope,
    input: Item,
) -> Result<Next<'p>, NoMemory>
    requires { scope.env < count_of state.old.nodes }
    ensures { IfOk result (λ n. ComesTo (transition state.old scope (λ p. machine.next_hole (name_of format.now) (text_in back) (reverse (map hole_of earlier.now)) p (item_of input))) state.new n) }
{
    let Some((piece, earlier)) = earlier.split_last() else {
        return Ok(Next::Give(Item::plain(Val::Text(back))));
    };
    let item = input.copy()?;
    let hole = Making::Hole(format, &piece.before, back, earlier, input);
    run_part(alloc, state, &piece.tree, hole, scope, item)
}

/// Runs the filters of a string, from the last one to the first.
pub fn enter_pieces<'p>(
    alloc: Global,
    state: &mut State<'p>,
    format: &'p Name,
    pieces: &'p [Piece<Tree>],
    last: &'p String,
    scope: Scope,
    input: Item,
) -> Result<Next<'p>, NoMemory>
    requires { scope.env < count_of state.old.nodes }
    ensures { IfOk result (λ n. ComesTo (transition state.old scope (λ p. machine.enter_pieces (name_of format.now) (named_pieces pieces.now last.now) [] p (item_of input))) state.new n) }
{
    let back = SharedText::from_string(alloc, String::from_str(alloc, last.as_str())?)?;
    next_hole(alloc, state, format, back, pieces, scope, input)
}
