// Filters of which a part is run first. If the part runs at once, what waits for its output goes on in the same step.
ghost use Rattle.std.specs.Prelude.{◌<◌, IfOk};
ghost use Rattle.jv_data.specs.Value.{Value};
ghost use Rattle.jv_data.specs.View.{view};
ghost use Rattle.jq_ast.specs.Named.{named};
ghost use Rattle.jq_tree.specs.Tree as form;
ghost use Rattle.jq_meaning.specs.Runs.{Run, plain};
ghost use Rattle.jq_state.specs.Environments.{count_of};
ghost use Rattle.jq_state.specs.Inputs.{inputs_of};
ghost use Rattle.jq_state.specs.Items.{item_of};
ghost use Rattle.jq_engine.specs.private.Forms.{bound_as};
ghost use Rattle.jq_engine.specs.private.Leading.{GoesOnAfter, Leads, LeadsAfter, at_filter, at_part};

use crate::at_once::change;
use crate::guards::Guard;
use jq_ast::{Pattern, Tree};
use jq_single::Stop;
use jq_state::frames::Scope;
use jq_state::inputs::Inputs;
use jq_state::items::Item;
use jq_state::next::Next;
use jq_state::states::State;
use jq_state::steps::{Binder, Binding, Step};
use jq_transitions::{Progress, enter, go_back_once, raise, receive};
use jv_data::{NoMemory, Val};
use std::alloc::Global;

/// `f as P | g`.
pub(crate) fn begin_binding<'p>(
    alloc: Global,
    state: &mut State<'p>,
    source: &'p Tree,
    pattern: &'p Pattern,
    body: &'p Tree,
    scope: Scope,
    input: Item,
    inputs: &Inputs,
    guard: &mut Guard,
) -> Result<Progress<'p>, NoMemory>
    requires { scope.env < count_of state.old.nodes }
    ensures { IfOk result (Leads (inputs_of inputs.now) (at_filter (inputs_of inputs.now) state.old (bound_as source.now pattern.now body.now) scope (item_of input)) state.new) }
{
    let value = input.value.copy()?;
    let binding = Binding::Source(pattern, Binder::Body(body, input));
    let step = Step::Binding(Box::new(alloc, binding)?);
    let value = Item::plain(value);
    run_part(alloc, state, source, step, scope, value, inputs, guard)
}

/// Runs a part of a filter, whose output goes to a frame. If the part runs at once, the frame is not pushed.
pub(crate) fn run_part<'p>(
    alloc: Global,
    state: &mut State<'p>,
    part: &'p Tree,
    step: Step<'p>,
    scope: Scope,
    input: Item,
    inputs: &Inputs,
    guard: &mut Guard,
) -> Result<Progress<'p>, NoMemory>
    requires { scope.env < count_of state.old.nodes }
    ensures { IfOk result (LeadsAfter (inputs_of inputs.now) (at_part (inputs_of inputs.now) state.old (named part.now) step.entry scope (item_of input)) state.new) }
{
    if !guard.tries(part, &input) {
        return wait(state, part, step, scope, input);
    }
    let mut value = input.value;
    match change(alloc, state.nodes(), part, scope, &mut value) {
        Ok(()) => {
            guard.gain();
            let next = receive(alloc, state, step, scope, Item::plain(value))?;
            Ok(Progress::Moves(next))
        }
        Err(stop) => { stopped(alloc, state, part, step, scope, value, stop, inputs, guard) }
    }
}

/// A part that is not tried is run next.
pub(crate) fn wait<'p>(
    state: &mut State<'p>,
    part: &'p Tree,
    step: Step<'p>,
    scope: Scope,
    input: Item,
) -> Result<Progress<'p>, NoMemory>
    requires { scope.env < count_of state.old.nodes }
    ensures { IfOk result (λ r. (inputs : Run Value) → LeadsAfter inputs (at_part inputs state.old (named part.now) step.entry scope (item_of input)) state.new r) }
{
    state.push(step, scope)?;
    Ok(Progress::Moves(Next::Evaluate(part, scope, input)))
}

/// A part that was tried has no output, or does its first transition.
pub(crate) fn stopped<'p>(
    alloc: Global,
    state: &mut State<'p>,
    part: &'p Tree,
    step: Step<'p>,
    scope: Scope,
    value: Val,
    stop: Stop,
    inputs: &Inputs,
    guard: &mut Guard,
) -> Result<Progress<'p>, NoMemory>
    requires { scope.env < count_of state.old.nodes }
    ensures { GoesOnAfter (inputs_of inputs.now) state.old state.new (named part.now) step.entry scope stop (view value) result }
{
    state.push(step, scope)?;
    match stop {
        Stop::Raised(error) => raise(state, error),
        Stop::Nothing => go_back_once(alloc, state, inputs),
        Stop::NoMemory => Err(NoMemory),
        Stop::Unknown => {
            guard.pay();
            let next = enter(alloc, state, part, scope, Item::plain(value), inputs)?;
            Ok(Progress::Moves(next))
        }
    }
}
