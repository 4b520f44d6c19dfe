// The arguments of a call.
ghost use Rattle.std.specs.Prelude.{◌≡◌, ◌<◌, IfOk, OnOk};
ghost use Rattle.jv_data.specs.Value.{Value};
ghost use Rattle.jq_meaning.specs.Runs.{Run};
ghost use Rattle.jq_state.specs.Environments.{count_of};
ghost use Rattle.jq_operations.specs.private.Bodies.{BindsArguments};
ghost use Rattle.jq_state.specs.Views.{frames_in, forks_in};

use jq_ast::Tree;
use jq_state::environments::Binding;
use jq_state::states::State;
use jv_data::NoMemory;

// Binds each parameter of a function to its argument, which sees the caller's bindings, and returns the environment of the body.
pub(crate) fn bind_arguments<'p>(
    state: &mut State<'p>,
    parameters: &'p [String],
    arguments: &'p [Tree],
    caller: u32,
    own: u32,
) -> Result<u32, NoMemory>
    requires caller { caller < count_of state.old.nodes }
    requires own { own < count_of state.old.nodes }
    ensures within { IfOk result (λ env. env < count_of state.new.nodes) }
    ensures env { IfOk result (BindsArguments state.old state.new parameters.now arguments.now caller own) }
    ensures frames { OnOk result ((inputs : Run Value) → frames_in inputs state.new ≡ frames_in inputs state.old) }
    ensures forks { OnOk result ((inputs : Run Value) → forks_in inputs state.new ≡ forks_in inputs state.old) }
{
    let mut env = own;
    for (parameter, argument) in parameters.iter().zip(arguments) {
        env = state.add(Binding::Closure(parameter, argument, caller), env)?;
    }
    Ok(env)
}
