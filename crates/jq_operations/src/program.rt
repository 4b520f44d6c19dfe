// The program's own environments.
ghost use Rattle.jq_operations.specs.private.Program.{ProgramIsAList, ProgramHasNoLabels};

use jq_meaning::bindings::programs::programs_are_lists;
use jq_state::environments::Nodes;

// Each binding of the program's list makes the next environment, and none of them is a label.
pub(crate) fn program_is_a_list(nodes: &Nodes<'_>)
    ensures grow { ProgramIsAList nodes.now }
    ensures labels { ProgramHasNoLabels nodes.now }
{
    programs_are_lists();
    nodes.program_comes_first();
}
