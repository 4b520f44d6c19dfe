//! Laws of scripts: their lines by a table of their forms, and a client that follows the answers. Nothing here runs.
ghost use Rattle.jq_script.specs.laws.Clients.{KeepsUp};
ghost use Rattle.jq_script.specs.laws.Table.{IsTable};

/// A line that is not over the limit is a request exactly if it is a line of the protocol's table, which the definition does not
/// use: it divides a line at its spaces.
pub fn requests_are_lines_of_the_table()
    ensures { IsTable }
{}

/// With `--follow`, a client that starts with the output and the errors and applies the splices of the answers that it reads has
/// the output and the errors of runs from scratch after each answer.
#[tactic(auto, using(crate::proofs::Hearing::keeps_up))]
pub fn a_client_keeps_up()
    ensures { KeepsUp }
{}
