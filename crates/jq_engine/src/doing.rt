// What an engine is doing.
use jq_state::next::Next;
use jq_transitions::Ending;

/// What an engine does when it is asked for the next output.
#[derive(Drop)]
pub(crate) enum Doing<'p> {
    Running(Next<'p>),
    Ended(Ending),
    /// Memory ran out.
    Failed,
}
