// What an engine returns.
use jq_transitions::Ending;
use jv_data::Val;

/// What an engine answers when it is asked for the next output.
#[derive(Drop)]
pub enum Turn {
    Output(Val),
    End(Ending),
    /// Memory ran out. The engine answers this from now on.
    NoMemory,
}
