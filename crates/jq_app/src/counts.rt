// The counts of starts of a command.
use jq_starts::Starts;

/// The counts of starts of a command: that of its filter, and a spare one. If a session takes another filter, its starts are counted
/// in the spare one, and the count of the filter before it is the spare one then.
#[derive(Drop)]
pub struct Counts {
    pub starts: Starts,
    pub spare: Starts,
}
