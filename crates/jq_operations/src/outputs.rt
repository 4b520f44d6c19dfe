// The outputs of an operation.
use jq_state::items::Item;
use jq_state::next::Stop;
use jv_data::Val;

/// The outputs of an operation, or the error that it raises.
#[derive(Drop)]
pub enum Outputs {
    Nothing,
    One(Item),
    /// Several items, the last one first.
    Several(Vec<Item>),
    /// The numbers of `range`: the first one, the end, and the step.
    Numbers(i64, i64, i64),
    Error(Val),
    Stopped(Stop),
}
