// What `inputs` returns.
use jv_data::Val;

/// The values that `inputs` returns, in order, and the error that it raises after the last one, if there is one.
#[derive(Drop)]
pub struct Inputs {
    pub values: Vec<Val>,
    pub fault: Option<Val>,
}
