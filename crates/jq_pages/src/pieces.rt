// What one step of a fold writes.

/// The last output of a step.
#[derive(Clone, Copy, Debug, PartialEq, Eq)]
pub enum Last {
    /// There is no output.
    Nothing,
    /// It is `false` or `null`.
    Falsy,
    Truthy,
}

/// What one step writes: the bytes of its output and of its errors, its last output, whether it failed, and the exit status if the
/// filter halted.
#[derive(Drop)]
pub struct Piece {
    pub out: Vec<u8>,
    pub err: Vec<u8>,
    pub last: Last,
    pub failed: bool,
    pub halt: Option<u8>,
}
