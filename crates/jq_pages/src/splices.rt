// The bytes that an edit changes.
/// The `cut` bytes at position `at` of the old bytes are replaced by `put`.
#[derive(Debug, Drop, PartialEq, Eq)]
pub struct Splice {
    pub at: u128,
    pub cut: u128,
    pub put: Vec<u8>,
}

/// The splices of the output and of the errors.
#[derive(Drop)]
pub(crate) struct Splices {
    pub(crate) out: Splice,
    pub(crate) err: Splice,
}
