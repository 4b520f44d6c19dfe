// Pages of inputs and their pieces.
use crate::listing::PieceList;
use jv_data::Val;

/// The greatest number of inputs in a page.
pub(crate) const MOST_IN_PAGE: usize = 64;

/// The greatest number of inputs in a page of a start. It is less than a page can have: so insertions after the start find room, at
/// whatever places, and few pages are divided.
pub(crate) const FIRST_IN_PAGE: usize = 48;

/// Up to 64 inputs, a piece for each, and the state after them.
#[derive(Drop)]
pub(crate) struct Page<T> {
    pub(crate) inputs: Vec<Val>,
    pub(crate) pieces: PieceList,
    pub(crate) exit: T,
}

/// What a run over the inputs of a page gives.
#[derive(Drop)]
pub(crate) struct Rerun<T> {
    pub(crate) pieces: PieceList,
    pub(crate) exit: T,
}
