// The context of a filter.
use crate::scopes::Scope;
use std::alloc::Global;

// How deep filters that are run at once may nest: each level needs stack.
pub(crate) const FUEL: u8 = 150;

/// The scope of a filter, how deep calls may nest in it, how deep filters that are run at once may nest in it, and
/// whether the value that it changes is a copy of one that is kept, or the output of `f` in `f | g`.
#[derive(Clone, Copy)]
pub(crate) struct Context<'s> {
    pub(crate) alloc: Global,
    pub(crate) scope: &'s Scope<'s>,
    pub(crate) depth: u32,
    pub(crate) fuel: u8,
    pub(crate) kept: bool,
}
