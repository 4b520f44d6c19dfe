// The rest of a filter that runs on the outputs of its first part.
use crate::contexts::Context;
use crate::scopes::Scope;
use jq_ast::Tree;
use jq_state::items::Item;
use jv_data::Val;

/// A step from an output.
#[derive(Clone, Copy)]
pub(crate) enum Step<'s> {
    /// To its part at a key. The `bool` says whether a `?` follows.
    At(&'s Val, bool),
    /// To each of its parts.
    Parts(bool),
    /// To its path.
    Path,
}

/// What is done with each output of the first part. A filter has its scope, and how deep calls may nest in it.
#[derive(Clone, Copy)]
pub(crate) enum Rest<'s> {
    /// Adds it to the list, which takes at most so many values.
    End(usize),
    /// Runs a filter on it, and the rest on that filter's outputs.
    Then(&'s Tree, &'s Scope<'s>, u32, &'s Rest<'s>),
    /// Binds it to a variable, runs a filter on another input, and the rest on that filter's outputs.
    Bind(&'s String, &'s Tree, &'s Scope<'s>, u32, &'s Item, &'s Rest<'s>),
    /// Runs the rest on where a step from it leads to.
    Step(&'s Step<'s>, &'s Rest<'s>),
    /// Binds it to a variable, and runs the update of a fold on the state.
    Fold(&'s String, &'s Tree, &'s Context<'s>),
}
