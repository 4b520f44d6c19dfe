// Names, and what they refer to.
ghost use Rattle.std.specs.Prelude.{◌≡◌, IfOk, codes};
ghost use Rattle.jv_data.specs.Text.{text_of};

use jq_natives::Native;
use jv_text::Format;
use std::alloc::{AllocError, Global};

/// A function of the language that is neither defined in jq nor a native.
#[derive(Clone, Copy, Debug, PartialEq, Eq)]
pub enum Core {
    /// `empty`.
    Empty,
    /// `path(f)`.
    Path,
    /// `range(f; g)`.
    Range,
    /// `range(f; g; h)`.
    RangeBy,
    /// `inputs`.
    Inputs,
    /// `halt`.
    Halt,
    /// `halt_error(f)`.
    HaltError,
}

/// What a name refers to.
#[derive(Clone, Copy, Debug, PartialEq, Eq)]
pub enum Referent {
    /// Not resolved, or bound by nothing.
    Unresolved,
    /// The binder with this number of binders, of any kind, between it and the name.
    Inner(u32),
    /// The binder with this number of binders outside it: one of the program's own list.
    Outer(u32),
    Native(Native),
    Core(Core),
    /// The format of a string.
    Format(Format),
}

/// A use of a name.
#[derive(Drop)]
pub struct Name {
    pub text: String,
    pub referent: Referent,
}

/// The name `_modify` of the prelude's function for updates.
#[derive(Drop)]
pub struct Modify {
    pub name: Name,
    ghost same: { text_of name.text ≡ codes "_modify" },
}

impl Modify {
    /// The name, not resolved.
    #[tactic(auto, using(crate::proofs::ModifyName::modify_characters))]
    pub fn new(alloc: Global) -> Result<Modify, AllocError> {
        let text = String::from_str(alloc, "_modify")?;
        let name = Name {
            text,
            referent: Referent::Unresolved,
        };
        Ok(Modify { name })
    }
}
