// A copy of a value shares the contents of the value.
ghost use Rattle.std.specs.Prelude.{◌≡◌, IfOk, map};
ghost use Rattle.jv_data.specs.View.{view};

use crate::{NoMemory, Val};
use std::alloc::{AllocError, Global};

impl Val {
    /// An equal value. It takes no memory: the reference count of the value's contents goes up by one.
    /// It fails only if the reference count is at its maximum.
    pub fn copy(&self) -> Result<Val, NoMemory>
        ensures { IfOk result (λ v. view v ≡ view self.now) }
    {
        Ok(self.clone()?)
    }
}

impl Clone for Val {
    ghost is_clone = { λ v w. view w ≡ view v };

    fn clone(&self) -> Result<Val, AllocError> {
        match self {
            Val::Null => Ok(Val::Null),
            Val::Bool(b) => Ok(Val::Bool(*b)),
            Val::Num(n) => Ok(Val::Num(*n)),
            Val::Text(text) => Ok(Val::Text(text.share()?)),
            Val::List(items) => Ok(Val::List(items.share()?)),
            Val::Table(members) => Ok(Val::Table(members.share()?)),
        }
    }
}

/// A copy of each item. The list takes memory, the copies take none.
pub fn copies(alloc: Global, items: &[Val]) -> Result<Vec<Val>, AllocError>
    ensures { IfOk result (λ v. map view v.items ≡ map view items.now) }
{
    let mut copied = Vec::with_capacity(alloc, items.len())?;
    for item in items {
        copied.push(item.clone()?)?;
    }
    Ok(copied)
}
