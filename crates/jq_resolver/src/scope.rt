// What is bound around a tree.
ghost use Rattle.std.specs.Prelude.{◌≡◌, ◌∷◌, [], ◌-◌, ◌<◌, suc, false, IfOk, MatchOption, OnOk, drop, length, map};
ghost use Rattle.jv_data.specs.Text.{text_of};
ghost use Rattle.jq_tree.specs.BoundTree.{bound_at, nowhere};
ghost use Rattle.jq_tree.specs.Binders.{binder, prelude_binder};
ghost use Rattle.jq_tree.specs.Names.{Reference, is_bound, with_parameters};
ghost use Rattle.jq_ast.specs.Bound.{binder_at};
ghost use Rattle.jq_resolver.specs.private.Bindings.{IsBinder, IsPreludeBinder, referred};
ghost use Rattle.jq_resolver.specs.private.Scopes.{bound_names};

use crate::bindings::{Bindings, Kind};
use jq_ast::Referent;
use jv_data::NoMemory;
use std::alloc::Global;

// The binders around a tree. The outermost ones, up to `listed`, are those of the program's own list.
#[derive(Drop)]
pub(crate) struct Scope {
    listed: usize,
    bindings: Bindings,
}

impl Scope {
    pub(crate) fn new(alloc: Global) -> Result<Scope, NoMemory>
        ensures { IfOk result (λ s. bound_names s ≡ []) }
    {
        let bindings = Bindings::new(alloc)?;
        Ok(Scope {
            listed: 0,
            bindings,
        })
    }

    pub(crate) fn len(&self) -> usize
        ensures { result ≡ length (bound_names self.now) }
    {
        self.bindings.len()
    }

    pub(crate) fn enter(&mut self, kind: Kind, name: &str) -> Result<(), NoMemory>
        ensures { OnOk result (bound_names self.new ≡ referred kind name.now ∷ bound_names self.old) }
    {
        self.bindings.enter(kind, name)
    }

    // The next binder is one of the program's own list.
    pub(crate) fn list_next(&mut self)
        ensures { bound_names self.new ≡ bound_names self.old }
    {
        self.listed = self.bindings.len().saturating_add(1);
    }

    // Enters the parameters of a function, the last one innermost.
    pub(crate) fn enter_parameters(&mut self, names: &[String]) -> Result<(), NoMemory>
        ensures { OnOk result (bound_names self.new ≡ with_parameters (map text_of names.now) (bound_names self.old)) }
    {
        for name in names {
            self.enter(Kind::Function(0), name.as_str())?;
        }
        Ok(())
    }

    // Leaves the innermost binders until this number is left.
    pub(crate) fn leave(&mut self, count: usize)
        ensures { bound_names self.new ≡ drop (length (bound_names self.old) - count) (bound_names self.old) }
    {
        for _ in count..self.bindings.len() {
            self.bindings.leave();
        }
    }

    // The innermost binder of a name, as the number of binders outside it.
    pub(crate) fn innermost(&self, kind: Kind, name: &str) -> Option<usize>
        ensures { MatchOption result (is_bound (referred kind name.now) (bound_names self.now) ≡ false) (IsBinder (bound_names self.now) (referred kind name.now)) }
    {
        self.bindings.innermost(kind, name)
    }

    // The outermost binder of a name, as the number of binders outside it.
    pub(crate) fn outermost(&self, kind: Kind, name: &str) -> Option<usize>
        ensures { MatchOption result (prelude_binder (bound_names self.now) (referred kind name.now) ≡ nowhere) (IsPreludeBinder (bound_names self.now) (referred kind name.now)) }
    {
        self.bindings.outermost(kind, name)
    }

    // The referent of a name whose binder has this number of binders outside it.
    pub(crate) fn referent(&self, position: usize) -> Result<Referent, NoMemory>
        requires { position < length (bound_names self.now) }
        ensures { IfOk result (λ p. (r : Reference) → binder_at r p (length (bound_names self.now)) ≡ bound_at (length (bound_names self.now) - suc position)) }
    {
        if position < self.listed {
            Ok(Referent::Outer(narrowed(position)?))
        } else {
            Ok(Referent::Inner(narrowed(self.bindings.len() - 1 - position)?))
        }
    }
}

fn narrowed(number: usize) -> Result<u32, NoMemory>
    ensures { IfOk result (λ n. n ≡ number) }
{
    match u32::try_from(number) {
        Ok(n) => Ok(n),
        Err(_) => Err(NoMemory),
    }
}
